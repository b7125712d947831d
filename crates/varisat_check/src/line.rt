//! Lines.
use arrayvec::ArrayVec;

/// The line of a verdict, which has 56 bytes at the most.
pub(crate) type Line = ArrayVec<u8, 64>;
