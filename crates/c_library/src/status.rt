//! Statuses of calls.
/// A text is rejected.
pub(crate) const FAULT: u8 = 1;

/// The call is none: nothing was looked at.
pub(crate) const NOT_RUN: u8 = 2;

/// There was no memory.
pub(crate) const OUT_OF_MEMORY: u8 = 4;
