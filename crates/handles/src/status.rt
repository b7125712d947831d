//! The statuses of calls as numbers.

/// The status of an accepted call.
pub(crate) const ACCEPTED: u8 = 0;

/// The call is none: nothing was looked at.
pub(crate) const NOT_RUN: u8 = 2;

/// The checker rejects the call.
pub(crate) const REJECTED: u8 = 3;

/// There was no memory.
pub(crate) const OUT_OF_MEMORY: u8 = 4;
