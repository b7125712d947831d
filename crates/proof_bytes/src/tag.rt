//! The byte that each kind of step begins with, and the mark before the first step.

/// Begins a text with a version of its own, whose number follows.
pub(crate) const MARK: u8 = 0;

/// The version whose hashes are in bytes of a width.
pub(crate) const VERSION: u8 = 2;

pub(crate) const SOLVER_VAR_NAME: u8 = 1;

pub(crate) const USER_VAR_NAME: u8 = 2;

pub(crate) const DELETE_VAR: u8 = 3;

pub(crate) const CHANGE_SAMPLING_MODE: u8 = 4;

pub(crate) const ADD_CLAUSE: u8 = 5;

pub(crate) const AT_CLAUSE: u8 = 6;

pub(crate) const DELETE_CLAUSE: u8 = 7;

pub(crate) const UNIT_CLAUSES: u8 = 8;

pub(crate) const CHANGE_HASH_BITS: u8 = 9;

pub(crate) const MODEL: u8 = 10;

pub(crate) const ASSUMPTIONS: u8 = 11;

pub(crate) const FAILED_ASSUMPTIONS: u8 = 12;

pub(crate) const END: u8 = 13;
