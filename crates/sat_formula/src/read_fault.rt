//! Why a text is not read whole.
ghost use Rattle.std.specs.Prelude.{◌≡◌, ◌≢◌};
ghost use Rattle.std.specs.IoError.{error_kind};
ghost use Rattle.sat_formula.specs.ReadFault.{fault_of};
ghost use Rattle.sat_formula.specs.declared.read_fault.UntakenByte.TheVariants as untaken;

use std::alloc::AllocError;
use std::fmt::Display;
use std::io;
use std::io::ErrorKind;
use thiserror::Error;

/// What can be wrong with a kind of text.
pub trait FaultKind {
    /// What the text is, in a message.
    const TEXT: &'static str;
}

/// The number of a line; lines count from 1.
#[derive(Clone, Copy, Debug, PartialEq, Eq, Error)]
#[error("line {0}")]
pub struct LineNumber(pub u64);

/// Why a text was not read to its end, where a fault has such a position and is of such a kind.
#[derive(Debug, Drop, Error)]
#[error_bound(P: Display, K: Display + FaultKind)]
pub enum ReadFault<P, K> {
    /// A read failed, or the text is longer than any that is read.
    #[error("error reading {text}: {0}", text = K::TEXT)]
    Read(io::Error),
    /// The first fault of the text.
    #[error("{at}: {kind}")]
    Wrong { at: P, kind: K },
    /// There was no memory for what was read or for the bytes read ahead.
    #[error("out of memory")]
    OutOfMemory,
}

/// Why a byte was not taken. A `ReadFault`, which may hold the error of a read, is larger, and
/// would be copied for each byte.
#[derive(Clone, Copy)]
pub enum UntakenByte<P, K> {
    /// The first fault of the text.
    Wrong { at: P, kind: K },
    /// There was no memory.
    OutOfMemory,
}

impl<P, K> From<AllocError> for UntakenByte<P, K> {
    ghost from_gives = { λ _ why. why ≡ untaken.OutOfMemory };

    fn from(_e: AllocError) -> UntakenByte<P, K> {
        UntakenByte::OutOfMemory
    }
}

impl<P, K> From<UntakenByte<P, K>> for ReadFault<P, K> {
    ghost from_gives = { λ why fault. fault ≡ fault_of why };

    fn from(why: UntakenByte<P, K>) -> ReadFault<P, K> {
        match why {
            UntakenByte::Wrong { at, kind } => ReadFault::Wrong { at, kind },
            UntakenByte::OutOfMemory => ReadFault::OutOfMemory,
        }
    }
}

impl<P, K> ReadFault<P, K> {
    /// Returns the fault of a text whose bytes could not be read before it: no memory for them, by
    /// the error's kind, or a failed read.
    pub fn of_error(error: io::Error) -> ReadFault<P, K>
        ensures memory { error_kind error ≡ ErrorKind.OutOfMemory
            → result ≡ ReadFault.OutOfMemory }
        ensures read { error_kind error ≢ ErrorKind.OutOfMemory
            → result ≡ ReadFault.Read error }
    {
        match error.kind() {
            ErrorKind::OutOfMemory => ReadFault::OutOfMemory,
            _ => ReadFault::Read(error),
        }
    }
}
