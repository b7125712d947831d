//! Why lines are rejected.
ghost use Rattle.std.specs.Prelude.{◌≡◌};
ghost use Rattle.lrat_checker.specs.Faults.{fault_of, in_line, of_text};
ghost use Rattle.lrat_checker.specs.declared.fault.Stop.TheVariants as stops;

use lrat_text::{LineKind, LratTextFault};
use std::alloc::AllocError;
use std::io;
use thiserror::Error;

/// Why a line is rejected.
#[derive(Clone, Copy, Debug, PartialEq, Eq, Error)]
pub enum LratCause {
    /// The id of the new clause names a clause already.
    #[error("id is taken")]
    IdTaken,
    /// An antecedent hint names no clause.
    #[error("no clause has the id of a hint")]
    UnknownId,
    /// An antecedent hint names a clause with two literals that are not false.
    #[error("clause of a hint is not unit")]
    NotUnit,
    /// The hints end without a conflict, and there is no RAT candidate.
    #[error("hints end without a conflict")]
    NoConflict,
    /// A clause with the negation of the pivot is no candidate of the line.
    #[error("no hints for a clause with the negation of the pivot")]
    GroupMissing,
    /// The hints of a candidate end without a conflict.
    #[error("hints of a candidate end without a conflict")]
    GroupFails,
}

/// Why a line is not accepted.
#[derive(Clone, Copy, Debug, PartialEq, Eq, Error)]
pub enum LineFault {
    /// The line is rejected.
    #[error("{0}")]
    Refused(LratCause),
    /// There was no memory for what the line says.
    #[error("out of memory")]
    OutOfMemory,
    /// An earlier line was not accepted.
    #[error("an earlier line was not accepted")]
    Failed,
}

/// Why a text is not accepted. Lines count from 1 in each text.
#[derive(Debug, Drop, Error)]
pub enum LratFault {
    /// A read failed, or the text is longer than any that is read.
    #[error("error reading proof: {0}")]
    Read(io::Error),
    /// The line can't be read.
    #[error("line {line}: {kind}")]
    Unread { line: u64, kind: LineKind },
    /// The line is rejected.
    #[error("line {line}: {cause}")]
    Refused { line: u64, cause: LratCause },
    /// There was no memory for what the text says.
    #[error("out of memory")]
    OutOfMemory,
    /// An earlier line or text was not accepted.
    #[error("an earlier line was not accepted")]
    Failed,
}

/// Why the check of a line stops.
#[derive(Clone, Copy)]
pub(crate) enum Stop {
    Refused(LratCause),
    OutOfMemory,
}

impl From<AllocError> for Stop {
    ghost from_gives = { λ _ stop. stop ≡ stops.OutOfMemory };

    fn from(_e: AllocError) -> Stop {
        Stop::OutOfMemory
    }
}

impl Stop {
    /// Returns the fault of a line that is checked.
    pub(crate) fn fault(self) -> LineFault
        ensures { result ≡ fault_of self }
    {
        match self {
            Stop::Refused(cause) => LineFault::Refused(cause),
            Stop::OutOfMemory => LineFault::OutOfMemory,
        }
    }
}

impl LineFault {
    /// Returns the fault of the line of that number in a text.
    pub fn in_line(self, line: u64) -> LratFault
        ensures { result ≡ in_line self line }
    {
        match self {
            LineFault::Refused(cause) => LratFault::Refused { line, cause },
            LineFault::OutOfMemory => LratFault::OutOfMemory,
            LineFault::Failed => LratFault::Failed,
        }
    }
}

impl From<LratTextFault> for LratFault {
    ghost from_gives = { λ fault result. result ≡ of_text fault };

    fn from(fault: LratTextFault) -> LratFault {
        match fault {
            LratTextFault::Read(cause) => LratFault::Read(cause),
            LratTextFault::Wrong { at, kind } => LratFault::Unread { line: at.0, kind },
            LratTextFault::OutOfMemory => LratFault::OutOfMemory,
        }
    }
}
