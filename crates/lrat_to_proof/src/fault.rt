//! Why a proof could not be converted.
ghost use Rattle.std.specs.Prelude.{◌≡◌};
ghost use Rattle.lrat_to_proof.specs.Faults.{giving_up, in_line, of_text};
ghost use Rattle.lrat_to_proof.specs.declared.fault.GivenUp.TheVariants as reasons;
ghost use Rattle.lrat_to_proof.specs.declared.fault.Stop.TheVariants as stops;

use lrat_text::{LineKind, LratTextFault};
use proof_bytes::WriteFault;
use sat_formula::DimacsFault;
use std::alloc::{AllocError, AllocFailed};
use std::io;
use thiserror::Error;

/// Why a line has no steps.
#[derive(Clone, Copy, Debug, PartialEq, Eq, Error)]
pub enum LineCause {
    /// A clause is stored under the id of one that is added.
    #[error("id is taken")]
    IdTaken,
    /// No clause is stored under the id of a hint.
    #[error("no clause has the id of a hint")]
    UnknownId,
    /// A candidate hint of a RAT step, for which there is no proof step.
    #[error("RAT steps can't be converted")]
    RatGroup,
}

/// Why a conversion has no end. Of a proof at most a beginning was written.
#[derive(Debug, Drop, Error)]
pub enum ConvertFault {
    /// The formula was not read whole.
    #[error("formula: {0}")]
    Formula(DimacsFault),
    /// A read of the LRAT proof failed, or the proof is longer than any that is read.
    #[error("error reading proof: {0}")]
    Read(io::Error),
    /// A line that can't be read; lines count from 1.
    #[error("proof: line {line}: {kind}")]
    Unread { line: u64, kind: LineKind },
    /// A line that has no steps.
    #[error("proof: line {line}: {cause}")]
    Refused { line: u64, cause: LineCause },
    /// A write failed.
    #[error("error writing: {0}")]
    Write(io::Error),
    /// There was no memory for the clauses, for a line or for its steps.
    #[error("out of memory")]
    OutOfMemory,
}

/// Why nothing more can be written.
#[derive(Drop)]
pub(crate) enum GivenUp {
    Write(io::Error),
    OutOfMemory,
}

/// Why a line was not converted.
#[derive(Drop)]
pub(crate) enum Stop {
    Refused(LineCause),
    GivenUp(GivenUp),
}

impl Stop {
    /// Returns the fault of the line of that number.
    pub(crate) fn in_line(self, line: u64) -> ConvertFault
        ensures { result ≡ in_line self line }
    {
        match self {
            Stop::Refused(cause) => ConvertFault::Refused { line, cause },
            Stop::GivenUp(why) => ConvertFault::from(why),
        }
    }
}

impl From<GivenUp> for ConvertFault {
    ghost from_gives = { λ why fault. fault ≡ giving_up why };

    fn from(why: GivenUp) -> ConvertFault {
        match why {
            GivenUp::Write(cause) => ConvertFault::Write(cause),
            GivenUp::OutOfMemory => ConvertFault::OutOfMemory,
        }
    }
}

impl ConvertFault {
    /// Returns the fault of a proof whose next line can't be read.
    pub(crate) fn unread(fault: LratTextFault) -> ConvertFault
        ensures { result ≡ of_text fault }
    {
        match fault {
            LratTextFault::Read(cause) => ConvertFault::Read(cause),
            LratTextFault::Wrong { at, kind } => ConvertFault::Unread { line: at.0, kind },
            LratTextFault::OutOfMemory => ConvertFault::OutOfMemory,
        }
    }
}

impl From<GivenUp> for Stop {
    ghost from_gives = { λ why stop. stop ≡ stops.GivenUp why };

    fn from(why: GivenUp) -> Stop {
        Stop::GivenUp(why)
    }
}

impl From<AllocError> for GivenUp {
    ghost from_gives = { λ _ why. why ≡ reasons.OutOfMemory };

    fn from(_e: AllocError) -> GivenUp {
        GivenUp::OutOfMemory
    }
}

impl From<io::Error> for GivenUp {
    ghost from_gives = { λ cause why. why ≡ reasons.Write cause };

    fn from(cause: io::Error) -> GivenUp {
        GivenUp::Write(cause)
    }
}

impl From<WriteFault> for GivenUp {
    ghost from_gives = { λ _ why. why ≡ reasons.OutOfMemory };

    fn from(_e: WriteFault) -> GivenUp {
        // Hashes are cut to the width in force, so none is too wide.
        GivenUp::OutOfMemory
    }
}

impl<T: Drop> From<AllocFailed<T>> for Stop {
    ghost from_gives = { λ _ stop. stop ≡ stops.GivenUp reasons.OutOfMemory };

    fn from(_e: AllocFailed<T>) -> Stop {
        Stop::GivenUp(GivenUp::OutOfMemory)
    }
}

impl From<AllocError> for Stop {
    ghost from_gives = { λ _ stop. stop ≡ stops.GivenUp reasons.OutOfMemory };

    fn from(_e: AllocError) -> Stop {
        Stop::GivenUp(GivenUp::OutOfMemory)
    }
}
