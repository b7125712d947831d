//! Why a run can't go on.
ghost use Rattle.std.specs.Prelude.{◌≡◌};
ghost use Rattle.session_check.specs.declared.fault.Stop.TheVariants as stops;

use session_checker::SessionCause;
use session_text::SessionTextFault;
use std::alloc::{AllocError, AllocFailed};
use std::io;
use thiserror::Error;

/// Why a line ends a session.
#[derive(Clone, Copy, Debug, PartialEq, Eq, Error)]
pub enum LineCause {
    /// Its id is taken, or one of its ids names no clause.
    #[error("{0}")]
    Refused(SessionCause),
    /// It is a line that may not come here: an answer or a conclusion without a query, or a clause
    /// or a query after one without an answer.
    #[error("not expected here")]
    Misplaced,
    /// It is a clause, a query or an answer, and the next one of the interaction is another, or
    /// there is none.
    #[error("the interaction does not have it here")]
    Untold,
    /// The interaction reports values or a core behind it, and the last answer is another.
    #[error("the interaction reports something else than what was answered")]
    Report,
}

/// Why a run was not brought to its end.
#[derive(Debug, Drop, Error)]
pub enum RunFault {
    /// The interaction was not read whole.
    #[error("interaction: {0}")]
    Interaction(SessionTextFault),
    /// The proof was not read whole.
    #[error("proof: {0}")]
    Proof(SessionTextFault),
    /// A line of the proof ends the session; lines count from 1.
    #[error("proof: line {line}: {cause}")]
    Line { line: u64, cause: LineCause },
    /// The proof ends after a query without an answer; this is its last line.
    #[error("proof: line {line}: the last query has no answer")]
    NoAnswer { line: u64 },
    /// The proof ends before this line of the interaction.
    #[error("interaction: line {line}: the proof ends before it")]
    Unproved { line: u64 },
    /// There was no memory for a clause or an answer.
    #[error("out of memory")]
    OutOfMemory,
    /// A line could not be written.
    #[error("error writing: {0}")]
    Write(io::Error),
}

/// Why a line was not taken.
#[derive(Clone, Copy)]
pub(crate) enum Stop {
    Line(LineCause),
    OutOfMemory,
}

impl From<AllocError> for Stop {
    ghost from_gives = { λ _ stop. stop ≡ stops.OutOfMemory };

    fn from(_e: AllocError) -> Stop {
        Stop::OutOfMemory
    }
}
