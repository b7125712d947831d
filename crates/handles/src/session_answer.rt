//! The outcome of a call of a session as numbers.
ghost use Rattle.std.specs.Prelude.{◌≡◌};
ghost use Rattle.handles.specs.SessionAnswers.{cause_of, clause_of, missed_by, number_of, status_of};

use crate::session_fault::HandleFault;
use crate::status::{ACCEPTED, NOT_RUN, OUT_OF_MEMORY, REJECTED};
use session_checker::SessionCause;

/// The outcome of a call.
#[repr(C)]
#[derive(Clone, Copy)]
pub struct SessionAnswer {
    /// 0 accepted, 3 rejected, 2 where there is no session, there is one already or a number is no
    /// literal, 4 where there was no memory.
    pub status: u8,
    /// Why the status is 3, from 1 to 8 in the order of `SessionCause`, or 2, from 9 to 11 in the
    /// order of `HandleFault`; else 0.
    pub cause: u8,
    /// If a model has no literal of a clause, the number of the first such one, from 1; else 0.
    pub clause: u64,
}

impl SessionAnswer {
    /// Returns the outcome as numbers.
    pub fn of(outcome: Result<(), HandleFault>) -> SessionAnswer
        ensures status { result.status ≡ status_of outcome }
        ensures cause { result.cause ≡ cause_of outcome }
        ensures clause { result.clause ≡ clause_of outcome }
    {
        match outcome {
            Ok(()) => answer(ACCEPTED, 0, 0),
            Err(HandleFault::NoSession) => answer(NOT_RUN, 9, 0),
            Err(HandleFault::Begun) => answer(NOT_RUN, 10, 0),
            Err(HandleFault::NoLit) => answer(NOT_RUN, 11, 0),
            Err(HandleFault::Refused(cause)) => answer(REJECTED, number(cause), missed(cause)),
            Err(HandleFault::OutOfMemory) => answer(OUT_OF_MEMORY, 0, 0),
        }
    }
}

/// Returns the answer with these numbers.
fn answer(status: u8, cause: u8, clause: u64) -> SessionAnswer
    ensures status { result.status ≡ status }
    ensures cause { result.cause ≡ cause }
    ensures clause { result.clause ≡ clause }
{
    SessionAnswer {
        status,
        cause,
        clause,
    }
}

/// Returns the number of a cause.
fn number(cause: SessionCause) -> u8
    ensures { result ≡ number_of cause }
{
    match cause {
        SessionCause::IdTaken => 1,
        SessionCause::UnknownId => 2,
        SessionCause::NotUnit => 3,
        SessionCause::NoConflict => 4,
        SessionCause::NotAssumed => 5,
        SessionCause::BothSigns => 6,
        SessionCause::MissesAssumption => 7,
        SessionCause::MissesClause(_) => 8,
    }
}

/// Returns the number of the clause that a model misses, or 0.
fn missed(cause: SessionCause) -> u64
    ensures { result ≡ missed_by cause }
{
    match cause {
        SessionCause::MissesClause(number) => number,
        _ => 0,
    }
}
