//! The outcome of a call of the ported checker as numbers.
ghost use Rattle.std.specs.Prelude.{◌≡◌};
ghost use Rattle.handles.specs.CheckerAnswers.{cause_of, number_of, rejected_step, status_of};

use crate::checker_fault::CallFault;
use crate::status::{ACCEPTED, NOT_RUN, OUT_OF_MEMORY, REJECTED};
use checker_parts::error::CheckCause;

/// The cause of a checker that has failed.
const FAILED: u8 = 34;

/// The outcome of a call.
#[repr(C)]
#[derive(Clone, Copy)]
pub struct CheckerAnswer {
    /// 0 accepted, 3 rejected, 2 where nothing was looked at, 4 where there was no memory.
    pub status: u8,
    /// Why the status is 3, from 1 to 29 in the order of `CheckCause`, or 2, from 30 to 34; 34 too
    /// if the checker fails at status 4; else 0.
    pub cause: u8,
    /// How many steps were checked up to a rejection, the rejected one among them; else 0.
    pub step: u64,
}

impl CheckerAnswer {
    /// Returns the outcome as numbers.
    pub fn of(outcome: Result<(), CallFault>) -> CheckerAnswer
        ensures status { result.status ≡ status_of outcome }
        ensures cause { result.cause ≡ cause_of outcome }
        ensures step { result.step ≡ rejected_step outcome }
    {
        match outcome {
            Ok(()) => answer(ACCEPTED, 0, 0),
            Err(CallFault::NoChecker) => answer(NOT_RUN, 30, 0),
            Err(CallFault::Begun) => answer(NOT_RUN, 31, 0),
            Err(CallFault::NoLit) => answer(NOT_RUN, 32, 0),
            Err(CallFault::NoStep) => answer(NOT_RUN, 33, 0),
            Err(CallFault::Refused { step, cause }) => answer(REJECTED, number(cause), step),
            Err(CallFault::OutOfMemory) => answer(OUT_OF_MEMORY, 0, 0),
            Err(CallFault::GaveUp) => answer(OUT_OF_MEMORY, FAILED, 0),
            Err(CallFault::Failed) => answer(NOT_RUN, FAILED, 0),
        }
    }
}

/// Returns the answer with these numbers.
fn answer(status: u8, cause: u8, step: u64) -> CheckerAnswer
    ensures status { result.status ≡ status }
    ensures cause { result.cause ≡ cause }
    ensures step { result.step ≡ step }
{
    CheckerAnswer {
        status,
        cause,
        step,
    }
}

/// Returns the number of a cause.
fn number(cause: CheckCause) -> u8
    ensures { result ≡ number_of cause }
{
    match cause {
        CheckCause::NotSampling => 1,
        CheckCause::Tautology => 2,
        CheckCause::NoClauseForHash => 3,
        CheckCause::AtCheckFailed => 4,
        CheckCause::DeleteUnitOrEmpty => 5,
        CheckCause::DeleteUnknown => 6,
        CheckCause::DeleteRedundantIsIrredundant => 7,
        CheckCause::DeleteIrredundantIsRedundant => 8,
        CheckCause::NotSatisfied => 9,
        CheckCause::NotSubsumed => 10,
        CheckCause::DeletedVarNamed => 11,
        CheckCause::DeletedVarHasClauses => 12,
        CheckCause::SampleHidden => 13,
        CheckCause::UserNameTaken => 14,
        CheckCause::StillHidden => 15,
        CheckCause::NameInUse => 16,
        CheckCause::NoNameToRemove => 17,
        CheckCause::ModelAgainstUnit => 18,
        CheckCause::ModelAgainstItself => 19,
        CheckCause::ModelMissesAssumption => 20,
        CheckCause::ModelMissesClause => 21,
        CheckCause::NotAssumed => 22,
        CheckCause::UnknownVar => 23,
        CheckCause::HashBits => 24,
        CheckCause::CoreVarHidden => 25,
        CheckCause::ModelAfterUnsat => 26,
        CheckCause::IdsExhausted => 27,
        CheckCause::CountExhausted => 28,
        CheckCause::StepsExhausted => 29,
    }
}
