//! Why calls are not accepted.
ghost use Rattle.std.specs.Prelude.{◌≡◌};
ghost use Rattle.handles.specs.declared.checker_fault.CallFault.TheVariants as faults;

use crate::lits::LitsFault;
use checker_parts::error::{CheckCause, CheckerError};
use std::alloc::AllocFailed;

/// Why a call is not accepted.
#[derive(Clone, Copy, Debug, PartialEq, Eq)]
pub enum CallFault {
    /// The checker was not begun, or it has ended.
    NoChecker,
    /// The checker was begun and has not ended.
    Begun,
    /// A number is that of no literal.
    NoLit,
    /// A number is that of no kind of step.
    NoStep,
    /// The checker rejects the call, as its step of this number or after it.
    Refused { step: u64, cause: CheckCause },
    /// There was no memory for the call: the checker is as it was.
    OutOfMemory,
    /// There was no memory within the call: the checker has failed.
    GaveUp,
    /// The checker had failed before the call, which did nothing.
    Failed,
}

impl From<CheckerError> for CallFault {
    ghost use Rattle.handles.specs.CheckerCalls.{fault_of};

    ghost from_gives = { λ error r. r ≡ fault_of error };

    fn from(error: CheckerError) -> CallFault {
        match error {
            CheckerError::CheckFailed { step, msg, .. } => CallFault::Refused { step, cause: msg },
            CheckerError::Failed => CallFault::Failed,
            CheckerError::OutOfMemory => CallFault::GaveUp,
            // (no processor is registered, and no text is read)
            CheckerError::ProofProcessorError { .. } => CallFault::GaveUp,
            CheckerError::ProofIncomplete { .. } => CallFault::GaveUp,
            CheckerError::IoError { .. } => CallFault::GaveUp,
            CheckerError::ParseError { .. } => CallFault::GaveUp,
        }
    }
}

impl From<LitsFault> for CallFault {
    ghost use Rattle.handles.specs.CheckerCalls.{unread};

    ghost from_gives = { λ fault r. r ≡ unread fault };

    fn from(fault: LitsFault) -> CallFault {
        match fault {
            LitsFault::NoLit => CallFault::NoLit,
            LitsFault::OutOfMemory => CallFault::OutOfMemory,
        }
    }
}

impl<T: Drop> From<AllocFailed<T>> for CallFault {
    ghost from_gives = { λ _ r. r ≡ faults.OutOfMemory };

    fn from(_e: AllocFailed<T>) -> CallFault {
        CallFault::OutOfMemory
    }
}
