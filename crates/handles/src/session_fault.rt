//! Why calls change nothing.
ghost use Rattle.std.specs.Prelude.{◌≡◌};
ghost use Rattle.handles.specs.declared.session_fault.HandleFault.TheVariants as faults;

use crate::lits::LitsFault;
use session_checker::{SessionCause, SessionFault};
use std::alloc::{AllocError, AllocFailed};

/// Why a call changes nothing.
#[derive(Clone, Copy, Debug, PartialEq, Eq)]
pub enum HandleFault {
    /// The session was not begun, or it has ended.
    NoSession,
    /// The session was begun and has not ended.
    Begun,
    /// A number is that of no literal.
    NoLit,
    /// The checker rejects the call.
    Refused(SessionCause),
    /// There was no memory for it.
    OutOfMemory,
}

impl From<SessionFault> for HandleFault {
    ghost use Rattle.handles.specs.SessionCauses.{fault_of};

    ghost from_gives = { λ fault r. r ≡ fault_of fault };

    fn from(fault: SessionFault) -> HandleFault {
        match fault {
            SessionFault::Refused(cause) => HandleFault::Refused(cause),
            SessionFault::OutOfMemory => HandleFault::OutOfMemory,
        }
    }
}

impl From<LitsFault> for HandleFault {
    ghost use Rattle.handles.specs.SessionCauses.{unread};

    ghost from_gives = { λ fault r. r ≡ unread fault };

    fn from(fault: LitsFault) -> HandleFault {
        match fault {
            LitsFault::NoLit => HandleFault::NoLit,
            LitsFault::OutOfMemory => HandleFault::OutOfMemory,
        }
    }
}

impl From<AllocError> for HandleFault {
    ghost from_gives = { λ _ r. r ≡ faults.OutOfMemory };

    fn from(_e: AllocError) -> HandleFault {
        HandleFault::OutOfMemory
    }
}

impl<T: Drop> From<AllocFailed<T>> for HandleFault {
    ghost from_gives = { λ _ r. r ≡ faults.OutOfMemory };

    fn from(_e: AllocFailed<T>) -> HandleFault {
        HandleFault::OutOfMemory
    }
}
