//! Why calls are rejected.
ghost use Rattle.std.specs.Prelude.{◌≡◌};
ghost use Rattle.session_checker.specs.declared.fault.SessionFault.TheVariants as faults;

use std::alloc::AllocError;
use thiserror::Error;

/// Why a clause, a lemma or an answer is rejected.
#[derive(Clone, Copy, Debug, PartialEq, Eq, Error)]
pub enum SessionCause {
    /// The id of the new clause names a clause already.
    #[error("id is taken")]
    IdTaken,
    /// A hint names no clause.
    #[error("no clause has the id of a hint")]
    UnknownId,
    /// A hint names a clause with two literals that are not false.
    #[error("clause of a hint is not unit")]
    NotUnit,
    /// The hints end without a conflict.
    #[error("hints end without a conflict")]
    NoConflict,
    /// A literal of the core was not assumed.
    #[error("a literal of the core was not assumed")]
    NotAssumed,
    /// The model has both signs of a variable.
    #[error("the model has both signs of a variable")]
    BothSigns,
    /// The model does not have an assumption.
    #[error("the model does not have an assumption")]
    MissesAssumption,
    /// The model has no literal of this clause of the application, the first such one; they count
    /// from 1.
    #[error("the model has no literal of clause {0}")]
    MissesClause(u64),
}

/// Why a call changes nothing.
#[derive(Clone, Copy, Debug, PartialEq, Eq, Error)]
pub enum SessionFault {
    /// It is rejected.
    #[error("{0}")]
    Refused(SessionCause),
    /// There was no memory for it.
    #[error("out of memory")]
    OutOfMemory,
}

impl From<AllocError> for SessionFault {
    ghost from_gives = { λ _ fault. fault ≡ faults.OutOfMemory };

    fn from(_e: AllocError) -> SessionFault {
        SessionFault::OutOfMemory
    }
}
