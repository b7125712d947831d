//! Why a proof is not elaborated.
use std::alloc::{AllocError, AllocFailed};
use thiserror::Error;

/// Why a proof is not elaborated. Steps count from 1, deletions included.
#[derive(Clone, Copy, Debug, PartialEq, Eq, Error)]
pub enum ElaborateFault {
    /// There was no memory.
    #[error("out of memory")]
    OutOfMemory,
    /// There are more clauses, literals, steps or hints than 32 bits can count.
    #[error("too long")]
    TooLong,
    /// The clause that the step adds is used, and neither follows by propagation nor is RAT on its
    /// first literal.
    #[error("step {step}: clause is neither RUP nor RAT on its first literal")]
    NotRedundant { step: u64 },
    /// The clause that the step adds is used, and neither follows by propagation nor is redundant
    /// by its witness.
    #[error("step {step}: clause is neither RUP nor PR by its witness")]
    NotRedundantByWitness { step: u64 },
    /// The witness of the step has a literal and its negation.
    #[error("step {step}: witness contradicts itself")]
    ContradictoryWitness { step: u64 },
    /// The lines of a clause with a witness, or of a target tautology, need a variable above those
    /// of the formula and the proof, which have the largest variable already.
    #[error("no variable is left for the lines of a witness or of a tautology")]
    NoFreshVariable,
    /// The step names a clause of the formula, and each one with its literals has an id already.
    #[error("step {step}: clause is not in the formula")]
    NotInFormula { step: u64 },
    /// The steps end without a conflict by propagation.
    #[error("no conflict after {steps} steps")]
    NoConflict { steps: u64 },
    /// A call came out of order, or the elaborator has a defect.
    #[error("internal error")]
    Internal,
}

impl From<AllocError> for ElaborateFault {
    fn from(_e: AllocError) -> ElaborateFault {
        ElaborateFault::OutOfMemory
    }
}

impl<T: Drop> From<AllocFailed<T>> for ElaborateFault {
    fn from(_e: AllocFailed<T>) -> ElaborateFault {
        ElaborateFault::OutOfMemory
    }
}
