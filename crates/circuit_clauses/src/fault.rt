//! Why there is no formula of a circuit.
ghost use Rattle.std.specs.Prelude.{◌≡◌};
ghost use Rattle.circuit_clauses.specs.declared.fault.ClausesFault.TheVariants as faults;

use std::alloc::{AllocError, AllocFailed};
use thiserror::Error;

/// Why there is no formula of circuits.
#[derive(Clone, Copy, Debug, PartialEq, Eq, Error)]
pub enum ClausesFault {
    /// A gate reads itself or a later gate.
    #[error("a gate reads itself or a later gate")]
    Unordered,
    /// The two circuits have different numbers of inputs.
    #[error("the circuits have different numbers of inputs")]
    OtherInputs,
    /// The two circuits have different numbers of outputs.
    #[error("the circuits have different numbers of outputs")]
    OtherOutputs,
    /// The circuits have no outputs, so that nothing is claimed of them.
    #[error("the circuits have no outputs")]
    NoOutputs,
    /// A literal is of no input, no latch and no gate.
    #[error("a literal is of no input, no latch and no gate")]
    OutOfRange,
    /// The machine has no outputs.
    #[error("the machine has no outputs that could be bad")]
    NothingBad,
    /// The invariant is no circuit with one output and gates alone.
    #[error("an invariant has one output, and no latches, bad states and constraints")]
    NoInvariant,
    /// The invariant's inputs are not the machine's inputs and latches.
    #[error("the invariant's inputs are not as many as the machine's inputs and latches")]
    OtherStates,
    /// The formula would have more variables than a formula can have.
    #[error("too many variables")]
    TooLarge,
    /// There was no memory for the formula.
    #[error("out of memory")]
    OutOfMemory,
}

impl From<AllocError> for ClausesFault {
    ghost from_gives = { λ _ fault. fault ≡ faults.OutOfMemory };

    fn from(_e: AllocError) -> ClausesFault {
        ClausesFault::OutOfMemory
    }
}

impl<T: Drop> From<AllocFailed<T>> for ClausesFault {
    ghost from_gives = { λ _ fault. fault ≡ faults.OutOfMemory };

    fn from(_e: AllocFailed<T>) -> ClausesFault {
        ClausesFault::OutOfMemory
    }
}
