//! Why a writer of lines of hints writes none.
use std::alloc::{AllocError, AllocFailed};
use thiserror::Error;

/// Why a writer writes no line of a step. Its output stays as it was.
#[derive(Clone, Copy, Debug, PartialEq, Eq, Error)]
pub enum WriterFault {
    #[error("input clause after a derived clause")]
    InputAfterDerived,
    #[error("more input clauses than announced")]
    TooManyInputs,
    /// A number of 2^64 or more.
    #[error("clause number out of range")]
    NumberOutOfRange,
    #[error("out of memory")]
    OutOfMemory,
}

impl From<AllocError> for WriterFault {
    ghost use Rattle.std.specs.Prelude.{◌≡◌};
    ghost use Rattle.sat_hints.specs.declared.fault.WriterFault.TheVariants.{OutOfMemory};

    ghost from_gives = { λ _ fault. fault ≡ OutOfMemory };

    fn from(_e: AllocError) -> WriterFault {
        WriterFault::OutOfMemory
    }
}

impl<T: Drop> From<AllocFailed<T>> for WriterFault {
    ghost use Rattle.std.specs.Prelude.{◌≡◌};
    ghost use Rattle.sat_hints.specs.declared.fault.WriterFault.TheVariants.{OutOfMemory};

    ghost from_gives = { λ _ fault. fault ≡ OutOfMemory };

    fn from(_e: AllocFailed<T>) -> WriterFault {
        WriterFault::OutOfMemory
    }
}
