//! Why a text is no version that can be compared.
ghost use Rattle.std.specs.Prelude.{◌≡◌};
ghost use Rattle.packages.specs.declared.fault.VersionFault.TheVariants as faults;

use std::alloc::{AllocError, AllocFailed};
use thiserror::Error;

/// Why there is no `Version` of a text.
#[derive(Clone, Copy, Debug, PartialEq, Eq, Error)]
pub enum VersionFault {
    /// A number of the version is 2^64 or more.
    #[error("a number of a version is too large")]
    TooLarge,
    /// There was no memory for the version.
    #[error("out of memory")]
    OutOfMemory,
}

impl From<AllocError> for VersionFault {
    ghost from_gives = { λ _ fault. fault ≡ faults.OutOfMemory };

    fn from(_e: AllocError) -> VersionFault {
        VersionFault::OutOfMemory
    }
}

impl<T: Drop> From<AllocFailed<T>> for VersionFault {
    ghost from_gives = { λ _ fault. fault ≡ faults.OutOfMemory };

    fn from(_e: AllocFailed<T>) -> VersionFault {
        VersionFault::OutOfMemory
    }
}
