//! Why reading stops.
ghost use Rattle.std.specs.Prelude.{◌≡◌};
ghost use Rattle.sat_formula.specs.Stop.{stop_of};
ghost use Rattle.sat_formula.specs.declared.stop.Stop.TheVariants as stops;

use crate::source::NoByte;
use std::alloc::{AllocError, AllocFailed};

/// Why reading stops, where a text can have faults of this kind. It is small, since it passes
/// through the loops over bytes.
#[derive(Clone, Copy)]
pub enum Stop<K> {
    /// The text ended, by its end mark or with the input.
    End,
    /// A read failed, or the limit is met; the source has the error.
    Read,
    /// The first fault of the text.
    Wrong(K),
    /// There was no memory.
    OutOfMemory,
}

impl<K> From<NoByte> for Stop<K> {
    ghost from_gives = { λ reason stop. stop ≡ stop_of reason };

    fn from(reason: NoByte) -> Stop<K> {
        match reason {
            NoByte::End => Stop::End,
            NoByte::Read => Stop::Read,
            NoByte::OutOfMemory => Stop::OutOfMemory,
        }
    }
}

impl<K> From<AllocError> for Stop<K> {
    ghost from_gives = { λ _ stop. stop ≡ stops.OutOfMemory };

    fn from(_e: AllocError) -> Stop<K> {
        Stop::OutOfMemory
    }
}

impl<K, T: Drop> From<AllocFailed<T>> for Stop<K> {
    ghost from_gives = { λ _ stop. stop ≡ stops.OutOfMemory };

    fn from(_e: AllocFailed<T>) -> Stop<K> {
        Stop::OutOfMemory
    }
}
