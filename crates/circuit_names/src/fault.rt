//! Why the inputs and outputs of two circuits are not paired by their names.
ghost use Rattle.std.specs.Prelude.{◌≡◌};
ghost use Rattle.circuit_names.specs.declared.fault.PairFault.TheVariants as faults;

use crate::names::Which;
use crate::place::Kind;
use std::alloc::{AllocError, AllocFailed};
use std::fmt;
use std::fmt::{Display, Formatter};
use thiserror::Error;

/// An input or output of one of two circuits.
#[derive(Clone, Copy, Debug, PartialEq, Eq)]
pub struct Spot {
    pub circuit: Which,
    pub kind: Kind,
    /// Inputs and outputs count from 0.
    pub position: usize,
}

/// What is returned in place of a pairing by names.
#[derive(Clone, Copy, Debug, PartialEq, Eq, Error)]
pub enum PairFault {
    /// This one has no name, or an empty one, where something has a name.
    #[error("{0} has no name")]
    Unnamed(Spot),
    /// This one has the name of an earlier one.
    #[error("{0} has the name of an earlier one")]
    Repeated(Spot),
    /// This one has a name that none of the other circuit has.
    #[error("{0} has a name that none of the other circuit has")]
    Unmatched(Spot),
    /// There was no memory for the names or the circuit.
    #[error("out of memory")]
    OutOfMemory,
}

impl Display for Spot {
    fn fmt<F: fmt::Write>(&self, f: &mut Formatter<F>) -> fmt::Result {
        let kind = match self.kind {
            Kind::Input => "input",
            Kind::Output => "output",
        };
        let circuit = match self.circuit {
            Which::First => "first",
            Which::Second => "second",
        };
        let position = self.position;
        write!(f, "{kind} {position} of the {circuit} circuit")
    }
}

impl From<AllocError> for PairFault {
    ghost from_gives = { λ _ fault. fault ≡ faults.OutOfMemory };

    fn from(_e: AllocError) -> PairFault {
        PairFault::OutOfMemory
    }
}

impl<T: Drop> From<AllocFailed<T>> for PairFault {
    ghost from_gives = { λ _ fault. fault ≡ faults.OutOfMemory };

    fn from(_e: AllocFailed<T>) -> PairFault {
        PairFault::OutOfMemory
    }
}
