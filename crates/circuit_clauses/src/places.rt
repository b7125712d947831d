//! The variables of two circuits in one formula.
ghost use Rattle.std.specs.Prelude.{◌≡◌, ◌+◌, ◌*◌, ◌<◌, ◌^◌, None};
ghost use Rattle.circuit_clauses.specs.Causes.{same_cause};
ghost use Rattle.circuit_clauses.specs.Places.{HasCounts, HasPlaces};

use crate::shift::Shift;
use circuit_text::Circuit;
use sat_formula::Lit;

/// The inputs of both circuits are the variables from 1 on. Those of the first circuit's gates
/// follow, then those of the second one's, and then those of the differences between outputs.
#[derive(Drop)]
pub(crate) struct Places {
    /// The inputs stay, and the second circuit's gates are further on: by how many gates the first
    /// one has.
    pub(crate) shift: Shift,
    /// The variable of the first difference.
    differences: u32,
}

impl Places {
    /// Returns the places of two circuits.
    pub(crate) fn of(one: &Circuit, other: &Circuit) -> Places
        requires { same_cause one.now other.now ≡ None }
        ensures { HasPlaces one.now other.now result }
    {
        Places::with_counts(one.inputs, one.gates.len(), other.gates.len())
    }

    /// Returns the places for these numbers of inputs and of gates of both circuits.
    fn with_counts(inputs: u32, gates: usize, others: usize) -> Places
        requires { inputs + gates + others < 2 ^ 28 }
        ensures { HasCounts inputs gates others result }
    {
        Places {
            shift: Shift {
                inputs,
                distance: gates as u32,
            },
            differences: (inputs as usize + 1 + gates + others) as u32,
        }
    }

    /// Returns the literal of the difference between the outputs of this index.
    pub(crate) fn difference(&self, index: usize) -> Lit
        requires { self.now.differences + index < 2 ^ 28 }
        ensures { result ≡ 2 * (self.now.differences + index) }
    {
        match Lit::from_code(2 * (self.differences as usize + index)) {
            Some(lit) => lit,
            None => unreachable!(),
        }
    }
}
