//! The variables of a machine and an invariant in one formula.
ghost use Rattle.std.specs.Prelude.{◌<◌, ◌^◌};
ghost use Rattle.circuit_clauses.specs.Causes.{last_of};
ghost use Rattle.circuit_clauses.specs.Machines.{HasCounts};

use circuit_text::Circuit;

/// The machine's inputs and latches are the variables from 1 on. Its gates follow, and then those
/// of the invariant. The variables of the next step follow in the same order.
#[derive(Clone, Copy)]
pub(crate) struct Counts {
    /// How many inputs and latches the machine has.
    pub(crate) states: u32,
    /// How many gates it has.
    pub(crate) own: u32,
    /// The last variable.
    pub(crate) last: u32,
}

impl Counts {
    /// Counts the variables.
    pub(crate) fn of(machine: &Circuit, invariant: &Circuit) -> Counts
        requires { last_of machine.now invariant.now < 2 ^ 27 }
        ensures { HasCounts machine.now invariant.now result }
    {
        let states = machine.inputs as usize + machine.latches.len();
        let (own, others) = (machine.gates.len(), invariant.gates.len());
        Counts {
            states: states as u32,
            own: own as u32,
            last: (states + own + others) as u32,
        }
    }
}
