//! Whether circuits have the shapes that formulas are made of.
ghost use Rattle.std.specs.Prelude.{◌≡◌, ◌+◌, ◌<◌, ◌^◌, nat_lt};
ghost use Rattle.circuit_clauses.specs.Causes.{are_both_ordered, is_closed, is_invariant, is_machine};
ghost use Rattle.circuit_clauses.specs.Machines.{bad_of, size_of};

use crate::order::{are_ordered, gates_below, latches_below, lits_below};
use circuit_text::Circuit;
use sat_formula::Lit;

/// Whether the sum of four numbers is below a limit.
pub(crate) fn are_few(limit: usize, one: usize, two: usize, three: usize, four: usize) -> bool
    requires { limit < 2 ^ 32 }
    ensures { result ≡ nat_lt (one + two + three + four) limit }
{
    if one >= limit || two >= limit || three >= limit || four >= limit {
        return false;
    }
    one + two + three + four < limit
}

/// Whether the gates of two circuits are in order, behind inputs and latches, this many.
pub(crate) fn are_both_ordered(states: usize, one: &Circuit, other: &Circuit) -> bool
    requires { states < 2 ^ 32 }
    ensures { result ≡ are_both_ordered states one.now other.now }
{
    are_ordered(states + 1, &one.gates) && are_ordered(states + 1, &other.gates)
}

/// Whether the gates of a circuit and these literals have the variables of inputs and latches, this
/// many, and of as many gates as there are.
pub(crate) fn is_closed(states: usize, circuit: &Circuit, lits: &[Lit]) -> bool
    requires states { states < 2 ^ 32 }
    requires gates { size_of circuit.now < 2 ^ 32 }
    ensures { result ≡ is_closed states circuit.now lits.now }
{
    let end = states + 1 + circuit.gates.len();
    gates_below(0, end, &circuit.gates) && lits_below(0, end, lits)
}

/// Whether this is so of a machine's gates, constraints and bad outputs, and of its latches, which
/// are among the first ones.
pub(crate) fn is_machine(states: usize, machine: &Circuit) -> bool
    requires states { states < 2 ^ 32 }
    requires gates { size_of machine.now < 2 ^ 32 }
    ensures { result ≡ is_machine states machine.now }
{
    let end = states + 1 + machine.gates.len();
    latches_below(states, end, &machine.latches)
        && lits_below(0, end, &machine.constraints)
        && is_closed(states, machine, bad_outputs(machine))
}

/// Whether a circuit has one output and gates alone.
pub(crate) fn is_invariant(circuit: &Circuit) -> bool
    ensures { result ≡ is_invariant circuit.now }
{
    circuit.latches.is_empty()
        && circuit.bad.is_empty()
        && circuit.constraints.is_empty()
        && circuit.outputs.len() == 1
}

/// Returns the bad outputs of a machine. Where none is named, all outputs are.
#[tactic(auto, using(crate::proofs::MachineLemmas::bad_is))]
pub fn bad_outputs(machine: &Circuit) -> &[Lit]
    ensures { result.now ≡ bad_of machine.now.outputs.items machine.now.bad.items }
{
    if machine.bad.is_empty() {
        &machine.outputs
    } else {
        &machine.bad
    }
}
