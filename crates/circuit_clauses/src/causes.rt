//! Why there is no formula of circuits.
ghost use Rattle.std.specs.Prelude.{◌≡◌};
ghost use Rattle.circuit_clauses.specs.Causes.{never_cause, safe_cause, same_cause};

use crate::fault::ClausesFault;
use crate::order::are_ordered;
use crate::shapes::{are_both_ordered, are_few, bad_outputs, is_closed, is_invariant, is_machine};
use circuit_text::Circuit;
use sat_formula::Var;

/// Returns why there is no formula of a circuit.
pub(crate) fn never_cause(circuit: &Circuit) -> Option<ClausesFault>
    ensures { result ≡ never_cause circuit.now }
{
    if circuit.outputs.is_empty() {
        return Some(ClausesFault::NoOutputs);
    }
    if !are_ordered(circuit.inputs as usize + 1, &circuit.gates) {
        return Some(ClausesFault::Unordered);
    }
    None
}

/// Returns why there is no formula of two circuits.
pub(crate) fn same_cause(one: &Circuit, other: &Circuit) -> Option<ClausesFault>
    ensures { result ≡ same_cause one.now other.now }
{
    let (inputs, outputs) = (one.inputs as usize, one.outputs.len());
    if one.inputs != other.inputs {
        return Some(ClausesFault::OtherInputs);
    }
    if outputs != other.outputs.len() {
        return Some(ClausesFault::OtherOutputs);
    }
    if outputs == 0 {
        return Some(ClausesFault::NoOutputs);
    }
    let (own, others) = (one.gates.len(), other.gates.len());
    if !are_few(Var::MAX_COUNT, inputs, own, others, outputs) {
        return Some(ClausesFault::TooLarge);
    }
    if !are_both_ordered(inputs, one, other) {
        return Some(ClausesFault::Unordered);
    }
    if !is_closed(inputs, one, &one.outputs) || !is_closed(inputs, other, &other.outputs) {
        return Some(ClausesFault::OutOfRange);
    }
    None
}

/// Returns why there are no formulas of a machine and an invariant.
pub(crate) fn safe_cause(machine: &Circuit, invariant: &Circuit) -> Option<ClausesFault>
    ensures { result ≡ safe_cause machine.now invariant.now }
{
    if bad_outputs(machine).is_empty() {
        return Some(ClausesFault::NothingBad);
    }
    if !is_invariant(invariant) {
        return Some(ClausesFault::NoInvariant);
    }
    let (inputs, latches) = (machine.inputs as usize, machine.latches.len());
    let (own, others) = (machine.gates.len(), invariant.gates.len());
    if !are_few(Var::MAX_COUNT / 2, inputs, latches, own, others) {
        return Some(ClausesFault::TooLarge);
    }
    let states = inputs + latches;
    if invariant.inputs as usize != states {
        return Some(ClausesFault::OtherStates);
    }
    if !are_both_ordered(states, machine, invariant) {
        return Some(ClausesFault::Unordered);
    }
    if !is_machine(states, machine) || !is_closed(states, invariant, &invariant.outputs) {
        return Some(ClausesFault::OutOfRange);
    }
    None
}
