//! Why there is no verdict on an answer or a stimulus.
ghost use Rattle.std.specs.Prelude.{◌≡◌};
ghost use Rattle.circuit_answers.specs.Causes.{different_cause, possible_cause, reach_cause};

use crate::starts::are_placed;
use circuit_clauses::ClausesFault;
use circuit_text::Circuit;
use sat_formula::Var;

/// Returns why there is no verdict on an answer to the formula of one circuit.
pub(crate) fn possible_cause(circuit: &Circuit) -> Option<ClausesFault>
    ensures { result ≡ possible_cause circuit.now }
{
    if circuit.outputs.is_empty() {
        return Some(ClausesFault::NoOutputs);
    }
    if circuit.inputs as usize >= Var::MAX_COUNT {
        return Some(ClausesFault::TooLarge);
    }
    None
}

/// Returns why there is no verdict on an answer to the formula of two circuits.
pub(crate) fn different_cause(one: &Circuit, other: &Circuit) -> Option<ClausesFault>
    ensures { result ≡ different_cause one.now other.now }
{
    if one.inputs != other.inputs {
        return Some(ClausesFault::OtherInputs);
    }
    if one.outputs.len() != other.outputs.len() {
        return Some(ClausesFault::OtherOutputs);
    }
    possible_cause(one)
}

/// Returns why there is no verdict on a stimulus.
pub(crate) fn reach_cause(machine: &Circuit) -> Option<ClausesFault>
    ensures { result ≡ reach_cause machine.now }
{
    if !are_placed(machine.inputs as usize + 1, &machine.latches) {
        return Some(ClausesFault::OutOfRange);
    }
    None
}
