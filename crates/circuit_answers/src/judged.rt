//! What the input of an answer shows of circuits.
ghost use Rattle.std.specs.Prelude.{◌≡◌, ◌↔◌, None, IsTrue, IfErr, IfOk};
ghost use Rattle.answer_text.specs.Literals.{has_lit};
ghost use Rattle.circuit_answers.specs.Answers.{IsDifferentJudged, IsNotVerified, IsPossibleJudged, is_any};
ghost use Rattle.circuit_answers.specs.Causes.{different_cause, possible_cause};
ghost use Rattle.circuit_answers.specs.Simulations.{outputs_for};
ghost use Rattle.circuit_clauses.specs.Causes.{IsCause};

use crate::causes::{different_cause, possible_cause};
use crate::input::read_input;
use crate::lines::{different_text, open_text, possible_text};
use crate::simulation::Simulation;
use answer_text::Literals;
use circuit_clauses::ClausesFault;
use circuit_text::Circuit;
use std::alloc::{AllocError, Global};
use verdicts::Verdict;

/// The verdict on an answer.
#[derive(Drop)]
pub struct Judged {
    /// `Verified` if the answer shows the claim.
    pub verdict: Verdict,
    /// The line of the verdict. If it is `Verified`, a line of the input's values follows, and one
    /// of the outputs of each circuit.
    pub text: Vec<u8>,
}

/// Judges whether a circuit has a true output for the input that an answer lists. An input is true
/// if its positive literal is listed.
///
/// # Errors
///
/// The first that applies: `NoOutputs` if the circuit has none, `TooLarge` if there is no literal
/// for an input, and `OutOfMemory`.
pub fn judge_possible(
    alloc: Global,
    circuit: &Circuit,
    literals: &Literals,
) -> Result<Judged, ClausesFault>
    ensures judged { IfOk result (λ judged. IsPossibleJudged (has_lit literals.now) circuit.now
        judged.verdict judged.text.items) }
    ensures none { IfOk result (λ judged. possible_cause circuit.now ≡ None) }
    ensures fault { IfErr result (IsCause (possible_cause circuit.now)) }
{
    if let Some(fault) = possible_cause(circuit) {
        return Err(fault);
    }
    let input = read_input(alloc, literals, circuit.inputs)?;
    let outputs = outputs_for(alloc, circuit, &input)?;
    if !is_any(&outputs) {
        return Ok(not_verified(alloc)?);
    }
    let text = possible_text(alloc, &input, &outputs)?;
    Ok(Judged {
        verdict: Verdict::Verified,
        text,
    })
}

/// Judges whether two circuits have different outputs for the input that an answer lists. An input
/// is true if its positive literal is listed.
///
/// # Errors
///
/// The first that applies: `OtherInputs` and `OtherOutputs` if the circuits have different shapes,
/// `NoOutputs` if they have none, `TooLarge` if there is no literal for an input, and
/// `OutOfMemory`.
pub fn judge_different(
    alloc: Global,
    one: &Circuit,
    other: &Circuit,
    literals: &Literals,
) -> Result<Judged, ClausesFault>
    ensures judged { IfOk result (λ judged. IsDifferentJudged (has_lit literals.now) one.now
        other.now judged.verdict judged.text.items) }
    ensures none { IfOk result (λ judged. different_cause one.now other.now ≡ None) }
    ensures fault { IfErr result (IsCause (different_cause one.now other.now)) }
{
    if let Some(fault) = different_cause(one, other) {
        return Err(fault);
    }
    let input = read_input(alloc, literals, one.inputs)?;
    let outputs = outputs_for(alloc, one, &input)?;
    let others = outputs_for(alloc, other, &input)?;
    if are_same(&outputs, &others) {
        return Ok(not_verified(alloc)?);
    }
    let text = different_text(alloc, &input, &outputs, &others)?;
    Ok(Judged {
        verdict: Verdict::Verified,
        text,
    })
}

/// Returns the verdict on an answer that shows nothing.
fn not_verified(alloc: Global) -> Result<Judged, AllocError>
    ensures { IfOk result IsNotVerified }
{
    let text = open_text(alloc)?;
    Ok(Judged {
        verdict: Verdict::NotVerified,
        text,
    })
}

/// Returns the outputs of a circuit for an input.
fn outputs_for(alloc: Global, circuit: &Circuit, input: &[bool]) -> Result<Vec<bool>, AllocError>
    ensures { IfOk result (λ outputs. outputs.items ≡ outputs_for input.now circuit.now) }
{
    let simulation = Simulation::run(alloc, input, &circuit.gates)?;
    simulation.values(alloc, &circuit.outputs)
}

/// Returns whether some value is true.
fn is_any(values: &[bool]) -> bool
    ensures { result ≡ is_any values.now }
{
    values.iter().any(|value| *value)
}

/// Returns whether the values are the same.
fn are_same(one: &[bool], other: &[bool]) -> bool
    ensures { IsTrue result ↔ (one.now ≡ other.now) }
{
    one == other
}
