//! Circuits whose inputs and outputs are in the order of another one's.
ghost use Rattle.std.specs.Prelude.{◌≡◌, ◌<◌, ◌-◌, ◌^◌, ℕ, length, map, slice_index, IfOk};
ghost use Rattle.circuit_names.specs.Pairs.{arranged, input_lit, renamed, renamed_gate};
ghost use Rattle.circuit_text.specs.Circuits.{circuit_of, gate_of};

use circuit_text::{Circuit, Gate};
use sat_formula::Lit;
use std::alloc::{AllocError, Global};

/// Returns a circuit whose inputs are those at these places of another one, and whose outputs are
/// its own at these places.
pub(crate) fn arranged(
    alloc: Global,
    circuit: Circuit,
    inputs: &[usize],
    outputs: &[usize],
) -> Result<Circuit, AllocError>
    requires inputs { (p : ℕ) → p < length inputs.now → slice_index inputs.now p < 2 ^ 28 - 1 }
    requires outputs { (p : ℕ) → p < length outputs.now
        → slice_index outputs.now p < length circuit.outputs.items }
    ensures { IfOk result (λ made. circuit_of made
        ≡ arranged inputs.now outputs.now (circuit_of circuit)) }
{
    let lits = input_lits(alloc, inputs)?;
    let gates = renamed_gates(alloc, &lits, &circuit.gates)?;
    let outputs = renamed_outputs(alloc, &lits, &circuit.outputs, outputs)?;
    let mut circuit = circuit;
    circuit.gates = gates;
    circuit.outputs = outputs;
    Ok(circuit)
}

/// Returns the literals of the inputs at these places.
fn input_lits(alloc: Global, places: &[usize]) -> Result<Vec<Lit>, AllocError>
    requires { (p : ℕ) → p < length places.now → slice_index places.now p < 2 ^ 28 - 1 }
    ensures { IfOk result (λ lits. lits.items ≡ map input_lit places.now) }
{
    let mut lits = Vec::new(alloc);
    for place in places {
        let Some(lit) = Lit::from_code(2 * (*place + 1)) else {
            unreachable!();
        };
        lits.push(lit)?;
    }
    Ok(lits)
}

/// Returns the gates over other inputs.
fn renamed_gates(alloc: Global, inputs: &[Lit], gates: &[Gate]) -> Result<Vec<Gate>, AllocError>
    ensures { IfOk result (λ made. map gate_of made.items
        ≡ map (renamed_gate inputs.now) (map gate_of gates.now)) }
{
    let mut made = Vec::new(alloc);
    for gate in gates {
        made.push(renamed_gate(inputs, *gate))?;
    }
    Ok(made)
}

/// Returns the outputs at these places, over other inputs.
fn renamed_outputs(
    alloc: Global,
    inputs: &[Lit],
    outputs: &[Lit],
    places: &[usize],
) -> Result<Vec<Lit>, AllocError>
    requires { (p : ℕ) → p < length places.now → slice_index places.now p < length outputs.now }
    ensures { IfOk result (λ made. made.items
        ≡ map (λ place. renamed inputs.now (slice_index outputs.now place)) places.now) }
{
    let mut made = Vec::new(alloc);
    for place in places {
        made.push(renamed(inputs, outputs[*place]))?;
    }
    Ok(made)
}

/// Returns a gate over other inputs.
fn renamed_gate(inputs: &[Lit], gate: Gate) -> Gate
    ensures { gate_of result ≡ renamed_gate inputs.now (gate_of gate) }
{
    Gate {
        output: gate.output,
        left: renamed(inputs, gate.left),
        right: renamed(inputs, gate.right),
    }
}

/// Returns a literal, which has become that of the list, if it is of an input.
fn renamed(inputs: &[Lit], lit: Lit) -> Lit
    ensures { result ≡ renamed inputs.now lit }
{
    let index = lit.index();
    if index == 0 || index > inputs.len() {
        return lit;
    }
    let to = inputs[index - 1];
    if lit.is_negative() { !to } else { to }
}
