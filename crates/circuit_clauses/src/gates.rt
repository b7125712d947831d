//! The clauses of gates.
ghost use Rattle.std.specs.Prelude.{◌≡◌, [], ◌∷◌, ◌++◌, map, true, OnOk};
ghost use Rattle.circuit_clauses.specs.Causes.{gates_fit};
ghost use Rattle.circuit_rules.specs.Checks.{moved_gate};
ghost use Rattle.circuit_rules.specs.Circuits.{circuit_clauses, gate_clauses, gates_clauses, lit_of};
ghost use Rattle.sat_rules.specs.Clauses.{var_of};
ghost use Rattle.circuit_text.specs.Circuits.{gate_of};

use crate::shift::Shift;
use circuit_text::Gate;
use sat_formula::{CnfFormula, Lit};
use std::alloc::AllocError;

/// Adds the clauses of a circuit: the constant is false, and those of its gates.
pub(crate) fn add_circuit(formula: &mut CnfFormula, gates: &[Gate]) -> Result<(), AllocError>
    ensures { OnOk result (formula.new ≡ formula.old ++ circuit_clauses (map gate_of gates.now)) }
{
    let Some(constant) = Lit::from_code(1) else {
        unreachable!();
    };
    formula.add_clause(&[constant])?;
    for gate in gates {
        add_gate(formula, *gate)?;
    }
    Ok(())
}

/// Adds the clauses of gates that are further on.
pub(crate) fn add_moved(
    formula: &mut CnfFormula,
    shift: Shift,
    gates: &[Gate],
) -> Result<(), AllocError>
    requires { gates_fit shift.distance (map gate_of gates.now) ≡ true }
    ensures { OnOk result (formula.new ≡ formula.old
        ++ gates_clauses (map (moved_gate shift.inputs shift.distance) (map gate_of gates.now))) }
{
    for gate in gates {
        add_gate(formula, shift.moved_gate(*gate))?;
    }
    Ok(())
}

/// Adds the clauses of a gate: it implies each of its literals, and both together imply it.
#[tactic(auto, using(crate::proofs::ClauseLemmas::three_more))]
pub(crate) fn add_gate(formula: &mut CnfFormula, gate: Gate) -> Result<(), AllocError>
    ensures { OnOk result (formula.new ≡ formula.old ++ gate_clauses (gate_of gate)) }
{
    let output = positive(gate.output);
    formula.add_clause(&[!output, gate.left])?;
    formula.add_clause(&[!output, gate.right])?;
    formula.add_clause(&[output, !gate.left, !gate.right])?;
    Ok(())
}

/// Returns the positive literal of a literal's variable.
pub(crate) fn positive(lit: Lit) -> Lit
    ensures { result ≡ lit_of (var_of lit) }
{
    lit.var().lit(true)
}
