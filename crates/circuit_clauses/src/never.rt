//! The formula of a circuit that is never true.
ghost use Rattle.std.specs.Prelude.{◌≡◌, None, IfErr, IfOk};
ghost use Rattle.circuit_clauses.specs.Causes.{IsCause, never_cause};
ghost use Rattle.circuit_clauses.specs.Formulas.{HasNever};

use crate::causes::never_cause;
use crate::fault::ClausesFault;
use crate::gates::add_circuit;
use circuit_text::Circuit;
use sat_formula::CnfFormula;
use std::alloc::Global;

/// Returns the clauses of the gates, and the clause that some output is true.
///
/// # Errors
///
/// The first that applies: `NoOutputs`, `Unordered` if a gate reads itself or a later gate, or has
/// the variable of an input, and `OutOfMemory`.
pub fn never_formula(alloc: Global, circuit: &Circuit) -> Result<CnfFormula, ClausesFault>
    ensures formula { IfOk result (HasNever circuit.now) }
    ensures none { IfOk result (λ formula. never_cause circuit.now ≡ None) }
    ensures fault { IfErr result (IsCause (never_cause circuit.now)) }
{
    if let Some(fault) = never_cause(circuit) {
        return Err(fault);
    }
    let mut formula = CnfFormula::new(alloc);
    add_circuit(&mut formula, &circuit.gates)?;
    formula.add_clause(&circuit.outputs)?;
    Ok(formula)
}
