//! The formula of two circuits that are the same.
ghost use Rattle.std.specs.Prelude.{◌≡◌, ◌≤◌, ◌+◌, ◌^◌, [], ◌∷◌, ◌++◌, length, true, None, IfErr, IfOk, OnOk};
ghost use Rattle.sat_rules.specs.Clauses.{negate};
ghost use Rattle.circuit_clauses.specs.Causes.{IsCause, same_cause};
ghost use Rattle.circuit_clauses.specs.Formulas.{HasSame};
ghost use Rattle.circuit_rules.specs.Checks.{difference_clauses, differences, lits_below};

use crate::causes::same_cause;
use crate::fault::ClausesFault;
use crate::gates::{add_circuit, add_moved};
use crate::places::Places;
use circuit_text::Circuit;
use sat_formula::{CnfFormula, Lit};
use std::alloc::{AllocError, Global};

/// Returns the clauses of two circuits over the same inputs and of the differences between their
/// outputs, and the clause that some outputs differ.
///
/// # Errors
///
/// The first that applies: `OtherInputs` and `OtherOutputs` if the circuits have different shapes,
/// `NoOutputs` if they have none, `TooLarge`, `Unordered` and `OutOfRange` if a gate or an output
/// of one of them reads what is not there, and `OutOfMemory`.
pub fn same_formula(
    alloc: Global,
    one: &Circuit,
    other: &Circuit,
) -> Result<CnfFormula, ClausesFault>
    ensures formula { IfOk result (HasSame one.now other.now) }
    ensures none { IfOk result (λ formula. same_cause one.now other.now ≡ None) }
    ensures fault { IfErr result (IsCause (same_cause one.now other.now)) }
{
    if let Some(fault) = same_cause(one, other) {
        return Err(fault);
    }
    let places = Places::of(one, other);
    let mut formula = CnfFormula::new(alloc);
    let mut differ = Vec::new(alloc);
    add_circuit(&mut formula, &one.gates)?;
    add_moved(&mut formula, places.shift, &other.gates)?;
    add_differences(
        &mut formula,
        &places,
        &one.outputs,
        &other.outputs,
        &mut differ,
    )?;
    formula.add_clause(&differ)?;
    Ok(formula)
}

/// Adds the clauses of the differences between outputs, and the literals of the differences to a
/// clause.
fn add_differences(
    formula: &mut CnfFormula,
    places: &Places,
    outputs: &[Lit],
    others: &[Lit],
    differ: &mut Vec<Lit>,
) -> Result<(), AllocError>
    requires as_many { length outputs.now ≡ length others.now }
    requires fit { places.now.differences + length outputs.now ≤ 2 ^ 28 }
    requires others_fit { lits_below places.now.shift.distance (2 ^ 28) others.now ≡ true }
    requires empty { differ.old.items ≡ [] }
    ensures clauses { OnOk result (formula.new ≡ formula.old
        ++ difference_clauses places.now.shift.inputs places.now.shift.distance
        places.now.differences outputs.now others.now) }
    ensures differ { OnOk result (differ.new.items ≡ differences places.now.differences outputs.now) }
{
    for index in 0..outputs.len() {
        let difference = places.difference(index);
        let other = places.shift.moved(others[index]);
        add_difference(formula, difference, outputs[index], other)?;
        add_literal(differ, difference)?;
    }
    Ok(())
}

/// Adds the clauses by which a literal is true only if two literals differ.
#[tactic(auto, using(crate::proofs::ClauseLemmas::two_more))]
fn add_difference(
    formula: &mut CnfFormula,
    difference: Lit,
    one: Lit,
    other: Lit,
) -> Result<(), AllocError>
    ensures { OnOk result (formula.new ≡ formula.old ++ (negate difference ∷ one ∷ other ∷ [])
        ∷ (negate difference ∷ negate one ∷ negate other ∷ []) ∷ []) }
{
    formula.add_clause(&[!difference, one, other])?;
    formula.add_clause(&[!difference, !one, !other])?;
    Ok(())
}

/// Adds a literal to a clause.
fn add_literal(clause: &mut Vec<Lit>, lit: Lit) -> Result<(), AllocError>
    ensures { OnOk result (clause.new.items ≡ clause.old.items ++ lit ∷ []) }
{
    clause.push(lit)?;
    Ok(())
}
