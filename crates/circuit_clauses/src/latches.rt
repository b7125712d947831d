//! The clauses of latches.
ghost use Rattle.std.specs.Prelude.{◌≡◌, ◌+◌, ◌<◌, ◌^◌, [], ◌∷◌, ◌++◌, map, true, OnOk};
ghost use Rattle.refutation_rules.specs.Cubes.{units_of};
ghost use Rattle.circuit_rules.specs.Safety.{reset_clause, reset_clauses, step_clauses};
ghost use Rattle.circuit_text.specs.Circuits.{latch_of};
ghost use Rattle.circuit_clauses.specs.Causes.{latches_fit};
ghost use Rattle.circuit_clauses.specs.Machines.{latch_clauses};

use crate::gates::positive;
use crate::shift::Shift;
use circuit_text::Latch;
use sat_formula::{CnfFormula, Lit};
use std::alloc::AllocError;

/// Adds the first values of latches.
pub(crate) fn add_resets(formula: &mut CnfFormula, latches: &[Latch]) -> Result<(), AllocError>
    ensures { OnOk result (formula.new ≡ formula.old
        ++ reset_clauses (map latch_of latches.now)) }
{
    for latch in latches {
        add_reset(formula, *latch)?;
    }
    Ok(())
}

/// Adds the first value of a latch, unless it is free.
#[tactic(auto, using(crate::proofs::MachineLemmas::nothing_more))]
fn add_reset(formula: &mut CnfFormula, latch: Latch) -> Result<(), AllocError>
    ensures { OnOk result (formula.new ≡ formula.old
        ++ reset_clause (latch_of latch).var latch.reset) }
{
    let output = positive(latch.output);
    match latch.reset {
        None => Ok(()),
        Some(true) => formula.add_clause(&[output]),
        Some(false) => formula.add_clause(&[!output]),
    }
}

/// Adds that the latches of the next step have the values of their next literals.
pub(crate) fn add_steps(
    formula: &mut CnfFormula,
    next: Shift,
    latches: &[Latch],
) -> Result<(), AllocError>
    requires { latches_fit next.distance (map latch_of latches.now) ≡ true }
    ensures { OnOk result (formula.new ≡ formula.old
        ++ step_clauses next.distance (map latch_of latches.now)) }
{
    for latch in latches {
        add_latch(formula, next, *latch)?;
    }
    Ok(())
}

/// Adds that a latch of the next step has the value of its next literal.
#[tactic(auto, using(crate::proofs::ClauseLemmas::two_more))]
fn add_latch(formula: &mut CnfFormula, next: Shift, latch: Latch) -> Result<(), AllocError>
    requires { (latch_of latch).var + next.distance < 2 ^ 28 }
    ensures { OnOk result (formula.new ≡ formula.old
        ++ latch_clauses next.distance (latch_of latch)) }
{
    let after = next.far(positive(latch.output));
    formula.add_clause(&[!after, latch.next])?;
    formula.add_clause(&[after, !latch.next])?;
    Ok(())
}

/// Adds that literals are true.
pub(crate) fn add_units(formula: &mut CnfFormula, lits: &[Lit]) -> Result<(), AllocError>
    ensures { OnOk result (formula.new ≡ formula.old ++ units_of lits.now) }
{
    for lit in lits {
        formula.add_clause(&[*lit])?;
    }
    Ok(())
}
