//! The clauses that say that some claim fails.
ghost use Rattle.std.specs.Prelude.{◌≡◌, ◌≢◌, ◌*◌, ◌+◌, ◌^◌, ◌<◌, ◌++◌, ℕ, length, IfErr, OnOk};
ghost use Rattle.refutation_rules.specs.Follows.{follow_clauses, selector_clauses};
ghost use Rattle.follows_check.specs.Questions.{asks, first_free};

use crate::fault::QuestionFault;
use sat_formula::{CnfFormula, Lit, Var};
use std::alloc::{AllocError, Global};

/// Adds to a formula the clauses of "some claim fails". Each claim has a variable, its selector,
/// that is in neither: if it is true, no literal of the claim is. And some selector is true.
///
/// # Errors
///
/// `ManyVariables` if there is no variable left for a selector, or `OutOfMemory`; the formula is
/// unspecified then.
pub(crate) fn add_failing(
    alloc: Global,
    formula: &mut CnfFormula,
    claims: &CnfFormula,
) -> Result<(), QuestionFault>
    ensures asked { OnOk result (asks formula.old claims.now formula.new) }
    ensures fault { IfErr result (λ fault. fault ≢ QuestionFault.OutOfMemory
        → (fault ≡ QuestionFault.ManyVariables)
        × (2 ^ 28 < first_free formula.old claims.now + length claims.now)) }
{
    let mut selectors = Vec::new(alloc);
    let mut index = formula.var_count().max(claims.var_count());
    for claim in claims {
        let Some(variable) = Var::from_index(index) else {
            return Err(QuestionFault::ManyVariables);
        };
        let selector = variable.lit(true);
        add_selector(formula, selector, claim)?;
        selectors.push(selector)?;
        index += 1;
    }
    formula.add_clause(&selectors)?;
    Ok(())
}

/// Adds that no literal of a claim is true if its selector is. After an error some of the clauses
/// are added.
fn add_selector(formula: &mut CnfFormula, selector: Lit, claim: &[Lit]) -> Result<(), AllocError>
    ensures { OnOk result ((x : ℕ) → selector ≡ 2 * x
        → formula.new ≡ formula.old ++ selector_clauses x claim.now) }
{
    for lit in claim {
        formula.add_clause(&[!selector, !*lit])?;
    }
    Ok(())
}
