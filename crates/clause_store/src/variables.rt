//! Making variables known to every part.
ghost use Rattle.std.specs.Prelude.{◌≡◌, ◌≤◌, ◌*◌, ◌↔◌, length, IsTrue, OnOk};
ghost use Rattle.checker_rules.specs.Canonical.{var_bound};
ghost use Rattle.clause_store.specs.declared.clauses.Clauses.{Clauses};
ghost use Rattle.clause_store.specs.Growth.{KnowsVars};

use crate::clauses::Clauses;
use crate::clauses::units::Units;
use checker_parts::variables::Variables;
use sat_formula::Lit;
use std::alloc::AllocError;

/// Makes the first `count` variables known, new ones unnamed and in mode `Sample`.
///
/// # Errors
///
/// `AllocError` if memory runs out; the parts are unspecified then.
pub fn ensure_vars(
    clauses: &mut Clauses,
    variables: &mut Variables,
    count: usize,
) -> Result<(), AllocError>
    requires { length clauses.old.unit_clauses ≡ length variables.old }
    ensures { OnOk result (KnowsVars count clauses.old variables.old clauses.new variables.new) }
{
    clauses.unit_clauses.know(count)?;
    clauses.lit_counts.know(count)?;
    variables.know(count)
}

/// Makes the variables of the literals known.
///
/// # Errors
///
/// `AllocError` if memory runs out; the parts are unspecified then.
#[inline(always)]
pub fn ensure_lits(
    clauses: &mut Clauses,
    variables: &mut Variables,
    lits: &[Lit],
) -> Result<(), AllocError>
    requires same { length clauses.old.unit_clauses ≡ length variables.old }
    requires counts { length clauses.old.lit_counts ≡ 2 * length clauses.old.unit_clauses }
    ensures { OnOk result (KnowsVars (var_bound lits.now) clauses.old variables.old
        clauses.new variables.new) }
{
    // Almost all clauses are of variables that are known.
    if are_known(&clauses.unit_clauses, lits) {
        Ok(())
    } else {
        ensure_vars(clauses, variables, var_bound(lits))
    }
}

/// Returns whether the variables of all the literals are known.
fn are_known(units: &Units, lits: &[Lit]) -> bool
    ensures { IsTrue result ↔ (var_bound lits.now ≤ length units.now) }
{
    let known = units.len();
    for lit in lits {
        if lit.index() >= known {
            return false;
        }
    }
    true
}

/// Returns how many variables must be known for the literals.
pub fn var_bound(lits: &[Lit]) -> usize
    ensures { result ≡ var_bound lits.now }
{
    let mut bound = 0;
    for lit in lits {
        bound = bound.max(lit.index() + 1);
    }
    bound
}
