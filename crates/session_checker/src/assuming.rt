//! Assumed literals, and the clauses and cores that they satisfy.
ghost use Rattle.std.specs.Prelude.{◌≡◌, OnOk};
ghost use Rattle.std.specs.List.{list_all, list_any};
ghost use Rattle.sat_rules.specs.Clauses.{negate};
ghost use Rattle.clause_table.specs.Values.{among};
ghost use Rattle.session_checker.specs.Rules.{listed};

use clause_table::Values;
use sat_formula::Lit;
use std::alloc::AllocError;

/// Makes these literals true and all others unassigned. After an error the values are unspecified.
pub(crate) fn set_alone(values: &mut Values, lits: &[Lit]) -> Result<(), AllocError>
    ensures { OnOk result (among values.new ≡ listed lits.now) }
{
    values.undo(0);
    for lit in lits {
        values.set(*lit)?;
    }
    Ok(())
}

/// Returns whether all of these literals are true.
pub(crate) fn are_true(values: &Values, lits: &[Lit]) -> bool
    ensures { result ≡ list_all (among values.now) lits.now }
{
    lits.iter().all(|lit| values.is_true(*lit))
}

/// Returns whether the negation of one of these literals is true.
pub(crate) fn are_opposite(values: &Values, lits: &[Lit]) -> bool
    ensures { result ≡ list_any (λ l. among values.now (negate l)) lits.now }
{
    lits.iter().any(|lit| values.is_true(!*lit))
}
