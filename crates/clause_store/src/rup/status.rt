//! What the values of its literals make of a clause.
ghost use Rattle.std.specs.Prelude.{◌≡◌, ◌<◌, ◌∷◌, false, length};
ghost use Rattle.std.specs.List.{list_all};
ghost use Rattle.sat_rules.specs.Clauses.{negate, var_of};
ghost use Rattle.clause_store.specs.Rup.{status_of, true_lits};
ghost use Rattle.clause_store.specs.Units.{AreKnown};

use crate::clauses::units::Units;
use sat_formula::lit::Lit;

/// What follows from a clause.
#[derive(Clone, Copy)]
pub enum ClauseStatus {
    /// All its literals are false.
    Falsified,
    /// This literal is free, and all others are false.
    Unit(Lit),
    /// Nothing follows: a literal is true, or two are free.
    Idle,
}

/// Returns the status of a clause under the units. Looks at each literal once, up to a true or a
/// second free one.
///
/// Most literals that a check looks at are false. They are passed over by one comparison each, in a
/// loop that does nothing else.
pub fn clause_status(units: &Units, lits: &[Lit]) -> ClauseStatus
    requires { AreKnown units.now lits.now }
    ensures { result ≡ status_of (true_lits units.now) lits.now }
{
    let values = units.values();
    let mut rest = lits;
    while let Some((lit, others)) = rest.split_first() {
        if !units.is_false_by(values, *lit) {
            return status_with(units, *lit, others);
        }
        rest = others;
    }
    ClauseStatus::Falsified
}

/// Returns what follows from a clause of a literal that is not false, and others.
#[inline(always)]
fn status_with(units: &Units, lit: Lit, others: &[Lit]) -> ClauseStatus
    requires known { var_of lit < length units.now }
    requires others_known { AreKnown units.now others.now }
    requires not_false { true_lits units.now (negate lit) ≡ false }
    ensures { result ≡ status_of (true_lits units.now) (lit ∷ others.now) }
{
    if units.known_lit_value(lit).is_some() || !are_false(units, others) {
        return ClauseStatus::Idle;
    }
    ClauseStatus::Unit(lit)
}

/// Returns whether all literals are false.
#[inline(always)]
fn are_false(units: &Units, lits: &[Lit]) -> bool
    requires { AreKnown units.now lits.now }
    ensures { result ≡ list_all (λ m. true_lits units.now (negate m)) lits.now }
{
    let values = units.values();
    for lit in lits {
        if !units.is_false_by(values, *lit) {
            return false;
        }
    }
    true
}
