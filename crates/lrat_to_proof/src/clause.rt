//! Canonical lists: of a tautology the variables don't rise.
ghost use Rattle.std.specs.Prelude.{◌≡◌, IsTrue};
ghost use Rattle.sat_rules.specs.Clauses.{is_canonical, is_tautology};
ghost use Rattle.lrat_to_proof.specs.Holding.{is_named};

use checker_parts::sorted_lits::has_rising_vars;
use sat_formula::Lit;

/// Returns whether a literal and its negation are in the list, as neighbours.
#[tactic(auto, using(crate::proofs::HoldingLemmas::not_rising))]
pub(crate) fn is_tautology(lits: &[Lit]) -> bool
    requires { IsTrue (is_canonical lits.now) }
    ensures { result ≡ is_tautology lits.now }
{
    !has_rising_vars(lits)
}

/// Returns whether a step can name the clause by its hash.
#[tactic(auto, using(crate::proofs::HoldingLemmas::not_rising))]
pub(crate) fn is_named(lits: &[Lit]) -> bool
    requires { IsTrue (is_canonical lits.now) }
    ensures { result ≡ is_named lits.now }
{
    lits.len() > 1 && has_rising_vars(lits)
}
