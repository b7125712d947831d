//! Clauses in their slots, some of which are free.
ghost use Rattle.std.specs.Prelude.{◌≡◌, All, IfNone, IfSome, false, is_some, length, map, nat_lt};
ghost use Rattle.std.specs.List.{list_any};
ghost use Rattle.checker_rules.specs.Store.{is_stored};
ghost use Rattle.clause_store.specs.Crowds.{IsPlaced, standing};
ghost use Rattle.clause_store.specs.Lits.{IsWithin};
ghost use Rattle.clause_store.specs.View.{stored_of};
ghost use Rattle.clause_store.specs.declared.clauses.Clause.{Clause};

use crate::clauses::Clause;
use crate::clauses::buckets::has_lits;
use sat_formula::lit::Lit;

/// Returns whether a clause is in one of the slots.
pub fn some_stands(places: &[Option<Clause>]) -> bool
    ensures { result ≡ nat_lt 0 (length (standing places.now)) }
{
    is_some_taken(places)
}

/// Returns whether one of the slots is not free.
fn is_some_taken(places: &[Option<Clause>]) -> bool
    ensures { result ≡ list_any is_some places.now }
{
    places.iter().any(|place| place.is_some())
}

/// Returns the slot of the clause with these literals, and the clause. It looks in one slot after
/// the other.
pub fn search(places: &[Option<Clause>], buffer: &[Lit], lits: &[Lit]) -> Option<(usize, Clause)>
    requires { All (λ c. IsWithin c.lits buffer.now) (standing places.now) }
    ensures placed { IfSome result (λ p. IsPlaced buffer.now lits.now places.now p.0 p.1) }
    ensures missing { IfNone result (is_stored lits.now
        (map (stored_of buffer.now) (standing places.now)) ≡ false) }
{
    for at in 0..places.len() {
        let Some(clause) = places[at] else {
            continue;
        };
        if has_lits(&clause, buffer, lits) {
            return Some((at, clause));
        }
    }
    None
}

/// Returns the clause of a slot, if it has these literals, and the slot.
pub fn clause_at(
    places: &[Option<Clause>],
    at: usize,
    buffer: &[Lit],
    lits: &[Lit],
) -> Option<(usize, Clause)>
    requires { All (λ c. IsWithin c.lits buffer.now) (standing places.now) }
    ensures placed { IfSome result (λ p. IsPlaced buffer.now lits.now places.now p.0 p.1) }
    ensures at { IfSome result (λ p. p.0 ≡ at) }
    ensures missing { IfNone result ((d : Clause)
        → IsPlaced buffer.now lits.now places.now at d → ⊥) }
{
    if at >= places.len() {
        return None;
    }
    let Some(clause) = places[at] else {
        return None;
    };
    if has_lits(&clause, buffer, lits) {
        Some((at, clause))
    } else {
        None
    }
}
