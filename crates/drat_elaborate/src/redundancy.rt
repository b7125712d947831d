//! The check that a clause is redundant by a witness (PR), of which RAT is a case.
use crate::arena::Block;
use crate::check::{After, Assumed, Check};
use crate::clauses::ClauseIndex;
use crate::fault::ElaborateFault;
use crate::local::LocalLit;
use crate::occurrences::Occurrences;
use crate::propagator::Propagator;
use crate::records::PackedHint;
use crate::trail::Value;
use std::alloc::Global;

/// Returns whether a clause is redundant by a witness, which has a literal of the clause: each
/// model of the live clauses becomes a model of the clause too when the witness is made true. The
/// negated literals of the clause are assumed and propagated without a conflict. The hints are left
/// in the check.
///
/// The clause is checked against the live used clauses that have the negation of a literal of the
/// witness, including those that the check itself uses first. If the witness is the pivot alone,
/// these are the RAT candidates.
pub(crate) fn is_redundant(
    alloc: Global,
    propagator: &mut Propagator,
    check: &mut Check,
    occurrences: &mut Occurrences,
    witness: &[LocalLit],
) -> Result<bool, ElaborateFault> {
    let mut candidates = candidates(alloc, propagator, check, occurrences, witness)?;
    let mut seen = check.fresh.len();
    // Each clause is a candidate at most once.
    for next in 0..propagator.clauses.len().saturating_add(1) {
        if next >= candidates.len() {
            check.walk(propagator, 0, Assumed::Clause, After::Keep)?;
            add_fresh(propagator, check, seen, &mut candidates)?;
            seen = check.fresh.len();
        }
        let Some(candidate) = candidates.get(next).copied() else {
            check.explain_wanted(propagator)?;
            return Ok(true);
        };
        if !meet(propagator, check, candidate)? {
            return Ok(false);
        }
    }
    Err(ElaborateFault::Internal)
}

/// Returns the live used clauses that a witness touches, each once. The witness is left in the
/// check.
fn candidates(
    alloc: Global,
    propagator: &Propagator,
    check: &mut Check,
    occurrences: &mut Occurrences,
    witness: &[LocalLit],
) -> Result<Vec<ClauseIndex>, ElaborateFault> {
    let mut candidates = Vec::new(alloc);
    check.by_witness.clear()?;
    for lit in witness {
        // Those that a literal before touches are among them already.
        for found in occurrences.of(&propagator.clauses, !*lit)? {
            if !is_touched(propagator.clauses.lits(*found)?, check) {
                candidates.push(*found)?;
            }
        }
        check.by_witness.insert(*lit)?;
    }
    Ok(candidates)
}

/// Returns whether a clause has the negation of a literal of the witness.
fn is_touched(lits: &[LocalLit], check: &Check) -> bool {
    lits.iter().any(|lit| check.by_witness.contains(!*lit))
}

/// Returns whether a clause has a literal of the witness.
fn is_satisfied(lits: &[LocalLit], check: &Check) -> bool {
    lits.iter().any(|lit| check.by_witness.contains(*lit))
}

/// Adds the clauses that the witness touches and that were used first since.
fn add_fresh(
    propagator: &Propagator,
    check: &Check,
    seen: usize,
    candidates: &mut Vec<ClauseIndex>,
) -> Result<(), ElaborateFault> {
    for fresh in check.fresh.iter().skip(seen) {
        if is_touched(propagator.clauses.lits(*fresh)?, check) {
            candidates.push(*fresh)?;
        }
    }
    Ok(())
}

/// Returns whether a candidate stays true when the witness is made true: it has a literal of the
/// witness, or the rest of it, without the literals that the witness falsifies, follows. Its hints
/// are added, none if it has such a literal.
fn meet(
    propagator: &mut Propagator,
    check: &mut Check,
    candidate: ClauseIndex,
) -> Result<bool, ElaborateFault> {
    check.groups.push(PackedHint::against(candidate))?;
    if is_satisfied(propagator.clauses.lits(candidate)?, check) {
        return Ok(true);
    }
    if let Some(lit) = best_true(propagator, check, candidate)? {
        if !check.by_clause.contains(lit) {
            check.want(propagator, lit)?;
        }
        return Ok(true);
    }
    let end = propagator.trail.len();
    assume_negated(propagator, check, candidate)?;
    let conflict = propagator.propagate(end)?;
    if let Some(conflict) = conflict {
        check.explain_group(propagator, conflict, end)?;
    }
    propagator.trail.cut(end);
    Ok(conflict.is_some())
}

/// Returns a true literal of a candidate that the witness does not falsify: an assumed one if there
/// is one, else the one that has been true longest.
fn best_true(
    propagator: &Propagator,
    check: &Check,
    candidate: ClauseIndex,
) -> Result<Option<LocalLit>, ElaborateFault> {
    let mut best = None;
    for lit in propagator.clauses.lits(candidate)? {
        if check.by_witness.contains(!*lit) || propagator.trail.value(*lit) != Value::True {
            continue;
        }
        if check.by_clause.contains(*lit) {
            return Ok(Some(*lit));
        }
        let is_better = match best {
            None => true,
            Some(best) => propagator.trail.rank(*lit) > propagator.trail.rank(best),
        };
        if is_better {
            best = Some(*lit);
        }
    }
    Ok(best)
}

/// Assumes the negated literals of a candidate that the witness does not falsify.
fn assume_negated(
    propagator: &mut Propagator,
    check: &mut Check,
    candidate: ClauseIndex,
) -> Result<(), ElaborateFault> {
    check.by_group.clear()?;
    for lit in propagator.clauses.lits(candidate)? {
        if check.by_witness.contains(!*lit) {
            continue;
        }
        check.by_group.insert(!*lit)?;
        if propagator.trail.value(*lit) == Value::Free {
            propagator.trail.assign(!*lit, Block::none())?;
        }
    }
    Ok(())
}
