//! The walk over the named clauses.
ghost use Rattle.std.specs.Prelude.{◌≡◌, [], All, IfOk, None, Some, false, if◌then◌else◌, length, map};
ghost use Rattle.sat_rules.specs.Clauses.{is_tautology};
ghost use Rattle.checker_rules.specs.Passes as rules;
ghost use Rattle.clause_store.specs.Buckets.{AreWithin, clauses_at};
ghost use Rattle.clause_store.specs.Crowds.{standing};
ghost use Rattle.clause_store.specs.Idle.{AreIdle, IsIdleRun, Lengthens, idle_at};
ghost use Rattle.clause_store.specs.Lits.{IsWithin, lits_of};
ghost use Rattle.clause_store.specs.Rup.{AreAllKnown, Walks, WalksFirst, check_answer, clause_answer, lits_at, lits_in, named_buckets, true_lits};
ghost use Rattle.clause_store.specs.StateOf.{stored_units};
ghost use Rattle.clause_store.specs.Trace.{AreStored, Lists, ListsFirst, named_clauses};
ghost use Rattle.clause_store.specs.Trail.{IsTrailFor, IsUndoable};
ghost use Rattle.clause_store.specs.Units.{AreKnown};
ghost use Rattle.clause_store.specs.View.{stored_in, stored_of};

use crate::clauses::Clause;
use crate::clauses::buckets::{Bucket, Buckets};
use crate::clauses::places::some_stands;
use crate::clauses::units::Units;
use crate::rup::Answer;
use crate::rup::idle::{IdleBuckets, LONG_BUCKET};
use crate::rup::walker::Walker;
use proof_bytes::hash::ClauseHash;
use sat_formula::lit::Lit;
use std::alloc::AllocError;

/// Visits the clauses of the slots in turn, and returns whether one is falsified.
fn visit_places<W: Walker>(
    units: &mut Units,
    walker: &mut W,
    places: &[Option<Clause>],
    buffer: &[Lit],
) -> Result<bool, AllocError>
    requires within { All (λ c. IsWithin c.lits buffer.now) (standing places.now) }
    requires known { All (λ c. AreKnown units.old (lits_of c.lits buffer.now))
        (standing places.now) }
    requires trail { IsTrailFor units.old (W.written walker.old) }
    ensures ok { IfOk result (Walks units.old (lits_in buffer.now (standing places.now))
        units.new) }
    ensures listed { IfOk result (Lists W.after (W.ids walker.old) units.old
        (map (stored_of buffer.now) (standing places.now)) (W.ids walker.new) units.new) }
    ensures lengthens { IfOk result (λ falsified. falsified ≡ false
        → Lengthens (W.ids walker.old) units.old (length (W.written walker.old))
        (W.ids walker.new) units.new (length (W.written walker.new))) }
    ensures undoable { IsUndoable units.old (W.written walker.old) units.new (W.written walker.new) }
{
    for place in places {
        let Some(clause) = place else {
            continue;
        };
        if walker.visit(units, clause, buffer)? {
            return Ok(true);
        }
    }
    Ok(false)
}

/// Visits the clauses of a hash that has several, unless they are many and known to be idle.
/// Returns what ends the walk there.
// The clauses of the contract alone read `buckets`.
fn visit_crowd<W: Walker>(
    units: &mut Units,
    walker: &mut W,
    idle: &mut IdleBuckets,
    places: &[Option<Clause>],
    buckets: &Buckets,
    buffer: &[Lit],
    hash: ClauseHash,
) -> Result<Option<Answer>, AllocError>
    requires is { clauses_at buckets.now hash ≡ standing places.now }
    requires within { AreWithin buffer.now buckets.now }
    requires known { AreAllKnown units.old buffer.now buckets.now }
    requires trail { IsTrailFor units.old (W.written walker.old) }
    requires idle { AreIdle (idle_at idle.old) (length (W.written walker.old))
        (λ h. IsIdleRun W.after (W.ids walker.old) units.old (stored_in buffer.now buckets.now h)) }
    ensures ok { let bucket = lits_at buffer.now buckets.now hash in
        IfOk result (WalksFirst units.old bucket units.new) }
    ensures listed { IfOk result (ListsFirst W.after (W.ids walker.old) units.old
        (stored_in buffer.now buckets.now hash) (W.ids walker.new) units.new) }
    ensures idle { IfOk result (λ end. end ≡ None
        → AreIdle (idle_at idle.new) (length (W.written walker.new))
        (λ h. IsIdleRun W.after (W.ids walker.new) units.new
        (stored_in buffer.now buckets.now h))) }
    ensures undoable { IsUndoable units.old (W.written walker.old) units.new (W.written walker.new) }
{
    if !some_stands(places) {
        return Ok(Some(Answer::NoClauseForHash));
    }
    let is_long = places.len() > LONG_BUCKET;
    let given = walker.trail_len();
    if is_long && idle.has(hash, given) {
        return Ok(None);
    }
    if visit_places(units, walker, places, buffer)? {
        return Ok(Some(Answer::Passed));
    }
    if is_long && walker.trail_len() == given {
        // Where an allocation fails it is walked again.
        let _refused = idle.add(hash, given);
    }
    Ok(None)
}

/// Returns what ends a walk in a bucket where a clause is falsified, or none is.
#[inline]
fn end_of(falsified: bool) -> Option<Answer>
    ensures { result ≡ (if falsified then Some Answer.Passed else None) }
{
    if falsified {
        Some(Answer::Passed)
    } else {
        None
    }
}

/// Visits the bucket of a hash. Returns what ends the walk there.
#[inline]
fn visit_named<W: Walker>(
    units: &mut Units,
    walker: &mut W,
    idle: &mut IdleBuckets,
    buckets: &Buckets,
    buffer: &[Lit],
    hash: ClauseHash,
) -> Result<Option<Answer>, AllocError>
    requires within { AreWithin buffer.now buckets.now }
    requires known { AreAllKnown units.old buffer.now buckets.now }
    requires trail { IsTrailFor units.old (W.written walker.old) }
    requires idle { AreIdle (idle_at idle.old) (length (W.written walker.old))
        (λ h. IsIdleRun W.after (W.ids walker.old) units.old (stored_in buffer.now buckets.now h)) }
    ensures ok { let bucket = lits_at buffer.now buckets.now hash in
        IfOk result (WalksFirst units.old bucket units.new) }
    ensures listed { IfOk result (ListsFirst W.after (W.ids walker.old) units.old
        (stored_in buffer.now buckets.now hash) (W.ids walker.new) units.new) }
    ensures idle { IfOk result (λ end. end ≡ None
        → AreIdle (idle_at idle.new) (length (W.written walker.new))
        (λ h. IsIdleRun W.after (W.ids walker.new) units.new
        (stored_in buffer.now buckets.now h))) }
    ensures undoable { IsUndoable units.old (W.written walker.old) units.new (W.written walker.new) }
{
    match buckets.get(&hash) {
        Some(Bucket::One(clause)) => Ok(end_of(walker.visit(units, clause, buffer)?)),
        Some(Bucket::Many(crowd)) => {
            visit_crowd(units, walker, idle, &crowd.places, buckets, buffer, hash)
        }
        None => Ok(Some(Answer::NoClauseForHash)),
    }
}

/// Visits the buckets of the hashes in turn, up to a falsified clause or a missing bucket.
fn walk_buckets<W: Walker>(
    units: &mut Units,
    walker: &mut W,
    idle: &mut IdleBuckets,
    buckets: &Buckets,
    buffer: &[Lit],
    hashes: &[ClauseHash],
) -> Result<Answer, AllocError>
    requires within { AreWithin buffer.now buckets.now }
    requires known { AreAllKnown units.old buffer.now buckets.now }
    requires trail { IsTrailFor units.old (W.written walker.old) }
    ensures ok { let named = named_buckets buffer.now buckets.now hashes.now in
        IfOk result (λ a. check_answer a ≡ rules.walk_buckets (true_lits units.old) named) }
    ensures listed { let named = named_clauses buffer.now buckets.now hashes.now in
        IfOk result (λ a. a ≡ Answer.Passed
        → W.after (W.ids walker.old) units.old named ≡ Some (W.ids walker.new)) }
    ensures undoable { IsUndoable units.old (W.written walker.old) units.new (W.written walker.new) }
{
    idle.forget();
    for hash in hashes {
        if let Some(answer) = visit_named(units, walker, idle, buckets, buffer, *hash)? {
            return Ok(answer);
        }
    }
    Ok(Answer::Failed)
}

/// Returns the walk with the literals taken as false, whose values stay. A true literal ends it
/// before.
fn walk_negated<W: Walker>(
    units: &mut Units,
    walker: &mut W,
    idle: &mut IdleBuckets,
    buckets: &Buckets,
    buffer: &[Lit],
    lits: &[Lit],
    hashes: &[ClauseHash],
) -> Result<Answer, AllocError>
    requires within { AreWithin buffer.now buckets.now }
    requires known { AreKnown units.old lits.now }
    requires all_known { AreAllKnown units.old buffer.now buckets.now }
    requires stored { AreStored units.old }
    requires no_tautology { is_tautology lits.now ≡ false }
    requires trail { IsTrailFor units.old (W.written walker.old) }
    requires ids { W.ids walker.old ≡ [] }
    ensures answer { let named = named_buckets buffer.now buckets.now hashes.now in
        IfOk result (λ a. check_answer a ≡ clause_answer (stored_units units.old) lits.now named) }
    ensures listed { let named = named_clauses buffer.now buckets.now hashes.now in
        IfOk result (λ a. a ≡ Answer.Passed
        → W.ids walker.new ≡ W.check_ids (stored_units units.old) lits.now named) }
    ensures undoable { IsUndoable units.old (W.written walker.old) units.new (W.written walker.new) }
{
    if walker.assume(units, lits)? {
        return Ok(Answer::Passed);
    }
    walk_buckets(units, walker, idle, buckets, buffer, hashes)
}

/// Returns the result of the check of a clause. The values are then what they were.
///
/// # Errors
///
/// `AllocError` if memory runs out.
pub fn check_with<W: Walker>(
    units: &mut Units,
    walker: &mut W,
    idle: &mut IdleBuckets,
    buckets: &Buckets,
    buffer: &[Lit],
    lits: &[Lit],
    hashes: &[ClauseHash],
) -> Result<Answer, AllocError>
    requires within { AreWithin buffer.now buckets.now }
    requires known { AreKnown units.old lits.now }
    requires all_known { AreAllKnown units.old buffer.now buckets.now }
    requires stored { AreStored units.old }
    requires no_tautology { is_tautology lits.now ≡ false }
    requires trail { W.written walker.old ≡ [] }
    requires ids { W.ids walker.old ≡ [] }
    ensures answer { let named = named_buckets buffer.now buckets.now hashes.now in
        IfOk result (λ a. check_answer a ≡ clause_answer (stored_units units.old) lits.now named) }
    ensures listed { let named = named_clauses buffer.now buckets.now hashes.now in
        IfOk result (λ a. a ≡ Answer.Passed
        → W.ids walker.new ≡ W.check_ids (stored_units units.old) lits.now named) }
    ensures units { units.new ≡ units.old }
    ensures trail { W.written walker.new ≡ [] }
{
    let answer = walk_negated(units, walker, idle, buckets, buffer, lits, hashes);
    walker.undo(units);
    answer
}
