//! Collecting the garbage of the literal buffer.
ghost use Rattle.std.specs.Prelude.{◌≡◌, ◌+◌, ◌<◌, ◌≤◌, ◌++◌, ◌*◌, ◌^◌, ℕ, List, true, All, IfOk, OnOk, length, map};
ghost use Rattle.checker_rules.specs.LiveLiterals.{live_literals};
ghost use Rattle.clause_store.specs.Buckets.{AreWithin, clauses_of};
ghost use Rattle.clause_store.specs.Crowds.{standing};
ghost use Rattle.clause_store.specs.Edits.{KeepsRest};
ghost use Rattle.clause_store.specs.Lits.{IsWithin};
ghost use Rattle.clause_store.specs.Moved.{all_in_buffer, all_moved_to, all_used, walked};
ghost use Rattle.clause_store.specs.Store.{IsIndexed};
ghost use Rattle.clause_store.specs.View.{stored_in, stored_list, stored_of};

use crate::clauses::buckets::{Bucket, Buckets};
use crate::clauses::{Clause, Clauses};
use crate::hash::ClauseHasher;
use sat_formula::lit::Lit;
use std::alloc::{AllocError, Global};

/// If more than half of the literal buffer is garbage, all clauses move to a buffer without any.
// Each clause stays in its bucket, and `hasher` is read by the clauses of the contracts alone.
/// Moves all clauses to a buffer without garbage, if more than half of the literal buffer is
/// garbage.
///
/// # Errors
///
/// `AllocError` if memory runs out; the parts are unspecified then.
pub fn collect_garbage(
    alloc: Global,
    hasher: &ClauseHasher,
    clauses: &mut Clauses,
) -> Result<(), AllocError>
    requires { IsIndexed hasher.now clauses.old (stored_list clauses.old) }
    ensures filed { OnOk result (IsIndexed hasher.now clauses.new (stored_list clauses.old)) }
    ensures garbage { OnOk result (2 * clauses.new.garbage_size ≤
        length clauses.new.literal_buffer.items) }
    ensures rest { OnOk result (KeepsRest clauses.old clauses.new) }
    ensures counts { OnOk result (clauses.new.lit_counts ≡ clauses.old.lit_counts) }
{
    if clauses.garbage_size <= clauses.literal_buffer.len() / 2 {
        return Ok(());
    }
    collect(alloc, hasher, clauses)
}

/// All clauses move to a buffer without garbage.
#[inline(never)]
fn collect(alloc: Global, hasher: &ClauseHasher, clauses: &mut Clauses) -> Result<(), AllocError>
    requires { IsIndexed hasher.now clauses.old (stored_list clauses.old) }
    ensures filed { OnOk result (IsIndexed hasher.now clauses.new (stored_list clauses.old)) }
    ensures garbage { OnOk result (clauses.new.garbage_size ≡ 0) }
    ensures rest { OnOk result (KeepsRest clauses.old clauses.new) }
    ensures counts { OnOk result (clauses.new.lit_counts ≡ clauses.old.lit_counts) }
{
    let buffer = copy_lits(alloc, clauses)?;
    move_buckets(&mut clauses.buckets);
    clauses.literal_buffer = buffer;
    clauses.garbage_size = 0;
    Ok(())
}

/// Returns the literals that the clauses have in the buffer, one bucket's after the other's.
fn copy_lits(alloc: Global, clauses: &Clauses) -> Result<Vec<Lit>, AllocError>
    requires { (h : ClauseHasher) × IsIndexed h clauses.now (stored_list clauses.now) }
    ensures copied { IfOk result (λ new. new.items
        ≡ all_in_buffer clauses.now.literal_buffer.items (walked clauses.now.buckets)) }
    ensures used { IfOk result (λ new. length new.items
        ≡ live_literals (stored_list clauses.now)) }
    ensures count { IfOk result (λ new. length new.items
        ≡ all_used (walked clauses.now.buckets)) }
{
    let buffer = clauses.literal_buffer.as_slice();
    // more than half of the buffer is garbage
    let mut new = Vec::with_capacity(alloc, buffer.len() / 2)?;
    for bucket in clauses.buckets.values() {
        copy_bucket(bucket, buffer, &mut new)?;
    }
    Ok(new)
}

/// Puts the literals that a bucket's clauses have in the buffer after those of the new one.
fn copy_bucket(bucket: &Bucket, buffer: &[Lit], new: &mut Vec<Lit>) -> Result<(), AllocError>
    requires { All (λ c. IsWithin c.lits buffer.now) (clauses_of bucket.now) }
    ensures copied { OnOk result (new.new.items ≡ new.old.items ++
        all_in_buffer buffer.now (clauses_of bucket.now)) }
    ensures used { OnOk result (length new.new.items ≡ length new.old.items +
        live_literals (map (stored_of buffer.now) (clauses_of bucket.now))) }
{
    match bucket {
        Bucket::One(clause) => clause.lits.copy_to(buffer, new),
        Bucket::Many(crowd) => copy_places(&crowd.places, buffer, new),
    }
}

/// Appends the literals of a bucket's clauses that are in the buffer to the new one.
fn copy_places(
    places: &[Option<Clause>],
    buffer: &[Lit],
    new: &mut Vec<Lit>,
) -> Result<(), AllocError>
    requires { All (λ c. IsWithin c.lits buffer.now) (standing places.now) }
    ensures copied { OnOk result (new.new.items ≡ new.old.items ++
        all_in_buffer buffer.now (standing places.now)) }
    ensures used { OnOk result (length new.new.items ≡ length new.old.items +
        live_literals (map (stored_of buffer.now) (standing places.now))) }
{
    for place in places {
        let Some(clause) = place else {
            continue;
        };
        clause.lits.copy_to(buffer, new)?;
    }
    Ok(())
}

/// The clauses have the literals that `copy_lits` copies where it puts them.
fn move_buckets(buckets: &mut Buckets)
    requires { all_used (walked buckets.old) < 2 ^ 64 }
    ensures same { (buffer : List ℕ) (k : ℕ) → AreWithin buffer buckets.old
        → stored_in (all_in_buffer buffer (walked buckets.old)) buckets.new k
        ≡ stored_in buffer buckets.old k }
    ensures within { (buffer : List ℕ) → AreWithin buffer buckets.old
        → AreWithin (all_in_buffer buffer (walked buckets.old)) buckets.new }
{
    let mut at = 0;
    buckets.retain(
        move |_hash, bucket|
            requires { at + all_used (clauses_of bucket.now) < 2 ^ 64 }
            ensures stays { result ≡ true }
            ensures moved { clauses_of bucket.exit.now
                ≡ all_moved_to at.entry (clauses_of bucket.entry.now) }
            ensures end { at.exit ≡ at.entry + all_used (clauses_of bucket.entry.now) }
        {
            at = move_bucket(bucket, at);
            true
        },
    );
}

/// Makes the literals that a bucket's clauses have in the buffer those of another from `at` on.
/// Returns where they end there.
fn move_bucket(bucket: &mut Bucket, at: usize) -> usize
    requires { at + all_used (clauses_of bucket.old) < 2 ^ 64 }
    ensures moved { clauses_of bucket.new ≡ all_moved_to at (clauses_of bucket.old) }
    ensures end { result ≡ at + all_used (clauses_of bucket.old) }
{
    match bucket {
        Bucket::One(clause) => clause.lits.move_to(at),
        Bucket::Many(crowd) => move_places(&mut crowd.places, at),
    }
}

/// Makes the literals of a bucket's clauses follow each other from here on. The clauses stay in
/// their slots.
fn move_places(places: &mut [Option<Clause>], first: usize) -> usize
    requires { first + all_used (standing places.old) < 2 ^ 64 }
    ensures places { length places.new ≡ length places.old }
    ensures moved { standing places.new ≡ all_moved_to first (standing places.old) }
    ensures end { result ≡ first + all_used (standing places.old) }
{
    let mut at = first;
    for i in 0..places.len() {
        let Some(mut clause) = places[i] else {
            continue;
        };
        at = clause.lits.move_to(at);
        places[i] = Some(clause);
    }
    at
}
