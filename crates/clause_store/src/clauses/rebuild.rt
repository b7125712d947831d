//! The buckets of all clauses, built anew.
ghost use Rattle.std.specs.Prelude.{◌≡◌, [], ◌<◌, ◌≤◌, ◌++◌, ℕ, All, List, IfOk, OnOk, map};
ghost use Rattle.checker_rules.specs.Buckets.{of_hash};
ghost use Rattle.checker_rules.specs.State.{Stored};
ghost use Rattle.clause_store.specs.Buckets.{AreWithin, clauses_at, clauses_of};
ghost use Rattle.clause_store.specs.Crowds.{standing};
ghost use Rattle.clause_store.specs.Lits.{IsWithin};
ghost use Rattle.clause_store.specs.StateOf.{hash_of};
ghost use Rattle.clause_store.specs.Store.{IsIndexed};
ghost use Rattle.clause_store.specs.View.{stored_in, stored_list, stored_of};

use crate::clauses::buckets::{Bucket, Buckets, push_clause};
use crate::clauses::{Clause, Clauses};
use crate::hash::ClauseHasher;
use sat_formula::lit::Lit;
use std::alloc::{AllocError, Global};
use std::collections::HashMap;

/// Appends the clauses of the slots that are not free to a list.
fn append_standing(all: &mut Vec<Clause>, places: &[Option<Clause>]) -> Result<(), AllocError>
    ensures { OnOk result (all.new.items ≡ all.old.items ++ standing places.now) }
{
    for place in places {
        let Some(clause) = place else {
            continue;
        };
        all.push(*clause)?;
    }
    Ok(())
}

/// Appends the clauses of a bucket to a list.
///
/// # Errors
///
/// `AllocError` if memory runs out.
pub fn append_bucket(all: &mut Vec<Clause>, bucket: &Bucket) -> Result<(), AllocError>
    ensures { OnOk result (all.new.items ≡ all.old.items ++ clauses_of bucket.now) }
{
    match bucket {
        Bucket::One(clause) => {
            all.push(*clause)?;
            Ok(())
        }
        Bucket::Many(crowd) => append_standing(all, &crowd.places),
    }
}

/// Returns all clauses of two or more literals, by rising ids.
///
/// # Errors
///
/// `AllocError` if memory runs out.
pub fn gather(alloc: Global, clauses: &Clauses) -> Result<Vec<Clause>, AllocError>
    ensures within { (h : ClauseHasher) (es : List Stored) → IsIndexed h clauses.now es
        → IfOk result (λ all. All (λ c. IsWithin c.lits clauses.now.literal_buffer.items) all.items) }
    ensures list { (h : ClauseHasher) (es : List Stored) → IsIndexed h clauses.now es
        → IfOk result (λ all. map (stored_of clauses.now.literal_buffer.items) all.items ≡ es) }
{
    let mut all = Vec::with_capacity(alloc, clauses.buckets.len())?;
    for bucket in clauses.buckets.values() {
        append_bucket(&mut all, bucket)?;
    }
    all.sort_unstable_by_key(|clause| clause.id);
    Ok(all)
}

/// Returns a table without clauses, with capacity for this many buckets.
///
/// # Errors
///
/// `AllocError` if memory runs out.
pub fn room_for(alloc: Global, count: usize) -> Result<Buckets, AllocError>
    ensures { IfOk result (λ m. (k : ℕ) → clauses_at m k ≡ []) }
{
    let buckets = HashMap::with_capacity(alloc, count)?;
    Ok(buckets)
}

/// Returns a table with each clause of a list in the bucket of its hash, after those before it.
///
/// # Errors
///
/// `AllocError` if memory runs out.
pub fn rebuild(
    alloc: Global,
    hasher: &ClauseHasher,
    all: &[Clause],
    buffer: &[Lit],
) -> Result<Buckets, AllocError>
    requires some_bits { 0 < hasher.now.hash_bits }
    requires bits { hasher.now.hash_bits ≤ 64 }
    requires within { All (λ c. IsWithin c.lits buffer.now) all.now }
    ensures buckets { IfOk result (λ m. (k : ℕ)
        → stored_in buffer.now m k ≡ of_hash (hash_of hasher.now) k
        (map (stored_of buffer.now) all.now)) }
    ensures within { IfOk result (λ m. AreWithin buffer.now m) }
{
    let mut buckets = room_for(alloc, all.len())?;
    for clause in all {
        let lits = clause.lits.slice(buffer);
        let hash = hasher.clause_hash(lits);
        push_clause(alloc, &mut buckets, hash, *clause, lits)?;
    }
    Ok(buckets)
}

/// Moves every clause to the bucket of its hash. Before, they were in those of other hashes.
///
/// # Errors
///
/// `AllocError` if memory runs out; the clauses are unspecified then.
pub fn rebuild_buckets(
    alloc: Global,
    hasher: &ClauseHasher,
    clauses: &mut Clauses,
) -> Result<(), AllocError>
    requires some_bits { 0 < hasher.now.hash_bits }
    requires bits { hasher.now.hash_bits ≤ 64 }
    requires filed { (h : ClauseHasher) × IsIndexed h clauses.old (stored_list clauses.old) }
    ensures filed { OnOk result (IsIndexed hasher.now clauses.new (stored_list clauses.new)) }
    ensures list { OnOk result (stored_list clauses.new ≡ stored_list clauses.old) }
    ensures others { OnOk result (clauses.new
        ≡ record clauses.old { buckets = clauses.new.buckets }) }
{
    let all = gather(alloc, clauses)?;
    // The old table is dropped before the new one is made, so that both are never in memory.
    clauses.buckets = HashMap::new(alloc);
    clauses.buckets = rebuild(alloc, hasher, &all, &clauses.literal_buffer)?;
    Ok(())
}
