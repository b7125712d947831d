//! The stored clauses by their hashes.
ghost use Rattle.std.specs.Prelude.{◌≡◌, ◌<◌, ◌≤◌, ◌++◌, ◌∷◌, [], ℕ, Some, true, All, IfOk, OnOk, OnErr, if◌then◌else◌, map};
ghost use Rattle.std.specs.Option.{SomeIff};
ghost use Rattle.checker_rules.specs.Store.{count_limit, count_of as count_in, raise as raise_in_list};
ghost use Rattle.checker_rules.specs.WellFormed.{are_apart};
ghost use Rattle.clause_store.specs.Lits.{IsWithin};
ghost use Rattle.clause_store.specs.Edits.{IsRaised};
ghost use Rattle.clause_store.specs.Buckets.{clauses_at, clauses_of, copies_of, is_of, raised};
ghost use Rattle.clause_store.specs.Found.{found_in};
ghost use Rattle.clause_store.specs.View.{stored_in, stored_of};

use crate::clauses::Clause;
use crate::clauses::crowd::Crowd;
use proof_bytes::hash::ClauseHash;
use sat_formula::lit::Lit;
use std::alloc::{AllocError, Global};
use std::collections::HashMap;
use std::collections::hash_map::Entry;

/// The clauses of one hash, by rising ids.
#[derive(Drop)]
pub enum Bucket {
    /// Almost every bucket has one clause.
    One(Clause),
    Many(Box<Crowd>),
}

/// The clauses of two or more literals, by the hash.
pub type Buckets = HashMap<ClauseHash, Bucket>;

/// No further copy can be counted.
#[derive(Clone, Copy, Debug)]
pub struct CountExhausted;

/// Returns whether the clause has these literals.
pub fn has_lits(clause: &Clause, buffer: &[Lit], lits: &[Lit]) -> bool
    requires { IsWithin clause.now.lits buffer.now }
    ensures { result ≡ is_of buffer.now lits.now clause.now }
{
    clause.lits.slice(buffer) == lits
}

/// Returns how many copies of the kind are counted.
pub fn copies_of(clause: &Clause, redundant: bool) -> u32
    ensures { result ≡ copies_of redundant clause.now }
{
    if redundant {
        clause.redundant
    } else {
        clause.irredundant
    }
}

/// Returns how many copies of the kind there are of the clause that is alone in its bucket, if it
/// has these literals.
fn copies_of_one(clause: &Clause, buffer: &[Lit], lits: &[Lit], redundant: bool) -> u32
    requires { IsWithin clause.now.lits buffer.now }
    ensures { result ≡ count_in redundant lits.now (stored_of buffer.now clause.now ∷ []) }
{
    if has_lits(clause, buffer, lits) {
        copies_of(clause, redundant)
    } else {
        0
    }
}

/// Returns how many copies of the kind there are of the clause with these literals.
pub(crate) fn copies_in(
    buckets: &Buckets,
    buffer: &[Lit],
    hash: ClauseHash,
    lits: &[Lit],
    redundant: bool,
) -> u32
    requires within { All (λ c. IsWithin c.lits buffer.now) (clauses_at buckets.now hash) }
    requires apart { are_apart (stored_in buffer.now buckets.now hash) ≡ true }
    ensures { result ≡ count_in redundant lits.now (stored_in buffer.now buckets.now hash) }
{
    match buckets.get(&hash) {
        Some(Bucket::One(clause)) => copies_of_one(clause, buffer, lits, redundant),
        Some(Bucket::Many(crowd)) => crowd.copies(buffer, lits, redundant),
        None => 0,
    }
}

/// Puts a clause with these literals at the end of a bucket.
fn push_in(
    alloc: Global,
    bucket: &mut Bucket,
    clause: Clause,
    lits: &[Lit],
) -> Result<(), AllocError>
    ensures { OnOk result (clauses_of bucket.new ≡ clauses_of bucket.old ++ clause ∷ []) }
{
    match bucket {
        Bucket::One(first) => {
            let crowd = Crowd::of_two(alloc, *first, clause)?;
            *bucket = Bucket::Many(Box::new(alloc, crowd)?);
            Ok(())
        }
        Bucket::Many(crowd) => crowd.push(clause, lits),
    }
}

/// Appends a clause with these literals to its bucket.
///
/// # Errors
///
/// `AllocError` if memory runs out; the buckets are unspecified then.
pub fn push_clause(
    alloc: Global,
    buckets: &mut Buckets,
    hash: ClauseHash,
    clause: Clause,
    lits: &[Lit],
) -> Result<(), AllocError>
    ensures pushed { OnOk result (clauses_at buckets.new hash ≡ clauses_at buckets.old hash ++
        clause ∷ []) }
    ensures others { OnOk result ((k : ℕ) → (k ≡ hash → ⊥)
        → clauses_at buckets.new k ≡ clauses_at buckets.old k) }
{
    match buckets.entry(hash)? {
        Entry::Occupied(entry) => push_in(alloc, entry.into_mut(), clause, lits),
        Entry::Vacant(entry) => {
            entry.insert(Bucket::One(clause));
            Ok(())
        }
    }
}

/// Returns the clause with this many copies of the kind.
pub fn with_copies(clause: &Clause, redundant: bool, copies: u32) -> Clause
    ensures { result ≡ (if redundant then record clause.now { redundant = copies }
        else record clause.now { irredundant = copies }) }
{
    if redundant {
        Clause {
            redundant: copies,
            ..*clause
        }
    } else {
        Clause {
            irredundant: copies,
            ..*clause
        }
    }
}

/// Returns the clause with one copy more.
#[tactic(auto, unfolding(checker_rules::specs::Store::count_limit))]
pub fn raise(clause: &Clause, redundant: bool) -> Option<Clause>
    ensures { SomeIff result (copies_of redundant clause.now < count_limit)
        (raised redundant clause.now) }
{
    let copies = copies_of(clause, redundant).checked_add(1)?;
    Some(with_copies(clause, redundant, copies))
}

/// Counts one copy more of the clause that is alone in its bucket, if it has these literals.
fn raise_one(
    clause: &mut Clause,
    buffer: &[Lit],
    lits: &[Lit],
    redundant: bool,
) -> Result<Option<(u64, u32)>, CountExhausted>
    requires { IsWithin clause.old.lits buffer.now }
    ensures found { IfOk result (λ found. found
        ≡ found_in lits.now (stored_of buffer.now clause.old ∷ [])) }
    ensures raised { OnOk result (stored_of buffer.now clause.new
        ≡ raise_in_list redundant lits.now (stored_of buffer.now clause.old)) }
    ensures within { IsWithin clause.new.lits buffer.now }
    ensures room { OnOk result (count_in redundant lits.now
        (stored_of buffer.now clause.old ∷ []) < count_limit) }
    ensures exhausted { OnErr result
        (count_limit ≤ count_in redundant lits.now (stored_of buffer.now clause.old ∷ [])) }
    ensures unchanged { OnErr result (clause.new ≡ clause.old) }
{
    if !has_lits(clause, buffer, lits) {
        return Ok(None);
    }
    match raise(clause, redundant) {
        Some(more) => {
            let found = (clause.id, clause.irredundant);
            *clause = more;
            Ok(Some(found))
        }
        None => Err(CountExhausted),
    }
}

/// Counts one copy more of the clause with these literals in its bucket.
fn raise_in(
    bucket: &mut Bucket,
    buffer: &[Lit],
    lits: &[Lit],
    redundant: bool,
) -> Result<Option<(u64, u32)>, CountExhausted>
    requires within { All (λ c. IsWithin c.lits buffer.now) (clauses_of bucket.old) }
    requires apart { are_apart (map (stored_of buffer.now) (clauses_of bucket.old)) ≡ true }
    ensures found { IfOk result (λ found. found
        ≡ found_in lits.now (map (stored_of buffer.now) (clauses_of bucket.old))) }
    ensures raised { OnOk result (map (stored_of buffer.now) (clauses_of bucket.new)
        ≡ map (raise_in_list redundant lits.now)
        (map (stored_of buffer.now) (clauses_of bucket.old))) }
    ensures within { All (λ c. IsWithin c.lits buffer.now) (clauses_of bucket.new) }
    ensures room { OnOk result (count_in redundant lits.now
        (map (stored_of buffer.now) (clauses_of bucket.old)) < count_limit) }
    ensures exhausted { OnErr result (count_limit ≤ count_in redundant lits.now
        (map (stored_of buffer.now) (clauses_of bucket.old))) }
    ensures unchanged { OnErr result (clauses_of bucket.new ≡ clauses_of bucket.old) }
{
    match bucket {
        Bucket::One(clause) => raise_one(clause, buffer, lits, redundant),
        Bucket::Many(crowd) => crowd.raise(buffer, lits, redundant),
    }
}

/// Counts one more copy of the clause with these literals. Returns its id and how many irredundant
/// copies there were, or `None` if the clause is not stored.
///
/// # Errors
///
/// `CountExhausted` if no further copy can be counted; the clauses are unchanged.
pub fn raise_clause(
    buckets: &mut Buckets,
    buffer: &[Lit],
    hash: ClauseHash,
    lits: &[Lit],
    redundant: bool,
) -> Result<Option<(u64, u32)>, CountExhausted>
    requires within { All (λ c. IsWithin c.lits buffer.now) (clauses_at buckets.old hash) }
    requires apart { are_apart (stored_in buffer.now buckets.old hash) ≡ true }
    ensures found { IfOk result (λ found. found
        ≡ found_in lits.now (stored_in buffer.now buckets.old hash)) }
    ensures room { OnOk result (count_in redundant lits.now
        (stored_in buffer.now buckets.old hash) < count_limit) }
    ensures raised { OnOk result (IsRaised buffer.now hash redundant lits.now buckets.old
        buckets.new) }
    ensures exhausted { OnErr result
        (count_limit ≤ count_in redundant lits.now (stored_in buffer.now buckets.old hash)) }
    ensures unchanged { OnErr result ((k : ℕ)
        → clauses_at buckets.new k ≡ clauses_at buckets.old k) }
{
    match buckets.get_mut(&hash) {
        Some(bucket) => raise_in(bucket, buffer, lits, redundant),
        None => Ok(None),
    }
}
