//! Taking copies of clauses away.
ghost use Rattle.std.specs.Prelude.{◌≡◌, ◌<◌, ◌∷◌, [], ℕ, All, IfErr, IfOk, None, OnErr, OnOk, if◌then◌else◌, map, nat_eq, true};
ghost use Rattle.std.specs.HashMap.{get};
ghost use Rattle.std.specs.List.{list_all};
ghost use Rattle.std.specs.Option.{SomeIff};
ghost use Rattle.checker_rules.specs.WellFormed.{are_apart};
ghost use Rattle.clause_store.specs.Buckets.{clauses_at, clauses_of, copies_of};
ghost use Rattle.clause_store.specs.Lits.{IsWithin};
ghost use Rattle.clause_store.specs.Lowered.{IsLowered, IsLoweredIn, IsMissing, is_gone, left_of, lowered};
ghost use Rattle.clause_store.specs.Store.{is_whole};
ghost use Rattle.clause_store.specs.View.{stored_in, stored_of};

use crate::clauses::Clause;
use crate::clauses::buckets::{Bucket, Buckets, copies_of, has_lits, with_copies};
use proof_bytes::hash::ClauseHash;
use sat_formula::lit::Lit;
use std::collections::hash_map::Entry;

/// Why no copy was removed.
#[derive(Clone, Copy, Debug, PartialEq, Eq)]
pub enum Missing {
    /// The clause is not stored.
    Clause,
    /// It is, without a copy of the kind.
    Copy,
}

/// What is left of a clause: its id, and its irredundant and redundant copies, which are 0 if it
/// was removed.
#[derive(Clone, Copy, Debug, PartialEq, Eq)]
pub struct Left {
    pub id: u64,
    pub irredundant: u32,
    pub redundant: u32,
}

impl Left {
    ghost use Rattle.clause_store.specs.Lowered.{is_gone};

    /// Returns whether no copy is left.
    pub fn is_gone(&self) -> bool
        ensures { result ≡ is_gone self.now }
    {
        self.irredundant == 0 && self.redundant == 0
    }
}

/// Returns the clause with one copy less.
pub fn lower(clause: &Clause, redundant: bool) -> Option<Clause>
    ensures { SomeIff result (0 < copies_of redundant clause.now) (lowered redundant clause.now) }
{
    let copies = copies_of(clause, redundant).checked_sub(1)?;
    Some(with_copies(clause, redundant, copies))
}

/// Returns the id and the counts of a clause.
pub fn left_of(clause: &Clause) -> Left
    ensures { result ≡ left_of clause.now }
{
    Left {
        id: clause.id,
        irredundant: clause.irredundant,
        redundant: clause.redundant,
    }
}

/// Takes one copy of the clause that is alone in its bucket away, if it has these literals.
fn lower_one(
    clause: &mut Clause,
    buffer: &[Lit],
    lits: &[Lit],
    redundant: bool,
) -> Result<Left, Missing>
    requires within { IsWithin clause.old.lits buffer.now }
    requires whole { list_all is_whole (stored_of buffer.now clause.old ∷ []) ≡ true }
    ensures lowered { IfOk result (λ left. IsLoweredIn buffer.now redundant lits.now
        (clause.old ∷ []) (if is_gone left then [] else clause.new ∷ []) left) }
    ensures missing { IfErr result (IsMissing redundant lits.now
        (stored_of buffer.now clause.old ∷ [])) }
    ensures unchanged { OnErr result (clause.new ≡ clause.old) }
{
    if !has_lits(clause, buffer, lits) {
        return Err(Missing::Clause);
    }
    match lower(clause, redundant) {
        Some(less) => {
            *clause = less;
            Ok(left_of(&less))
        }
        None => Err(Missing::Copy),
    }
}

/// Takes one copy of the clause with these literals away. Returns what is left of the clause, and
/// whether no clause is left in the bucket, which is unspecified then.
fn lower_in(
    bucket: &mut Bucket,
    buffer: &[Lit],
    lits: &[Lit],
    redundant: bool,
) -> Result<(Left, bool), Missing>
    requires within { All (λ c. IsWithin c.lits buffer.now) (clauses_of bucket.old) }
    requires apart { are_apart (map (stored_of buffer.now) (clauses_of bucket.old)) ≡ true }
    requires whole { list_all is_whole (map (stored_of buffer.now) (clauses_of bucket.old))
        ≡ true }
    ensures lowered { IfOk result (λ p. IsLoweredIn buffer.now redundant lits.now
        (clauses_of bucket.old) (if p.1 then [] else clauses_of bucket.new) p.0) }
    ensures empty { IfOk result (λ p. clauses_of bucket.new ≡ [] → p.1 ≡ true) }
    ensures missing { IfErr result (IsMissing redundant lits.now
        (map (stored_of buffer.now) (clauses_of bucket.old))) }
    ensures unchanged { OnErr result (clauses_of bucket.new ≡ clauses_of bucket.old) }
{
    match bucket {
        Bucket::One(clause) => {
            let left = lower_one(clause, buffer, lits, redundant)?;
            Ok((left, left.is_gone()))
        }
        Bucket::Many(crowd) => {
            let left = crowd.lower(buffer, lits, redundant)?;
            Ok((left, crowd.places.is_empty()))
        }
    }
}

/// Removes one copy of the clause with these literals, the clause with its last copy, and an empty
/// bucket. Returns what is left of the clause.
///
/// # Errors
///
/// `Missing` if the clause, or a copy of the kind, is not stored; the clauses are unchanged.
pub fn lower_clause(
    buckets: &mut Buckets,
    buffer: &[Lit],
    hash: ClauseHash,
    lits: &[Lit],
    redundant: bool,
) -> Result<Left, Missing>
    requires within { All (λ c. IsWithin c.lits buffer.now) (clauses_at buckets.old hash) }
    requires apart { are_apart (stored_in buffer.now buckets.old hash) ≡ true }
    requires whole { list_all is_whole (stored_in buffer.now buckets.old hash) ≡ true }
    ensures lowered { IfOk result (IsLowered buffer.now hash redundant lits.now buckets.old
        buckets.new) }
    ensures empty { OnOk result (clauses_at buckets.new hash ≡ []
        → get nat_eq buckets.new hash ≡ None) }
    ensures missing { IfErr result (IsMissing redundant lits.now
        (stored_in buffer.now buckets.old hash)) }
    ensures unchanged { OnErr result ((k : ℕ)
        → clauses_at buckets.new k ≡ clauses_at buckets.old k) }
{
    match buckets.entry(hash) {
        Ok(Entry::Occupied(mut entry)) => {
            let (left, is_empty) = lower_in(entry.get_mut(), buffer, lits, redundant)?;
            if is_empty {
                entry.remove();
            }
            Ok(left)
        }
        Ok(Entry::Vacant(entry)) => {
            entry.into_key();
            Err(Missing::Clause)
        }
        // Memory is needed only for a hash without clauses.
        Err(_) => Err(Missing::Clause),
    }
}
