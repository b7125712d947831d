//! Storing clauses.
ghost use Rattle.std.specs.Prelude.{◌≡◌, ◌+◌, ◌*◌, ◌/◌, ◌<◌, ◌≤◌, ◌∷◌, [], ℕ, Bool, List, Some, true, length, IfErr, IfOk, OnErr, OnOk, slice_index, slice_set};
ghost use Rattle.std.specs.Result.{OkIff};
ghost use Rattle.sat_rules.specs.Clauses.{is_canonical};
ghost use Rattle.checker_rules.specs.Canonical.{var_bound};
ghost use Rattle.checker_rules.specs.State.{Known};
ghost use Rattle.checker_rules.specs.Store.{count_of, id_limit};
ghost use Rattle.clause_store.specs.Buckets.{AreWithin, first_copy_of};
ghost use Rattle.clause_store.specs.StateOf.{id_of_unit, state_of};
ghost use Rattle.clause_store.specs.Store.{AnswersPush, AnswersStore, IsStore, UnlessOutOfMemory, raised_as, unit_for};
ghost use Rattle.clause_store.specs.View.{stored_list};
ghost use Rattle.clause_store.specs.declared.clauses.StoreClauseResult.TheVariants.{New};
ghost use Rattle.clause_store.specs.declared.clauses.store.StoreFault.TheVariants.{OutOfMemory, IdsExhausted};

use crate::clauses::buckets::{copies_in, push_clause, raise_clause};
use crate::clauses::lits::ClauseLits;
use crate::clauses::units::{UnitClause, UnitId};
use crate::clauses::{Clause, Clauses, StoreClauseResult};
use crate::hash::ClauseHasher;
use crate::state::CheckerState;
use proof_bytes::hash::ClauseHash;
use sat_formula::lit::Lit;
use std::alloc::{AllocError, Global};

/// Why a clause was not stored.
#[derive(Clone, Copy, Debug, PartialEq, Eq)]
pub enum StoreFault {
    OutOfMemory,
    /// No further id can be taken.
    IdsExhausted,
    /// No further copy can be counted.
    CountExhausted,
}

impl From<AllocError> for StoreFault {
    ghost from_gives = { λ _ e. e ≡ OutOfMemory };

    fn from(_e: AllocError) -> StoreFault {
        StoreFault::OutOfMemory
    }
}

/// Returns how many copies of the kind are stored of a clause of two or more literals.
pub fn copies(hasher: &ClauseHasher, clauses: &Clauses, lits: &[Lit], redundant: bool) -> u32
    requires { IsStore hasher.now clauses.now }
    ensures { result ≡ count_of redundant lits.now (stored_list clauses.now) }
{
    let hash = hasher.clause_hash(lits);
    copies_in(
        &clauses.buckets,
        &clauses.literal_buffer,
        hash,
        lits,
        redundant,
    )
}

/// Stores a canonical clause of known variables without opposite literals. Returns its id, and
/// whether it was new.
///
/// # Errors
///
/// `IdsExhausted` or `CountExhausted` if the clause can't be numbered or counted. After
/// `OutOfMemory` the parts are unspecified.
pub fn store_clause(
    alloc: Global,
    state: &mut CheckerState,
    hasher: &ClauseHasher,
    clauses: &mut Clauses,
    lits: &[Lit],
    redundant: bool,
) -> Result<(u64, StoreClauseResult), StoreFault>
    requires store { IsStore hasher.now clauses.old }
    requires canonical { is_canonical lits.now ≡ true }
    requires known { var_bound lits.now ≤ length clauses.old.unit_clauses }
    ensures answer { (known : List Known)
        → AnswersStore result lits.now redundant (state_of state.old hasher.now clauses.old known)
        (state_of state.new hasher.now clauses.new known) }
    ensures store { UnlessOutOfMemory result (IsStore hasher.now clauses.new) }
{
    match lits {
        [] => store_empty(state, clauses),
        [lit] => store_unit_clause(state, clauses, *lit),
        _ => store_long(alloc, hasher, clauses, lits, redundant),
    }
}

/// Stores the empty clause.
fn store_empty(
    state: &mut CheckerState,
    clauses: &mut Clauses,
) -> Result<(u64, StoreClauseResult), StoreFault>
    ensures answer { (h : ClauseHasher) (known : List Known) (redundant : Bool)
        → IsStore h clauses.old → AnswersStore result [] redundant
        (state_of state.old h clauses.old known) (state_of state.new h clauses.new known) }
    ensures store { (h : ClauseHasher) → IsStore h clauses.old → IsStore h clauses.new }
{
    let Some(id) = clauses.take_id() else {
        return Err(StoreFault::IdsExhausted);
    };
    state.unsat = true;
    Ok((id, StoreClauseResult::New))
}

/// Stores a unit of a known variable. Returns its id, and whether it was new.
///
/// # Errors
///
/// `IdsExhausted` if no id is left.
pub fn store_unit_clause(
    state: &mut CheckerState,
    clauses: &mut Clauses,
    lit: Lit,
) -> Result<(u64, StoreClauseResult), StoreFault>
    requires { lit / 2 < length clauses.old.unit_clauses }
    ensures answer { (h : ClauseHasher) (known : List Known) (redundant : Bool)
        → IsStore h clauses.old → AnswersStore result (lit ∷ []) redundant
        (state_of state.old h clauses.old known) (state_of state.new h clauses.new known) }
    ensures store { (h : ClauseHasher) → IsStore h clauses.old → IsStore h clauses.new }
{
    match clauses.unit_clauses.get(lit.index()) {
        None => put_unit(clauses, lit),
        Some(unit) => {
            let stored = global_id(&unit);
            if unit.value == lit.is_positive() {
                Ok((stored, StoreClauseResult::Duplicate))
            } else {
                put_conflict(state, clauses, stored)
            }
        }
    }
}

/// Gives a variable without a value the one that makes the literal true.
fn put_unit(clauses: &mut Clauses, lit: Lit) -> Result<(u64, StoreClauseResult), StoreFault>
    requires { lit / 2 < length clauses.old.unit_clauses }
    ensures answer { OkIff result (clauses.old.next_clause_id < id_limit)
        (clauses.old.next_clause_id, New) }
    ensures exhausted { IfErr result (λ fault. fault ≡ IdsExhausted) }
    ensures stored { OnOk result (clauses.new
        ≡ record clauses.old {
          unit_clauses = slice_set clauses.old.unit_clauses (lit / 2)
              (Some (unit_for lit clauses.old.next_clause_id));
          next_clause_id =
              clauses.old.next_clause_id + 1;
        }) }
    ensures unchanged { OnErr result (clauses.new ≡ clauses.old) }
{
    let Some(id) = clauses.take_id() else {
        return Err(StoreFault::IdsExhausted);
    };
    let unit = UnitClause {
        id: UnitId::Global(id),
        value: lit.is_positive(),
    };
    clauses.unit_clauses.set(lit.index(), Some(unit));
    Ok((id, StoreClauseResult::New))
}

/// Records that the negation of a stored unit was stored.
fn put_conflict(
    state: &mut CheckerState,
    clauses: &mut Clauses,
    stored: u64,
) -> Result<(u64, StoreClauseResult), StoreFault>
    ensures answer { OkIff result (clauses.old.next_clause_id < id_limit)
        (clauses.old.next_clause_id, New) }
    ensures exhausted { IfErr result (λ fault. fault ≡ IdsExhausted) }
    ensures stored { OnOk result (clauses.new
        ≡ record clauses.old {
          unit_conflict = Some (stored, clauses.old.next_clause_id);
          next_clause_id = clauses.old.next_clause_id + 1;
        }) }
    ensures unsat { OnOk result (state.new ≡ record state.old { unsat = true }) }
    ensures unchanged { OnErr result ((clauses.new ≡ clauses.old) × (state.new ≡ state.old)) }
{
    let Some(id) = clauses.take_id() else {
        return Err(StoreFault::IdsExhausted);
    };
    clauses.unit_conflict = Some((stored, id));
    state.unsat = true;
    Ok((id, StoreClauseResult::New))
}

/// Returns the id of a stored unit.
pub fn global_id(unit: &UnitClause) -> u64
    ensures { result ≡ id_of_unit unit.now.id }
{
    match unit.id {
        UnitId::Global(id) => id,
        _ => 0,
    }
}

/// Stores a clause of two or more literals.
fn store_long(
    alloc: Global,
    hasher: &ClauseHasher,
    clauses: &mut Clauses,
    lits: &[Lit],
    redundant: bool,
) -> Result<(u64, StoreClauseResult), StoreFault>
    requires store { IsStore hasher.now clauses.old }
    requires long { 1 < length lits.now }
    requires canonical { is_canonical lits.now ≡ true }
    requires known { var_bound lits.now ≤ length clauses.old.unit_clauses }
    ensures answer { (st : CheckerState) (known : List Known)
        → AnswersStore result lits.now redundant (state_of st hasher.now clauses.old known)
        (state_of st hasher.now clauses.new known) }
    ensures store { UnlessOutOfMemory result (IsStore hasher.now clauses.new) }
{
    let hash = hasher.clause_hash(lits);
    let buffer = clauses.literal_buffer.as_slice();
    match raise_clause(&mut clauses.buckets, buffer, hash, lits, redundant) {
        Ok(Some((id, irredundant))) => Ok((id, raised_as(irredundant, redundant))),
        Ok(None) => push_new(alloc, clauses, hash, lits, redundant),
        Err(_) => Err(StoreFault::CountExhausted),
    }
}

/// Returns what one copy more does to a stored clause that had this many irredundant copies.
fn raised_as(irredundant: u32, redundant: bool) -> StoreClauseResult
    ensures { result ≡ raised_as redundant irredundant }
{
    if !redundant && irredundant == 0 {
        StoreClauseResult::NewlyIrredundant
    } else {
        StoreClauseResult::Duplicate
    }
}

/// Stores a clause that is not stored yet.
fn push_new(
    alloc: Global,
    clauses: &mut Clauses,
    hash: ClauseHash,
    lits: &[Lit],
    redundant: bool,
) -> Result<(u64, StoreClauseResult), StoreFault>
    requires within { AreWithin clauses.old.literal_buffer.items clauses.old.buckets }
    requires long { 1 < length lits.now }
    requires canonical { is_canonical lits.now ≡ true }
    requires known { 2 * var_bound lits.now ≤ length clauses.old.lit_counts }
    ensures { AnswersPush result hash lits.now redundant clauses.old clauses.new }
{
    let Some(id) = clauses.take_id() else {
        return Err(StoreFault::IdsExhausted);
    };
    let kept = ClauseLits::new(lits, &mut clauses.literal_buffer)?;
    let clause = first_copy(id, redundant, kept);
    push_clause(alloc, &mut clauses.buckets, hash, clause, lits)?;
    clauses.lit_counts.raise(lits)?;
    Ok((id, StoreClauseResult::New))
}

/// Returns a clause with one copy.
fn first_copy(id: u64, redundant: bool, lits: ClauseLits) -> Clause
    ensures { result ≡ first_copy_of redundant id lits }
{
    Clause {
        id,
        irredundant: if redundant { 0 } else { 1 },
        redundant: if redundant { 1 } else { 0 },
        lits,
    }
}
