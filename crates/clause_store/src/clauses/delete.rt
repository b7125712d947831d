//! Deleting copies of clauses.
ghost use Rattle.std.specs.Prelude.{◌≡◌, ◌<◌, List, IfErr, IfOk, OnErr, OnOk, length, map, true};
ghost use Rattle.sat_rules.specs.Clauses.{is_canonical};
ghost use Rattle.checker_rules.specs.{Buckets.remaining, State.Known, Store.lower};
ghost use Rattle.clause_store.specs.Counts.{AreCounts};
ghost use Rattle.clause_store.specs.Delete.{AnswersDelete, UnlessOutOfMemory, deleted_as};
ghost use Rattle.clause_store.specs.Edits.{KeepsRest};
ghost use Rattle.clause_store.specs.Lowered.{IsLeft, IsMissing};
ghost use Rattle.clause_store.specs.StateOf.{state_of};
ghost use Rattle.clause_store.specs.Store.{IsIndexed, IsStore};
ghost use Rattle.clause_store.specs.View.{stored_list};

use crate::clauses::collect::collect_garbage;
use crate::clauses::lits::ClauseLits;
use crate::clauses::lower::{Left, Missing, lower_clause};
use crate::clauses::{Clauses, DeleteClauseResult};
use crate::hash::ClauseHasher;
use crate::state::CheckerState;
use sat_formula::lit::Lit;
use std::alloc::Global;

/// Why no copy was deleted.
#[derive(Clone, Copy, Debug, PartialEq, Eq)]
pub enum DeleteFault {
    OutOfMemory,
    /// Units and the empty clause have no copies.
    UnitOrEmpty,
    /// The clause is not stored.
    Unknown,
    /// It is, without a copy of the kind.
    NoCopy,
}

/// Deletes one copy of the kind of a canonical clause. Returns the clause's id and what the
/// deletion did to the clause.
///
/// # Errors
///
/// `UnitOrEmpty`, `Unknown` or `NoCopy` if there is no such copy; nothing is changed. After
/// `OutOfMemory` the parts are unspecified.
pub fn delete_clause(
    alloc: Global,
    hasher: &ClauseHasher,
    clauses: &mut Clauses,
    lits: &[Lit],
    redundant: bool,
) -> Result<(u64, DeleteClauseResult), DeleteFault>
    requires store { IsStore hasher.now clauses.old }
    requires canonical { is_canonical lits.now ≡ true }
    ensures answer { (st : CheckerState) (known : List Known)
        → AnswersDelete result lits.now redundant (state_of st hasher.now clauses.old known)
        (state_of st hasher.now clauses.new known) }
    ensures store { UnlessOutOfMemory result (IsStore hasher.now clauses.new) }
{
    if lits.len() < 2 {
        return Err(DeleteFault::UnitOrEmpty);
    }
    match take_copy(hasher, clauses, lits, redundant) {
        Ok(left) => match collect_garbage(alloc, hasher, clauses) {
            Ok(()) => Ok((left.id, deleted_as(&left, redundant))),
            Err(_) => Err(DeleteFault::OutOfMemory),
        },
        Err(Missing::Clause) => Err(DeleteFault::Unknown),
        Err(Missing::Copy) => Err(DeleteFault::NoCopy),
    }
}

/// Returns what the deletion of a copy did to a clause of which so much is left.
fn deleted_as(left: &Left, redundant: bool) -> DeleteClauseResult
    ensures { result ≡ deleted_as redundant left.now.irredundant left.now.redundant }
{
    if left.is_gone() {
        DeleteClauseResult::Removed
    } else if !redundant && left.irredundant == 0 {
        DeleteClauseResult::NewlyRedundant
    } else {
        DeleteClauseResult::Unchanged
    }
}

/// Removes one copy of a clause. The literals of a clause that is removed are garbage, and are no
/// longer counted.
fn take_copy(
    hasher: &ClauseHasher,
    clauses: &mut Clauses,
    lits: &[Lit],
    redundant: bool,
) -> Result<Left, Missing>
    requires filed { IsIndexed hasher.now clauses.old (stored_list clauses.old) }
    requires counts { AreCounts clauses.old.lit_counts (length clauses.old.unit_clauses)
        (stored_list clauses.old) }
    requires canonical { is_canonical lits.now ≡ true }
    ensures left { IfOk result (IsLeft redundant lits.now (stored_list clauses.old)) }
    ensures filed { OnOk result (IsIndexed hasher.now clauses.new
        (remaining (map (lower redundant lits.now) (stored_list clauses.old)))) }
    ensures counts { OnOk result (AreCounts clauses.new.lit_counts (length clauses.old.unit_clauses)
        (remaining (map (lower redundant lits.now) (stored_list clauses.old)))) }
    ensures rest { OnOk result (KeepsRest clauses.old clauses.new) }
    ensures missing { IfErr result (IsMissing redundant lits.now (stored_list clauses.old)) }
    ensures still_filed { OnErr result
        (IsIndexed hasher.now clauses.new (stored_list clauses.old)) }
    ensures others { OnErr result (clauses.new
        ≡ record clauses.old { buckets = clauses.new.buckets }) }
{
    let hash = hasher.clause_hash(lits);
    let buffer = clauses.literal_buffer.as_slice();
    let left = lower_clause(&mut clauses.buckets, buffer, hash, lits, redundant)?;
    if left.is_gone() {
        clauses.garbage_size += ClauseLits::buffer_size(lits);
        clauses.lit_counts.lower(lits);
    }
    Ok(left)
}
