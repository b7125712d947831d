//! The hash of a clause under the solver's names for its variables.
ghost use Rattle.std.specs.Prelude.{◌≡◌, ◌<◌, ◌≤◌, ◌/◌, [], ℕ, List, None, IfOk, OnOk, false, map, nat_lt, slice_index, ◌+◌, ◌*◌, ◌||◌};
ghost use Rattle.checker_rules.specs.Check.{apply_if_named, apply_name, apply_names, apply_pending};
ghost use Rattle.checker_rules.specs.State.{Known, named_hash, xor_hash};
ghost use Rattle.sat_formula.specs.Vars.{index_of, indexes_of};
ghost use Rattle.clause_store.specs.StateOf.{state_of};
ghost use Rattle.clause_store.specs.Store.{IsStore};
ghost use Rattle.clause_store.specs.Names.{AgreeOnHeld, indexes, names_of};

use crate::clauses::Clauses;
use crate::clauses::counts::LitCounts;
use crate::clauses::rebuild::rebuild_buckets;
use crate::pending::PendingNames;
use crate::state::CheckerState;
use proof_bytes::hash::{ClauseHash, lit_code_hash, lit_hash};
use sat_formula::lit::{Lit, Var};
use std::alloc::{AllocError, Global};
use std::collections::HashMap;

/// The applied and the pending solver names, and the width of hashes in bits.
#[derive(Drop)]
pub struct ClauseHasher {
    pub hash_bits: u32,
    /// The name of a variable, by the variable's index.
    pub solver_names: HashMap<usize, Var>,
    /// The names and removals that wait.
    pub pending: PendingNames,
}

impl ClauseHasher {
    ghost use Rattle.clause_store.specs.StateOf.{applied_of, hash_of, pending_of};

    /// Returns a hasher of 64 bits without names. Allocates no memory.
    pub fn new(alloc: Global) -> ClauseHasher
        ensures bits { result.hash_bits ≡ 64 }
        ensures names { applied_of result ≡ (λ v. None) }
        ensures pending { pending_of result ≡ [] }
    {
        ClauseHasher {
            hash_bits: 64,
            solver_names: HashMap::new(alloc),
            pending: PendingNames::new(alloc),
        }
    }

    /// Returns the hash of a clause.
    pub fn clause_hash(&self, lits: &[Lit]) -> ClauseHash
        requires some_bits { 0 < self.now.hash_bits }
        requires bits { self.now.hash_bits ≤ 64 }
        ensures { result ≡ hash_of self.now lits.now }
    {
        self.full_hash(lits) >> (64 - self.hash_bits)
    }

    /// All 64 bits of the hash of a clause.
    fn full_hash(&self, lits: &[Lit]) -> ClauseHash
        ensures { result ≡ xor_hash (applied_of self.now) lits.now }
    {
        // Most proofs apply no name, and then no key need be hashed.
        if self.solver_names.is_empty() {
            return unnamed_hash(lits);
        }
        let mut hash = 0;
        for lit in lits {
            hash ^= self.named_lit_hash(*lit);
        }
        hash
    }

    /// Returns the hash of a literal by the applied name of its variable.
    fn named_lit_hash(&self, lit: Lit) -> ClauseHash
        ensures { result ≡ named_hash (applied_of self.now (lit / 2)) lit }
    {
        match self.name_of(lit.index()) {
            Some(name) => lit_hash(name.lit(lit.is_positive())),
            None => unnamed_lit_hash(lit),
        }
    }

    /// Returns the applied name of the variable of this index.
    fn name_of(&self, index: usize) -> Option<Var>
        ensures { indexes_of result ≡ applied_of self.now index }
    {
        self.solver_names.get(&index).copied()
    }
}

/// All 64 bits of the hash of a clause, where no name is applied.
fn unnamed_hash(lits: &[Lit]) -> ClauseHash
    ensures { result ≡ xor_hash (λ v. None) lits.now }
{
    let mut hash = 0;
    for lit in lits {
        hash ^= unnamed_lit_hash(*lit);
    }
    hash
}

/// Returns the hash of a literal whose variable has no name.
fn unnamed_lit_hash(lit: Lit) -> ClauseHash
    ensures { result ≡ named_hash None lit }
{
    lit_code_hash(lit.code() + 2 * Var::MAX_COUNT)
}

/// Sets the width, applies the pending names and removals, and moves every clause to the bucket of
/// its hash. No clause is moved if no hash changes, or if the names that change are those of
/// variables in no clause.
///
/// # Errors
///
/// `AllocError` if memory runs out; the parts are unspecified then.
pub fn rehash(
    alloc: Global,
    hasher: &mut ClauseHasher,
    clauses: &mut Clauses,
    bits: u32,
) -> Result<(), AllocError>
    requires some_bits { 0 < bits }
    requires bits { bits ≤ 64 }
    requires store { IsStore hasher.old clauses.old }
    ensures state { OnOk result ((st : CheckerState) (known : List Known)
        → state_of st hasher.new clauses.new known
        ≡ apply_pending (record (state_of st hasher.old clauses.old known) { width = bits })) }
    ensures store { OnOk result (IsStore hasher.new clauses.new) }
{
    let names = &mut hasher.solver_names;
    let renamed = apply_names(names, &hasher.pending.entries, &clauses.lit_counts)?;
    hasher.pending.clear();
    if !renamed && hasher.hash_bits == bits {
        return Ok(());
    }
    hasher.hash_bits = bits;
    rebuild_buckets(alloc, hasher, clauses)
}

/// Applies the pending names and removals if one of them is a name.
///
/// # Errors
///
/// `AllocError` if memory runs out; the parts are unspecified then.
pub fn apply_pending_names(
    alloc: Global,
    hasher: &mut ClauseHasher,
    clauses: &mut Clauses,
) -> Result<(), AllocError>
    requires { IsStore hasher.old clauses.old }
    ensures state { OnOk result ((st : CheckerState) (known : List Known)
        → state_of st hasher.new clauses.new known
        ≡ apply_if_named (state_of st hasher.old clauses.old known)) }
    ensures store { OnOk result (IsStore hasher.new clauses.new) }
{
    if hasher.pending.some_name() {
        let bits = hasher.hash_bits;
        rehash(alloc, hasher, clauses, bits)
    } else {
        Ok(())
    }
}

/// Applies names and removals in order, and returns whether one of them changed the name of a
/// variable of a counted clause.
fn apply_names(
    names: &mut HashMap<usize, Var>,
    pending: &[(Var, Option<Var>)],
    counts: &LitCounts,
) -> Result<bool, AllocError>
    ensures applied { OnOk result (names_of names.new
        ≡ apply_names (names_of names.old) (map indexes pending.now)) }
    ensures changed { IfOk result (λ changed. changed ≡ false
        → AgreeOnHeld counts.now (names_of names.old) (names_of names.new)) }
{
    let mut changed = false;
    for (var, name) in pending {
        changed |= rename(names, *var, *name, counts)?;
    }
    Ok(changed)
}

/// Names a variable, or removes its name, and returns whether that changed the name of a variable
/// of a counted clause.
fn rename(
    names: &mut HashMap<usize, Var>,
    var: Var,
    name: Option<Var>,
    counts: &LitCounts,
) -> Result<bool, AllocError>
    ensures applied { OnOk result (names_of names.new
        ≡ apply_name (names_of names.old) (index_of var, indexes_of name)) }
    ensures changed { IfOk result (λ changed. changed ≡ false
        → AgreeOnHeld counts.now (names_of names.old) (names_of names.new)) }
{
    let renamed = apply_name(names, var.index(), name)?;
    Ok(renamed && is_held(counts, var))
}

/// Returns whether a counted clause has a literal of the variable.
fn is_held(counts: &LitCounts, var: Var) -> bool
    ensures { result ≡ (nat_lt 0 (slice_index counts.now (2 * index_of var))
        || nat_lt 0 (slice_index counts.now (2 * index_of var + 1))) }
{
    counts.get(var.lit(true)).clause_count > 0 || counts.get(var.lit(false)).clause_count > 0
}

/// Names a variable, or removes its name, and returns whether that changed its name.
fn apply_name(
    names: &mut HashMap<usize, Var>,
    index: usize,
    name: Option<Var>,
) -> Result<bool, AllocError>
    ensures applied { OnOk result (names_of names.new
        ≡ apply_name (names_of names.old) (index, indexes_of name)) }
    ensures changed { IfOk result (λ changed. changed ≡ false
        → names_of names.new ≡ names_of names.old) }
{
    let old = match name {
        Some(name) => names.insert(index, name)?,
        None => names.remove(&index),
    };
    Ok(old != name)
}
