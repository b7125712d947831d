//! The stored clauses and units.
ghost use Rattle.std.specs.Prelude.{◌≡◌, ◌+◌, ◌<◌, ◌≤◌, [], None, OnSome, IfNone};
ghost use Rattle.std.specs.Option.{SomeIff};
ghost use Rattle.checker_rules.specs.Store.{id_limit};

pub mod buckets;
pub mod collect;
pub mod counts;
pub mod crowd;
pub mod delete;
pub mod lits;
pub mod lower;
pub mod places;
pub mod rebuild;
pub mod store;
pub mod units;

use crate::clauses::buckets::Buckets;
use crate::clauses::counts::LitCounts;
pub use crate::clauses::delete::delete_clause;
pub use crate::clauses::lits::ClauseLits;
pub use crate::clauses::store::{store_clause, store_unit_clause};
use crate::clauses::units::Units;
pub use crate::clauses::units::{UnitClause, UnitId};
use sat_formula::Lit;
use std::alloc::Global;
use std::collections::HashMap;

/// A clause of two or more literals with its id, and the number of its irredundant and of its
/// redundant copies.
#[derive(Clone, Copy)]
pub struct Clause {
    pub id: u64,
    pub irredundant: u32,
    pub redundant: u32,
    pub lits: ClauseLits,
}

/// What storing a clause did.
#[derive(Clone, Copy, PartialEq, Eq)]
pub enum StoreClauseResult {
    /// It was not stored before.
    New,
    /// It was stored already in the same kind, or as an irredundant clause.
    Duplicate,
    /// It was stored as a redundant clause only, and is irredundant now.
    NewlyIrredundant,
}

/// What deleting a copy of a clause did.
#[derive(Clone, Copy, PartialEq, Eq)]
pub enum DeleteClauseResult {
    /// The clause is still stored in that kind, or one of several redundant copies was removed.
    Unchanged,
    /// Its last irredundant copy was removed, and redundant ones remain.
    NewlyRedundant,
    /// Its last copy was removed.
    Removed,
}

/// The stored clauses and units: the next id, the buffer of literals and how many of them are
/// garbage, the clauses by their hashes, how many clauses each literal has, the units, and the ids
/// of two opposite units, if there are two.
#[derive(Drop)]
pub struct Clauses {
    pub next_clause_id: u64,
    pub literal_buffer: Vec<Lit>,
    pub garbage_size: usize,
    pub buckets: Buckets,
    pub lit_counts: LitCounts,
    pub unit_clauses: Units,
    pub unit_conflict: Option<(u64, u64)>,
}

impl Clauses {
    ghost use Rattle.clause_store.specs.declared.hash.ClauseHasher.{ClauseHasher};
    ghost use Rattle.clause_store.specs.NewParts.{IsEmptyStore};
    ghost use Rattle.clause_store.specs.Store.{IsStore};
    ghost use Rattle.clause_store.specs.Units as units;

    /// Returns a store without clauses. Allocates no memory.
    pub fn new(alloc: Global) -> Clauses
        ensures { IsEmptyStore result }
    {
        Clauses {
            next_clause_id: 0,
            literal_buffer: Vec::new(alloc),
            garbage_size: 0,
            buckets: HashMap::new(alloc),
            lit_counts: LitCounts::new(alloc),
            unit_clauses: Units::new(alloc),
            unit_conflict: None,
        }
    }

    /// Returns the value of a literal, with what gives its variable one. None for an unknown
    /// variable too.
    pub fn lit_value(&self, lit: Lit) -> Option<(bool, UnitClause)>
        ensures { result ≡ units.lit_unit self.now.unit_clauses lit }
    {
        let unit = self.unit_clauses.get(lit.index())?;
        Some((unit.value == lit.is_positive(), unit))
    }

    /// Takes the next id and returns it, or `None` if none is left.
    #[tactic(auto, unfolding(checker_rules::specs::Store::id_limit))]
    pub fn take_id(&mut self) -> Option<u64>
        ensures id { SomeIff result (self.old.next_clause_id < id_limit) self.old.next_clause_id }
        ensures taken { OnSome result (self.new
            ≡ record self.old { next_clause_id = self.old.next_clause_id + 1 }) }
        ensures unchanged { IfNone result (self.new ≡ self.old) }
        ensures store { (h : ClauseHasher) → IsStore h self.old → IsStore h self.new }
    {
        let id = self.next_clause_id;
        self.next_clause_id = id.checked_add(1)?;
        Some(id)
    }
}
