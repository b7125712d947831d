//! The stored clauses.
ghost use Rattle.std.specs.Prelude.{◌≡◌, ◌↔◌, ◌+◌, ◌-◌, ◌<◌, ◌≤◌, ◌^◌, ℕ, IsTrue, None, Some, false, is_some, length, min, true, IfOk, OnOk};
ghost use Rattle.std.specs.Option.{option_copied};
ghost use Rattle.sat_rules.specs.Named.{NamedBy};
ghost use Rattle.lrat_rules.specs.Counts.{count_in, count_of};
ghost use Rattle.lrat_rules.specs.Tables.{drop_all, drop_one, empty_table, put};
ghost use Rattle.clause_table.specs.Named.{TakesLittle, clause_of, stored_clauses};
ghost use Rattle.lrat_checker.specs.Counts.{lit_count};
ghost use Rattle.lrat_checker.specs.Uses.{uses_below};

use crate::counts::LitCounts;
use clause_table::{NamedClauses, gets_place};
use sat_formula::{CnfFormula, Lit};
use std::alloc::{AllocError, Global};

/// The clauses by their ids, and how often each literal is in them.
///
/// Only RAT lines ask for counts, and to keep one costs a cache miss. So the first question counts
/// the literals of all clauses, and the counts are kept from then on. Until then all ids are small;
/// a clause of another id counts them too.
#[derive(Drop)]
pub(crate) struct Clauses {
    alloc: Global,
    named: NamedClauses,
    /// The ids are below this one, unless the literals are counted.
    end: u64,
    /// How many literals the clauses had that were stored so far.
    lits_stored: u64,
    /// How often each literal is in the clauses, if they are counted.
    counts: LitCounts,
    is_counted: bool,
    ghost within: { is_counted ≡ false → (k : ℕ) → end ≤ k → clause_of named k ≡ None },
}

impl Clauses {
    ghost use Rattle.lrat_checker.specs.Held.{table_of};

    /// Returns a table without clauses, with slots for some.
    pub(crate) fn empty(alloc: Global, room: usize) -> Result<Clauses, AllocError>
        ensures table { IfOk result (λ made. table_of made ≡ empty_table) }
        ensures tight { IfOk result (λ made. TakesLittle made.named) }
    {
        Ok(Clauses {
            alloc,
            named: NamedClauses::new(alloc, room)?,
            end: 0,
            lits_stored: 0,
            counts: LitCounts::new(alloc),
            is_counted: false,
        })
    }

    /// Returns the literals of the clause of an id, if it is there.
    pub(crate) fn get(&self, id: u64) -> Option<&[Lit]>
        ensures { option_copied result ≡ (table_of self.now).named id }
    {
        self.named.get(id)
    }

    /// Returns whether the id names a clause.
    pub(crate) fn contains(&self, id: u64) -> bool
        ensures { result ≡ is_some ((table_of self.now).named id) }
    {
        self.get(id).is_some()
    }

    /// Returns whether the ids name these clauses, one each, in this order.
    pub(crate) fn are_named(&self, wanted: &CnfFormula, ids: &[u64]) -> bool
        ensures { IsTrue result ↔ NamedBy (table_of self.now).named ids.now wanted.now }
    {
        let mut left = ids;
        for clause in wanted {
            let Some((id, rest)) = left.split_first() else {
                return false;
            };
            if !self.is_named(*id, clause) {
                return false;
            }
            left = rest;
        }
        left.is_empty()
    }

    /// Returns whether the id names this clause, its literals in this order.
    fn is_named(&self, id: u64, clause: &[Lit]) -> bool
        ensures { IsTrue result ↔ ((table_of self.now).named id ≡ Some clause.now) }
    {
        match self.get(id) {
            Some(stored) => stored == clause,
            None => false,
        }
    }

    /// Returns how many clauses were stored so far.
    pub(crate) fn stored(&self) -> u64
        ensures { result ≡ stored_clauses self.now.named }
    {
        self.named.stored()
    }

    /// Returns how many literals the clauses had that were stored so far.
    pub(crate) fn lits_stored(&self) -> u64
        ensures { result ≡ self.now.lits_stored }
    {
        self.lits_stored
    }

    /// Returns how often a literal is in the clauses. The first call counts the literals of all.
    pub(crate) fn count(&mut self, lit: Lit) -> Result<u64, AllocError>
        ensures count { IfOk result (λ count. count ≡ (table_of self.old).counts lit) }
        ensures table { OnOk result (table_of self.new ≡ table_of self.old) }
        ensures named { self.new.named ≡ self.old.named }
    {
        self.count_all()?;
        Ok(self.counts.get(lit))
    }

    /// Counts the literals of the clauses, unless they are counted.
    fn count_all(&mut self) -> Result<(), AllocError>
        ensures table { OnOk result (table_of self.new ≡ table_of self.old) }
        ensures named { self.new.named ≡ self.old.named }
        ensures lits_stored { self.new.lits_stored ≡ self.old.lits_stored }
        ensures counted { OnOk result (self.new.is_counted ≡ true) }
    {
        if !self.is_counted {
            self.counts = self.counted()?;
            self.is_counted = true;
        }
        Ok(())
    }

    /// Returns how often each literal is in the clauses of the ids below `end`.
    fn counted(&self) -> Result<LitCounts, AllocError>
        ensures { IfOk result (λ counts. (l : ℕ)
            → lit_count counts l ≡ uses_below (clause_of self.now.named) self.now.end l) }
    {
        let mut counts = LitCounts::new(self.alloc);
        for id in 0..self.end {
            if let Some(clause) = self.named.get(id) {
                counts.raise(clause)?;
            }
        }
        Ok(counts)
    }

    /// Stores a clause under an id that names none. After an error the clauses are unspecified.
    pub(crate) fn put(&mut self, id: u64, clause: &[Lit]) -> Result<(), AllocError>
        ensures table { (table_of self.old).named id ≡ None
            → OnOk result (table_of self.new ≡ put id clause.now (table_of self.old)) }
        ensures lits_stored { OnOk result (self.new.lits_stored
            ≡ min (self.old.lits_stored + length clause.now) (2 ^ 64 - 1)) }
        ensures stored { OnOk result (stored_clauses self.new.named
            ≡ min (stored_clauses self.old.named + 1) (2 ^ 64 - 1)) }
        ensures tight { TakesLittle self.old.named → OnOk result (TakesLittle self.new.named) }
    {
        self.count_before(id)?;
        self.count_one(id, clause)?;
        self.lits_stored = self.lits_stored.saturating_add(clause.len() as u64);
        self.named.put(id, clause)?;
        Ok(())
    }

    /// Counts the literals before a clause is stored under an id that is far above the number of
    /// clauses: `counted` visits every smaller id.
    fn count_before(&mut self, id: u64) -> Result<(), AllocError>
        ensures table { OnOk result (table_of self.new ≡ table_of self.old) }
        ensures named { self.new.named ≡ self.old.named }
        ensures lits_stored { self.new.lits_stored ≡ self.old.lits_stored }
        ensures small { OnOk result (self.new.is_counted ≡ false → id < 2 ^ 40) }
    {
        if gets_place(id, self.stored()) {
            return Ok(());
        }
        self.count_all()?;
        Ok(())
    }

    /// Counts the literals of one more clause, or notes its id.
    fn count_one(&mut self, id: u64, clause: &[Lit]) -> Result<(), AllocError>
        requires small { self.old.is_counted ≡ false → id < 2 ^ 40 }
        ensures named { self.new.named ≡ self.old.named }
        ensures lits_stored { self.new.lits_stored ≡ self.old.lits_stored }
        ensures mode { self.new.is_counted ≡ self.old.is_counted }
        ensures counts { OnOk result (self.old.is_counted ≡ true → (l : ℕ)
            → lit_count self.new.counts l ≡ count_of l clause.now + lit_count self.old.counts l) }
        ensures end { OnOk result (self.old.is_counted ≡ false
            → (self.old.end ≤ self.new.end) × (id < self.new.end)) }
    {
        if self.is_counted {
            self.counts.raise(clause)?;
            return Ok(());
        }
        self.end = self.end.max(id + 1);
        Ok(())
    }

    /// Removes the clauses of these ids, if they are there.
    pub(crate) fn remove(&mut self, ids: &[u64])
        ensures table { table_of self.new ≡ drop_all ids.now (table_of self.old) }
        ensures tight { TakesLittle self.new.named }
        ensures stored { stored_clauses self.new.named ≡ stored_clauses self.old.named }
    {
        for id in ids {
            self.remove_one(*id);
        }
        self.named.collect_garbage();
    }

    fn remove_one(&mut self, id: u64)
        ensures table { table_of self.new ≡ drop_one id (table_of self.old) }
        ensures stored { stored_clauses self.new.named ≡ stored_clauses self.old.named }
    {
        self.lower(id);
        self.named.remove(id);
    }

    /// Counts the literals of the clause of an id no more.
    fn lower(&mut self, id: u64)
        ensures named { self.new.named ≡ self.old.named }
        ensures end { self.new.end ≡ self.old.end }
        ensures mode { self.new.is_counted ≡ self.old.is_counted }
        ensures counts { self.old.is_counted ≡ true → (l : ℕ)
            → lit_count self.new.counts l
            ≡ lit_count self.old.counts l - count_in l (clause_of self.old.named id) }
    {
        if !self.is_counted {
            return;
        }
        if let Some(clause) = self.named.get(id) {
            self.counts.lower(clause);
        }
    }
}
