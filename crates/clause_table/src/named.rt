//! The clauses under their ids.
ghost use Rattle.std.specs.Prelude.{◌≡◌, ◌==◌, ◌+◌, ◌*◌, ◌≤◌, ◌^◌, ◌-◌, ◌&&◌, ℕ, None, Some, if◌then◌else◌, length, min, IfOk, OnErr, OnOk};
ghost use Rattle.std.specs.Option.{option_copied};
ghost use Rattle.clause_table.specs.Near.{IsTight, has_room, place_count};
ghost use Rattle.clause_table.specs.Room.{gets_place, spare_places};

use crate::near::NearClauses;
use crate::room::gets_place;
use sat_formula::Lit;
use std::alloc::{AllocError, Global};
use std::collections::HashMap;

/// The clauses under their ids. Small ids that rise have slots in turn; ids that are not greater
/// than those, or far above the number of clauses that were stored, are in a map.
#[derive(Drop)]
pub struct NamedClauses {
    alloc: Global,
    near: NearClauses,
    far: HashMap<u64, Vec<Lit>>,
    /// How many clauses were stored so far.
    stored: u64,
    ghost few: { place_count near ≤ 4 * (stored + spare_places) + 4 },
    ghost small: { place_count near ≤ 2 ^ 40 },
}

impl NamedClauses {
    ghost use Rattle.clause_table.specs.Named.{TakesLittle, clause_of, far_clause, stored_clauses};

    /// Returns an empty table with slots for the clauses of this many ids.
    ///
    /// # Errors
    ///
    /// `AllocError` if memory runs out.
    pub fn new(alloc: Global, room: usize) -> Result<NamedClauses, AllocError>
        ensures none { IfOk result (λ made. (k : ℕ) → clause_of made k ≡ None) }
        ensures tight { IfOk result (λ made. TakesLittle made) }
    {
        Ok(NamedClauses {
            alloc,
            near: NearClauses::new(alloc, room)?,
            far: HashMap::new(alloc),
            stored: 0,
        })
    }

    /// Returns the literals of the clause of an id, or `None` if it has none.
    #[inline(always)]
    pub fn get(&self, id: u64) -> Option<&[Lit]>
        ensures { option_copied result ≡ clause_of self.now id }
    {
        match self.near.get(id) {
            Some(clause) => Some(clause),
            None => self.get_far(id),
        }
    }

    #[cold]
    #[inline(never)]
    fn get_far(&self, id: u64) -> Option<&[Lit]>
        ensures { option_copied result ≡ far_clause self.now.far id }
    {
        let clause = self.far.get(&id)?;
        Some(clause.as_slice())
    }

    /// Returns how many clauses were stored so far.
    pub fn stored(&self) -> u64
        ensures { result ≡ stored_clauses self.now }
    {
        self.stored
    }

    /// Stores a clause under an id, in place of the one that has it.
    ///
    /// # Errors
    ///
    /// `AllocError` if memory runs out; every id has the clause that it had.
    pub fn put(&mut self, id: u64, clause: &[Lit]) -> Result<(), AllocError>
        ensures put { OnOk result ((k : ℕ) → clause_of self.new k
            ≡ (if k == id then Some clause.now else clause_of self.old k)) }
        ensures stored { OnOk result
            (stored_clauses self.new ≡ min (stored_clauses self.old + 1) (2 ^ 64 - 1)) }
        ensures tight { TakesLittle self.old → OnOk result (TakesLittle self.new) }
        ensures err { OnErr result ((k : ℕ) → clause_of self.new k ≡ clause_of self.old k) }
        ensures not_stored { OnErr result (stored_clauses self.new ≡ stored_clauses self.old) }
    {
        if !self.put_near(id, clause)? {
            self.put_far(id, clause)?;
        }
        self.stored = self.stored.saturating_add(1);
        Ok(())
    }

    /// Stores a clause in a slot, if there is one for it, and returns whether there is.
    fn put_near(&mut self, id: u64, clause: &[Lit]) -> Result<bool, AllocError>
        ensures near { IfOk result (λ put. put ≡ (gets_place self.old.stored id
            && has_room self.old.near id (length clause.now))) }
        ensures ok { IfOk result (λ put. (k : ℕ) → clause_of self.new k
            ≡ (if put && (k == id) then Some clause.now else clause_of self.old k)) }
        ensures err { OnErr result ((k : ℕ) → clause_of self.new k ≡ clause_of self.old k) }
        ensures stored { self.new.stored ≡ self.old.stored }
        ensures tight { IsTight self.old.near → IsTight self.new.near }
    {
        if !gets_place(id, self.stored) {
            return Ok(false);
        }
        self.near.put(id, clause)
    }

    /// Stores a clause in the map. One in a slot is removed once this can't fail any more.
    fn put_far(&mut self, id: u64, clause: &[Lit]) -> Result<(), AllocError>
        ensures put { OnOk result ((k : ℕ) → clause_of self.new k
            ≡ (if k == id then Some clause.now else clause_of self.old k)) }
        ensures err { OnErr result ((k : ℕ) → clause_of self.new k ≡ clause_of self.old k) }
        ensures stored { self.new.stored ≡ self.old.stored }
        ensures tight { OnOk result (IsTight self.new.near) }
    {
        self.far.insert(id, Vec::from_slice(self.alloc, clause)?)?;
        self.near.remove(id);
        self.near.collect_garbage();
        Ok(())
    }

    /// Removes the clause of an id, if it is there.
    pub fn remove(&mut self, id: u64)
        ensures removed { (k : ℕ) → clause_of self.new k
            ≡ (if k == id then None else clause_of self.old k) }
        ensures stored { stored_clauses self.new ≡ stored_clauses self.old }
    {
        self.near.remove(id);
        if !self.far.is_empty() {
            self.far.remove(&id);
        }
    }

    /// Reclaims the memory of removed clauses, once it is a quarter.
    pub fn collect_garbage(&mut self)
        ensures same { (k : ℕ) → clause_of self.new k ≡ clause_of self.old k }
        ensures stored { stored_clauses self.new ≡ stored_clauses self.old }
        ensures tight { TakesLittle self.new }
    {
        self.near.collect_garbage();
    }
}
