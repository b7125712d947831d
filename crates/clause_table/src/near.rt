//! The clauses of small ids, their literals in one buffer.
ghost use Rattle.std.specs.Prelude.{◌≡◌, ◌==◌, ◌&&◌, ◌+◌, ◌*◌, ◌<◌, ◌≤◌, ◌^◌, ◌++◌, ◌∷◌, ℕ, None, Some, true, false, if◌then◌else◌, length, max, slice_index, slice_range, take, drop, SomeIff, IfOk, OnErr, OnOk};
ghost use Rattle.std.specs.Option.{option_copied};
ghost use Rattle.clause_table.specs.Places.{are_rising, in_use, len_at, lits_at};

use crate::growth::grow;
use sat_formula::Lit;
use std::alloc::{AllocError, Global};

/// The clauses of small ids, which rise: a slot for each id in turn, and one buffer, where each
/// clause follows its length.
#[derive(Drop)]
pub struct NearClauses {
    /// Where the first literal of the clause of an id is, or 0.
    places: Vec<u32>,
    /// A length is written as the literal of that code.
    lits: Vec<Lit>,
    /// How much of the buffer belongs to no clause any more.
    garbage: usize,
    ghost rising: { are_rising lits.items 0 places.items ≡ true },
    ghost counted: { garbage + in_use lits.items places.items ≡ length lits.items },
}

impl NearClauses {
    ghost use Rattle.clause_table.specs.Near.{IsTight, has_room, near_clause, place_count};

    /// Returns an empty table with memory for the slots of this many ids.
    ///
    /// # Errors
    ///
    /// `AllocError` if memory runs out.
    pub fn new(alloc: Global, room: usize) -> Result<NearClauses, AllocError>
        ensures empty { IfOk result (λ made. (id : ℕ) → near_clause made id ≡ None) }
        ensures places { IfOk result (λ made. place_count made ≡ 0) }
        ensures tight { IfOk result (λ made. IsTight made) }
    {
        Ok(NearClauses {
            places: Vec::with_capacity(alloc, room.saturating_add(1))?,
            lits: Vec::new(alloc),
            garbage: 0,
        })
    }

    /// Returns the slot of an id, or 0.
    #[inline(always)]
    fn place(&self, id: u64) -> usize
        ensures value { result ≡ slice_index self.now.places.items id }
        ensures within { 0 < result → result + len_at self.now.lits.items result
            ≤ length self.now.lits.items }
    {
        self.places.get(id as usize).copied().unwrap_or(0) as usize
    }

    /// Returns the literals of the clause of an id, or `None` if it has none.
    #[inline(always)]
    pub fn get(&self, id: u64) -> Option<&[Lit]>
        ensures { option_copied result ≡ near_clause self.now id }
    {
        let place = self.place(id);
        if place == 0 {
            return None;
        }
        let len = self.lits[place - 1].code();
        Some(&self.lits[place..place + len])
    }

    /// Stores a clause under an id that is greater than those with slots, if its length and its
    /// position in the buffer are in range, and returns whether it was stored.
    ///
    /// # Errors
    ///
    /// `AllocError` if memory runs out; every id has the clause that it had.
    pub fn put(&mut self, id: u64, clause: &[Lit]) -> Result<bool, AllocError>
        requires small { id < 2 ^ 62 }
        ensures room { IfOk result (λ stored.
            stored ≡ has_room self.old id (length clause.now)) }
        ensures ok { IfOk result (λ stored. (k : ℕ) → near_clause self.new k
            ≡ (if stored && (k == id) then Some clause.now else near_clause self.old k)) }
        ensures left { IfOk result (λ stored. stored ≡ false → self.new ≡ self.old) }
        ensures err { OnErr result ((k : ℕ) → near_clause self.new k ≡ near_clause self.old k) }
        ensures full { OnErr result (has_room self.old id (length clause.now) ≡ true) }
        ensures places { place_count self.new ≤ max (place_count self.old) (id + 1) }
        ensures tight { IsTight self.old → IsTight self.new }
    {
        let Some(len) = self.len_with_room(id, clause) else {
            return Ok(false);
        };
        self.store(id as usize, len, clause)?;
        Ok(true)
    }

    /// Returns the length of a clause as it is stored, if the clause can be stored under the id.
    fn len_with_room(&self, id: u64, clause: &[Lit]) -> Option<Lit>
        ensures { SomeIff result (has_room self.now id (length clause.now) ≡ true)
            (length clause.now) }
    {
        if id < self.places.len() as u64 || self.lits.len() >= u32::MAX as usize {
            return None;
        }
        Lit::from_code(clause.len())
    }

    /// Stores a clause and its length under an id that is greater than those with slots.
    fn store(&mut self, id: usize, len: Lit, clause: &[Lit]) -> Result<(), AllocError>
        requires greater { length self.old.places.items ≤ id }
        requires small { id < 2 ^ 62 }
        requires fits { length self.old.lits.items + 1 < 2 ^ 32 }
        requires len { len ≡ length clause.now }
        ensures ok { OnOk result ((k : ℕ) → near_clause self.new k
            ≡ (if k == id then Some clause.now else near_clause self.old k)) }
        ensures err { OnErr result ((k : ℕ) → near_clause self.new k ≡ near_clause self.old k) }
        ensures places { length self.new.places.items ≤ id + 1 }
        ensures tight { IsTight self.old → IsTight self.new }
    {
        self.make_place(id)?;
        let place = self.lits.len() + 1;
        append(&mut self.lits, len, clause)?;
        self.places[id] = place as u32;
        Ok(())
    }

    /// Makes a slot for an id that is greater than those with slots.
    fn make_place(&mut self, id: usize) -> Result<(), AllocError>
        requires greater { length self.old.places.items ≤ id }
        requires small { id < 2 ^ 62 }
        ensures same { (k : ℕ) → slice_index self.new.places.items k
            ≡ slice_index self.old.places.items k }
        ensures lits { self.new.lits.items ≡ self.old.lits.items }
        ensures garbage { self.new.garbage ≡ self.old.garbage }
        ensures room { OnOk result (length self.new.places.items ≡ id + 1) }
        ensures no_more { length self.new.places.items ≤ id + 1 }
        ensures no_fewer { length self.old.places.items ≤ length self.new.places.items }
    {
        let more = id + 1 - self.places.len();
        grow(&mut self.places, more)?;
        self.places.resize(id + 1, 0)?;
        Ok(())
    }

    /// Removes the clause of an id, if it is there.
    pub fn remove(&mut self, id: u64)
        ensures removed { (k : ℕ) → near_clause self.new k
            ≡ (if k == id then None else near_clause self.old k) }
        ensures places { place_count self.new ≡ place_count self.old }
    {
        let place = self.place(id);
        if place > 0 {
            self.garbage += self.lits[place - 1].code() + 1;
            self.places[id as usize] = 0;
        }
    }

    /// Compacts the clauses, if more than a quarter of the buffer is garbage, and more than there
    /// are slots.
    pub fn collect_garbage(&mut self)
        ensures same { (k : ℕ) → near_clause self.new k ≡ near_clause self.old k }
        ensures places { place_count self.new ≡ place_count self.old }
        ensures tight { IsTight self.new }
        ensures idle { IsTight self.old → self.new ≡ self.old }
    {
        if self.garbage <= self.lits.len() / 4 || self.garbage <= self.places.len() {
            return;
        }
        let end = pack(&mut self.places, &mut self.lits);
        self.lits.truncate(end);
        self.garbage = 0;
    }
}

/// Appends a clause after its length.
fn append(lits: &mut Vec<Lit>, len: Lit, clause: &[Lit]) -> Result<(), AllocError>
    ensures ok { OnOk result (lits.new.items ≡ lits.old.items ++ len ∷ clause.now) }
    ensures err { OnErr result (lits.new.items ≡ lits.old.items) }
{
    grow(lits, clause.len() + 1)?;
    lits.push(len)?;
    lits.extend_from_slice(clause)?;
    Ok(())
}

/// Moves the clauses of slots down in their buffer, each to where the one before ends, and returns
/// where the last ends.
fn pack(places: &mut Vec<u32>, lits: &mut Vec<Lit>) -> usize
    requires { are_rising lits.old.items 0 places.old.items ≡ true }
    ensures places { length places.new.items ≡ length places.old.items }
    ensures same { (k : ℕ)
        → lits_at (take result lits.new.items) (slice_index places.new.items k)
        ≡ lits_at lits.old.items (slice_index places.old.items k) }
    ensures rising { are_rising (take result lits.new.items) 0 places.new.items ≡ true }
    ensures used { in_use (take result lits.new.items) places.new.items
        ≡ length (take result lits.new.items) }
{
    let mut end = 0;
    for id in 0..places.len() {
        let place = places[id] as usize;
        if place > 0 {
            places[id] = (end + 1) as u32;
            end = move_down(lits, place, end);
        }
    }
    end
}

/// Moves the clause of a slot down to an end, with its length, and returns where it ends there.
fn move_down(lits: &mut Vec<Lit>, place: usize, end: usize) -> usize
    requires down { end < place }
    requires within { place + len_at lits.old.items place ≤ length lits.old.items }
    ensures end { result ≡ end + (len_at lits.old.items place + 1) }
    ensures moved { take result lits.new.items ≡ take end lits.old.items ++
        len_at lits.old.items place
        ∷ slice_range lits.old.items place (place + len_at lits.old.items place) }
    ensures above { drop result lits.new.items ≡ drop result lits.old.items }
    ensures len { length lits.new.items ≡ length lits.old.items }
{
    let len = lits[place - 1].code();
    lits.copy_within(place - 1..place + len, end);
    end + (len + 1)
}
