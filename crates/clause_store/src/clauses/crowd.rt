//! Several clauses of one hash.
ghost use Rattle.std.specs.Prelude.{◌≡◌, ◌+◌, ◌*◌, ◌≤◌, All, length};
ghost use Rattle.std.specs.BTreeMap.{btree_map_len};
ghost use Rattle.clause_store.specs.Crowds.{standing};
ghost use Rattle.clause_store.specs.Lits.{IsWithin};

use crate::clauses::Clause;
use crate::clauses::buckets::{CountExhausted, copies_of, raise};
use crate::clauses::lower::{Left, Missing, left_of, lower};
use crate::clauses::places::{clause_at, search};
use sat_formula::lit::Lit;
use std::alloc::{AllocError, Global};
use std::collections::BTreeMap;

/// A bucket with more slots has an index of its clauses.
const FEW_PLACES: usize = 16;

/// A bucket with several clauses, which have one hash, by rising ids.
///
/// A removed clause leaves its slot free, so that none after it is moved. At most half of the slots
/// are free: if one more became free, the others are compacted.
#[derive(Drop)]
pub struct Crowd {
    alloc: Global,
    pub places: Vec<Option<Clause>>,
    /// How many slots are free.
    free: usize,
    /// The slot in which a clause is looked for first, by its literals.
    ///
    /// No result relies on it: what is found there is compared, and what is not is looked for in
    /// all slots.
    noted: BTreeMap<Vec<Lit>, usize>,
    ghost counted: { free + length (standing places.items) ≡ length places.items },
    ghost half: { 2 * free ≤ length places.items },
    ghost few_notes: { btree_map_len noted ≤ length places.items },
}

/// Returns a copy of the literals.
fn copy_of(alloc: Global, lits: &[Lit]) -> Result<Vec<Lit>, AllocError> {
    let mut copy = Vec::with_capacity(alloc, lits.len())?;
    copy.extend_from_slice(lits)?;
    Ok(copy)
}

/// Indexes the clause with these literals.
fn note(
    alloc: Global,
    noted: &mut BTreeMap<Vec<Lit>, usize>,
    lits: &[Lit],
    at: usize,
) -> Result<(), AllocError>
    ensures { btree_map_len noted.new ≤ btree_map_len noted.old + 1 }
{
    noted.insert(copy_of(alloc, lits)?, at)?;
    Ok(())
}

/// Indexes all clauses.
fn note_all(
    alloc: Global,
    noted: &mut BTreeMap<Vec<Lit>, usize>,
    places: &[Option<Clause>],
    buffer: &[Lit],
) -> Result<(), AllocError>
    requires { All (λ c. IsWithin c.lits buffer.now) (standing places.now) }
    ensures { btree_map_len noted.new ≤ btree_map_len noted.old + length places.now }
{
    for at in 0..places.len() {
        let Some(clause) = places[at] else {
            continue;
        };
        note(alloc, noted, clause.lits.slice(buffer), at)?;
    }
    Ok(())
}

impl Crowd {
    ghost use Rattle.std.specs.Prelude.{◌<◌, ◌++◌, ◌∷◌, [], IfErr, IfNone, IfOk, IfSome, None, OnErr, OnOk, false, is_some, map, slice_index_or, slice_set, true};
    ghost use Rattle.std.specs.List.{list_all};
    ghost use Rattle.checker_rules.specs.Store.{count_limit, count_of as count_in, is_stored, raise as raise_in_list};
    ghost use Rattle.checker_rules.specs.WellFormed.{are_apart};
    ghost use Rattle.clause_store.specs.Crowds.{IsPlaced};
    ghost use Rattle.clause_store.specs.Found.{found_in};
    ghost use Rattle.clause_store.specs.Lowered.{IsLoweredIn, IsMissing};
    ghost use Rattle.clause_store.specs.Store.{is_whole};
    ghost use Rattle.clause_store.specs.View.{stored_of};

    /// Returns a bucket without clauses. Allocates no memory.
    pub fn new(alloc: Global) -> Crowd
        ensures { result.places.items ≡ [] }
    {
        Crowd {
            alloc,
            places: Vec::new(alloc),
            free: 0,
            noted: BTreeMap::new(alloc),
        }
    }

    /// Returns a bucket with two clauses, in this order.
    ///
    /// # Errors
    ///
    /// `AllocError` if memory runs out.
    pub fn of_two(alloc: Global, first: Clause, second: Clause) -> Result<Crowd, AllocError>
        ensures { IfOk result (λ crowd. standing crowd.places.items ≡ first ∷ second ∷ []) }
    {
        let mut crowd = Crowd::new(alloc);
        crowd.places.push(Some(first))?;
        crowd.places.push(Some(second))?;
        Ok(crowd)
    }

    /// Appends a clause with these literals.
    ///
    /// # Errors
    ///
    /// `AllocError` if memory runs out; the bucket is unspecified then.
    pub fn push(&mut self, clause: Clause, lits: &[Lit]) -> Result<(), AllocError>
        ensures { OnOk result (standing self.new.places.items
            ≡ standing self.old.places.items ++ clause ∷ []) }
    {
        let at = self.places.len();
        self.places.push(Some(clause))?;
        if self.noted.is_empty() {
            return Ok(());
        }
        note(self.alloc, &mut self.noted, lits, at)?;
        Ok(())
    }

    /// Returns the slot of the clause with these literals, and the clause.
    fn find(&mut self, buffer: &[Lit], lits: &[Lit]) -> Option<(usize, Clause)>
        requires { All (λ c. IsWithin c.lits buffer.now) (standing self.old.places.items) }
        ensures placed { IfSome result (λ p. IsPlaced buffer.now lits.now self.old.places.items
            p.0 p.1) }
        ensures missing { IfNone result (is_stored lits.now
            (map (stored_of buffer.now) (standing self.old.places.items)) ≡ false) }
        ensures same { self.new.places ≡ self.old.places }
    {
        if self.places.len() > FEW_PLACES && self.noted.is_empty() {
            // If an allocation fails, some are looked for in all slots.
            let _refused = note_all(self.alloc, &mut self.noted, &self.places, buffer);
        }
        match self.noted_place(buffer, lits) {
            Some(found) => Some(found),
            None => search(&self.places, buffer, lits),
        }
    }

    /// Returns the slot that the index has for the clause with these literals, and that clause, if
    /// it is there.
    fn noted_place(&self, buffer: &[Lit], lits: &[Lit]) -> Option<(usize, Clause)>
        requires { All (λ c. IsWithin c.lits buffer.now) (standing self.now.places.items) }
        ensures { IfSome result (λ p. IsPlaced buffer.now lits.now self.now.places.items p.0 p.1) }
    {
        let at = *self.noted.get(lits)?;
        clause_at(&self.places, at, buffer, lits)
    }

    /// Returns how many copies of the kind there are of the clause with these literals.
    pub fn copies(&self, buffer: &[Lit], lits: &[Lit], redundant: bool) -> u32
        requires within { All (λ c. IsWithin c.lits buffer.now) (standing self.now.places.items) }
        requires apart { are_apart (map (stored_of buffer.now) (standing self.now.places.items))
            ≡ true }
        ensures { result ≡ count_in redundant lits.now
            (map (stored_of buffer.now) (standing self.now.places.items)) }
    {
        match search(&self.places, buffer, lits) {
            Some((_, clause)) => copies_of(&clause, redundant),
            None => 0,
        }
    }

    /// Counts one more copy of the clause with these literals. Returns its id and how many
    /// irredundant copies there were, or `None` if the clause is not stored.
    ///
    /// # Errors
    ///
    /// `CountExhausted` if no further copy can be counted; the clauses are unchanged.
    pub fn raise(
        &mut self,
        buffer: &[Lit],
        lits: &[Lit],
        redundant: bool,
    ) -> Result<Option<(u64, u32)>, CountExhausted>
        requires within { All (λ c. IsWithin c.lits buffer.now) (standing self.old.places.items) }
        requires apart { are_apart (map (stored_of buffer.now) (standing self.old.places.items))
            ≡ true }
        ensures found { IfOk result (λ found. found
            ≡ found_in lits.now (map (stored_of buffer.now) (standing self.old.places.items))) }
        ensures raised { OnOk result (map (stored_of buffer.now) (standing self.new.places.items)
            ≡ map (raise_in_list redundant lits.now)
            (map (stored_of buffer.now) (standing self.old.places.items))) }
        ensures within { All (λ c. IsWithin c.lits buffer.now) (standing self.new.places.items) }
        ensures room { OnOk result (count_in redundant lits.now
            (map (stored_of buffer.now) (standing self.old.places.items)) < count_limit) }
        ensures exhausted { OnErr result (count_limit ≤ count_in redundant lits.now
            (map (stored_of buffer.now) (standing self.old.places.items))) }
        ensures unchanged { OnErr result (standing self.new.places.items
            ≡ standing self.old.places.items) }
    {
        let Some((at, clause)) = self.find(buffer, lits) else {
            return Ok(None);
        };
        match raise(&clause, redundant) {
            Some(more) => {
                self.places[at] = Some(more);
                Ok(Some((clause.id, clause.irredundant)))
            }
            None => Err(CountExhausted),
        }
    }

    /// Removes one copy of the clause with these literals, and the clause with its last copy.
    /// Returns what is left of the clause.
    ///
    /// # Errors
    ///
    /// `Missing` if the clause, or a copy of the kind, is not stored; the clauses are unchanged.
    pub fn lower(&mut self, buffer: &[Lit], lits: &[Lit], redundant: bool) -> Result<Left, Missing>
        requires within { All (λ c. IsWithin c.lits buffer.now) (standing self.old.places.items) }
        requires apart { are_apart (map (stored_of buffer.now) (standing self.old.places.items))
            ≡ true }
        requires whole { list_all is_whole
            (map (stored_of buffer.now) (standing self.old.places.items)) ≡ true }
        ensures lowered { IfOk result (IsLoweredIn buffer.now redundant lits.now
            (standing self.old.places.items) (standing self.new.places.items)) }
        ensures missing { IfErr result (IsMissing redundant lits.now
            (map (stored_of buffer.now) (standing self.old.places.items))) }
        ensures unchanged { OnErr result (standing self.new.places.items
            ≡ standing self.old.places.items) }
    {
        let Some((at, clause)) = self.find(buffer, lits) else {
            return Err(Missing::Clause);
        };
        let Some(less) = lower(&clause, redundant) else {
            return Err(Missing::Copy);
        };
        let left = left_of(&less);
        if left.is_gone() {
            self.leave(at, lits);
            Ok(left)
        } else {
            self.places[at] = Some(less);
            Ok(left)
        }
    }

    /// Removes the clause with these literals from its slot. The others are compacted once more
    /// than half of the slots are free; the index is wrong then.
    fn leave(&mut self, at: usize, lits: &[Lit])
        requires within { at < length self.old.places.items }
        requires taken { is_some (slice_index_or self.old.places.items at None) ≡ true }
        ensures { standing self.new.places.items
            ≡ standing (slice_set self.old.places.items at None) }
    {
        self.noted.remove(lits);
        self.places[at] = None;
        self.free += 1;
        if self.free > self.places.len() / 2 {
            self.places.retain(|place| place.is_some());
            self.free = 0;
            self.noted.clear();
        }
    }
}
