//! The live clauses, by their literals.
use crate::clause::{ClauseHash, ReadClause, stirred};
use crate::fault::CutFault;
use crate::slots::{Slot, SlotLink, Slots};
use sat_formula::Lit;
use std::alloc::{AllocError, Global};

/// The live clauses, in buckets by a hash of their literals. Those of the formula are found once it
/// is complete: they select the hash, so that no list of clauses has equal hashes for every
/// formula.
#[derive(Drop)]
pub(crate) struct LiveClauses {
    pub(crate) slots: Slots,
    buckets: Vec<SlotLink>,
    seed: u64,
}

impl LiveClauses {
    const FIRST_SIZE: usize = 1024;
    /// That of an empty formula.
    const FIRST_SEED: u64 = 0x9E37_79B9_7F4A_7C15;

    pub(crate) fn new(alloc: Global) -> LiveClauses {
        LiveClauses {
            slots: Slots::new(alloc),
            buckets: Vec::new(alloc),
            seed: LiveClauses::FIRST_SEED,
        }
    }

    /// Adds a clause of the formula by its text, of these literals. Returns its slot.
    pub(crate) fn put_formula_clause(
        &mut self,
        text: &[u8],
        lits: &[Lit],
    ) -> Result<Slot, CutFault> {
        for lit in lits {
            self.seed = stirred(self.seed, *lit);
        }
        self.slots.put(text, ClauseHash::EMPTY)
    }

    /// Ends the formula, and enters its clauses. `read` is overwritten, and has the hash from now
    /// on that they select.
    pub(crate) fn end_formula(&mut self, read: &mut ReadClause) -> Result<(), AllocError> {
        read.select_hash(self.seed);
        for number in 0..self.slots.len() {
            if let Some(slot) = self.slots.living(number) {
                let _end = read.read_text(self.slots.text(slot), 0)?;
                if let Some(entry) = self.slots.get_mut(slot) {
                    entry.hash = read.hash;
                }
            }
        }
        self.grow()
    }

    /// Adds a clause by its text and the hash of its literals. Returns its slot.
    pub(crate) fn put(&mut self, text: &[u8], hash: ClauseHash) -> Result<Slot, CutFault> {
        let slot = self.slots.put(text, hash)?;
        if self.slots.count() > self.buckets.len() {
            self.grow()?;
        } else {
            self.enter(slot);
        }
        Ok(slot)
    }

    /// Makes as many buckets as there are live clauses, or up to twice as many, and enters all of
    /// these.
    #[cold]
    fn grow(&mut self) -> Result<(), AllocError> {
        let count = self.slots.count().max(LiveClauses::FIRST_SIZE);
        let size = count.checked_next_power_of_two().unwrap_or(usize::MAX);
        self.buckets.clear();
        self.buckets.resize(size, SlotLink::NONE)?;
        for number in 0..self.slots.len() {
            if let Some(slot) = self.slots.living(number) {
                self.enter(slot);
            }
        }
        Ok(())
    }

    /// Enters a clause into its bucket, which must exist.
    fn enter(&mut self, slot: Slot) {
        let Some(entry) = self.slots.get_mut(slot) else {
            return;
        };
        if let Some(bucket) = bucket_of(&mut self.buckets, entry.hash) {
            entry.next = *bucket;
            *bucket = SlotLink::to(slot);
        }
    }

    /// Takes out and returns a clause with the literals of this hash that is no reason, if there is
    /// one.
    pub(crate) fn take(&mut self, hash: ClauseHash) -> Option<Slot> {
        let mut before: Option<Slot> = None;
        let mut at = *bucket_of(&mut self.buckets, hash)?;
        for _ in 0..self.slots.len() {
            let slot = at.get()?;
            let entry = self.slots.get(slot)?;
            let next = entry.next;
            if entry.hash == hash && !entry.is_reason {
                self.leave(before, next, hash);
                return Some(slot);
            }
            before = Some(slot);
            at = next;
        }
        None
    }

    /// Takes a clause out of its bucket, between the one before it and the one after it.
    fn leave(&mut self, before: Option<Slot>, next: SlotLink, hash: ClauseHash) {
        match before {
            Some(before) => {
                if let Some(entry) = self.slots.get_mut(before) {
                    entry.next = next;
                }
            }
            None => {
                if let Some(bucket) = bucket_of(&mut self.buckets, hash) {
                    *bucket = next;
                }
            }
        }
    }
}

/// Returns the bucket of a hash, if there is one.
#[inline(always)]
fn bucket_of(buckets: &mut Vec<SlotLink>, hash: ClauseHash) -> Option<&mut SlotLink> {
    let place = hash.place(buckets.len());
    buckets.get_mut(place)
}
