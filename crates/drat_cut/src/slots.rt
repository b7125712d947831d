//! The live clauses, each in a slot.
use crate::clause::ClauseHash;
use crate::fault::CutFault;
use sat_formula::Lit;
use std::alloc::{AllocError, Global};
use std::mem;

/// The number of a slot.
#[derive(Clone, Copy, PartialEq, Eq)]
pub(crate) struct Slot(pub(crate) u32);

/// A slot, or none, in four bytes.
#[derive(Clone, Copy)]
pub(crate) struct SlotLink(u32);

impl SlotLink {
    pub(crate) const NONE: SlotLink = SlotLink(u32::MAX);

    /// Returns the link to a slot.
    pub(crate) fn to(slot: Slot) -> SlotLink {
        SlotLink(slot.0)
    }

    /// Returns the slot, if there is one.
    pub(crate) fn get(self) -> Option<Slot> {
        if self.0 == u32::MAX {
            None
        } else {
            Some(Slot(self.0))
        }
    }
}

/// The entry of a live clause.
#[derive(Clone, Copy)]
pub(crate) struct Entry {
    pub(crate) hash: ClauseHash,
    /// Where its text begins.
    start: usize,
    len: usize,
    /// All literals in its text before this place are false, except those that it is watched by.
    pub(crate) open_from: usize,
    /// The two literals that it is watched by.
    pub(crate) watched: Option<(Lit, Lit)>,
    /// The next one in its bucket, or the next free slot.
    pub(crate) next: SlotLink,
    /// It is the reason of a literal.
    pub(crate) is_reason: bool,
    pub(crate) lives: bool,
}

impl Entry {
    /// Returns whether it is watched by a literal.
    pub(crate) fn is_watched_by(&self, lit: Lit) -> bool {
        match self.watched {
            Some((first, second)) => first == lit || second == lit,
            None => false,
        }
    }
}

/// The slots. Those of deleted clauses are reused.
#[derive(Drop)]
pub(crate) struct Slots {
    alloc: Global,
    entries: Vec<Entry>,
    free: SlotLink,
    /// How many clauses are live.
    count: usize,
    /// The texts of the clauses: of each its literals, up to the 0 and an LF.
    texts: Vec<u8>,
    /// How many bytes of them are of deleted clauses.
    garbage: usize,
}

impl Slots {
    /// There are fewer slots, so that twice as many watches have numbers.
    const MOST: usize = 1 << 31;

    pub(crate) fn new(alloc: Global) -> Slots {
        Slots {
            alloc,
            entries: Vec::new(alloc),
            free: SlotLink::NONE,
            count: 0,
            texts: Vec::new(alloc),
            garbage: 0,
        }
    }

    /// Returns how many clauses are live.
    pub(crate) fn count(&self) -> usize {
        self.count
    }

    /// Returns how many slots there are, free ones included.
    pub(crate) fn len(&self) -> usize {
        self.entries.len()
    }

    /// Returns the slot of a number, if a clause lives in it.
    pub(crate) fn living(&self, number: usize) -> Option<Slot> {
        if !self.entries.get(number)?.lives {
            return None;
        }
        Some(Slot(u32::try_from(number).ok()?))
    }

    /// Returns the entry of a slot, if there is such a slot.
    #[inline(always)]
    pub(crate) fn get(&self, slot: Slot) -> Option<&Entry> {
        self.entries.get(slot.0 as usize)
    }

    /// Returns the entry of a slot, to be changed.
    #[inline(always)]
    pub(crate) fn get_mut(&mut self, slot: Slot) -> Option<&mut Entry> {
        self.entries.get_mut(slot.0 as usize)
    }

    /// Returns the text of a clause.
    pub(crate) fn text(&self, slot: Slot) -> &[u8] {
        let Some(entry) = self.get(slot) else {
            return &[];
        };
        let end = entry.start.saturating_add(entry.len);
        self.texts.get(entry.start..end).unwrap_or(&[])
    }

    /// Stores a clause by its text, and returns its slot.
    ///
    /// # Errors
    ///
    /// `TooMany` if there is no number for the slot, or `OutOfMemory`.
    pub(crate) fn put(&mut self, text: &[u8], hash: ClauseHash) -> Result<Slot, CutFault> {
        let entry = Entry {
            hash,
            start: self.texts.len(),
            len: text.len(),
            open_from: 0,
            watched: None,
            next: SlotLink::NONE,
            is_reason: false,
            lives: true,
        };
        self.texts.extend_from_slice(text)?;
        self.count = self.count.saturating_add(1);
        if let Some(slot) = self.free.get() {
            if let Some(found) = self.entries.get_mut(slot.0 as usize) {
                self.free = found.next;
                *found = entry;
                return Ok(slot);
            }
        }
        let number = u32::try_from(self.entries.len()).map_err(|_| CutFault::TooMany)?;
        if number as usize >= Slots::MOST {
            return Err(CutFault::TooMany);
        }
        self.entries.push(entry)?;
        Ok(Slot(number))
    }

    /// Frees the slot of a deleted clause.
    pub(crate) fn release(&mut self, slot: Slot) -> Result<(), AllocError> {
        if let Some(found) = self.entries.get_mut(slot.0 as usize) {
            found.lives = false;
            found.watched = None;
            found.next = self.free;
            self.garbage = self.garbage.saturating_add(found.len);
            self.free = SlotLink::to(slot);
            self.count = self.count.saturating_sub(1);
        }
        if self.garbage > self.texts.len() / 2 {
            self.collect_garbage()?;
        }
        Ok(())
    }

    /// Copies the texts of the live clauses together.
    #[cold]
    fn collect_garbage(&mut self) -> Result<(), AllocError> {
        let size = self.texts.len().saturating_sub(self.garbage);
        let mut kept = Vec::with_capacity(self.alloc, size)?;
        for entry in self.entries.iter_mut() {
            if entry.lives {
                let end = entry.start.saturating_add(entry.len);
                let text = self.texts.get(entry.start..end).unwrap_or(&[]);
                entry.start = kept.len();
                kept.extend_from_slice(text)?;
            }
        }
        let _texts = mem::replace(&mut self.texts, kept);
        self.garbage = 0;
        Ok(())
    }
}
