//! The lists of watches.
use crate::clause::mixed;
use crate::slots::{Slot, Slots};
use sat_formula::Lit;
use std::alloc::{AllocError, Global};
use std::mem;

/// One of the two watches of a clause, or none.
#[derive(Clone, Copy)]
struct Watch(u32);

impl Watch {
    const NONE: Watch = Watch(u32::MAX);

    /// Returns the watches of a clause by its first and its second watched literal.
    fn both(slot: Slot) -> (Watch, Watch) {
        let first = slot.0 << 1;
        (Watch(first), Watch(first | 1))
    }

    fn slot(self) -> Slot {
        Slot(self.0 >> 1)
    }

    /// Returns its place in the table. For none there is no such place.
    fn place(self) -> usize {
        self.0 as usize
    }
}

/// The watches before and after one in its list.
#[derive(Clone, Copy)]
struct Neighbours {
    before: Watch,
    after: Watch,
}

/// The watches of the clauses, in lists by a hash of the literal.
#[derive(Drop)]
pub(crate) struct Watches {
    heads: Vec<Watch>,
    links: Vec<Neighbours>,
}

impl Watches {
    const FIRST_SIZE: usize = 1024;

    pub(crate) fn new(alloc: Global) -> Watches {
        Watches {
            heads: Vec::new(alloc),
            links: Vec::new(alloc),
        }
    }

    /// Makes room for the watches of a slot.
    pub(crate) fn make_room(&mut self, slots: &Slots, slot: Slot) -> Result<(), AllocError> {
        let (_, second) = Watch::both(slot);
        let alone = Neighbours {
            before: Watch::NONE,
            after: Watch::NONE,
        };
        for _ in self.links.len()..second.place().saturating_add(1) {
            self.links.push(alone)?;
        }
        if slots.len() > self.heads.len() {
            self.grow(slots)?;
        }
        Ok(())
    }

    /// Makes at least as many lists as there are slots, and enters all watches.
    #[cold]
    fn grow(&mut self, slots: &Slots) -> Result<(), AllocError> {
        let wanted = slots.len().max(Watches::FIRST_SIZE);
        let size = wanted.checked_next_power_of_two().unwrap_or(wanted);
        self.heads.clear();
        self.heads.resize(size, Watch::NONE)?;
        for number in 0..slots.len() {
            if let Some(slot) = slots.living(number) {
                if let Some((first, second)) = slots.get(slot).and_then(|entry| entry.watched) {
                    self.enter(slot, first, second);
                }
            }
        }
        Ok(())
    }

    /// Enters a clause into the lists of two literals.
    pub(crate) fn enter(&mut self, slot: Slot, first: Lit, second: Lit) {
        let (one, other) = Watch::both(slot);
        self.link(one, first);
        self.link(other, second);
    }

    /// Takes a clause out of the lists of the two literals that it is watched by.
    pub(crate) fn leave(&mut self, slot: Slot, first: Lit, second: Lit) {
        let (one, other) = Watch::both(slot);
        self.unlink(one, first);
        self.unlink(other, second);
    }

    fn link(&mut self, watch: Watch, lit: Lit) {
        let Some(head) = head_of(&mut self.heads, lit) else {
            return;
        };
        let after = mem::replace(head, watch);
        if let Some(link) = self.links.get_mut(watch.place()) {
            *link = Neighbours {
                before: Watch::NONE,
                after,
            };
        }
        if let Some(link) = self.links.get_mut(after.place()) {
            link.before = watch;
        }
    }

    fn unlink(&mut self, watch: Watch, lit: Lit) {
        let Some(Neighbours { before, after }) = self.links.get(watch.place()).copied() else {
            return;
        };
        if let Some(link) = self.links.get_mut(before.place()) {
            link.after = after;
        } else if let Some(head) = head_of(&mut self.heads, lit) {
            *head = after;
        }
        if let Some(link) = self.links.get_mut(after.place()) {
            link.before = before;
        }
    }

    /// Writes down the clauses that are watched by a literal.
    pub(crate) fn list(
        &mut self,
        slots: &Slots,
        lit: Lit,
        found: &mut Vec<Slot>,
    ) -> Result<(), AllocError> {
        found.clear();
        let Some(head) = head_of(&mut self.heads, lit) else {
            return Ok(());
        };
        let mut watch = *head;
        for _ in 0..self.links.len() {
            let Some(link) = self.links.get(watch.place()) else {
                break;
            };
            let slot = watch.slot();
            if slots
                .get(slot)
                .is_some_and(|entry| entry.is_watched_by(lit))
            {
                found.push(slot)?;
            }
            watch = link.after;
        }
        Ok(())
    }
}

/// Returns the head of the list of a literal, if there are lists.
#[inline(always)]
fn head_of(heads: &mut Vec<Watch>, lit: Lit) -> Option<&mut Watch> {
    let mask = heads.len().wrapping_sub(1);
    let hash = mixed(lit.code() as u64) >> 32;
    heads.get_mut(hash as usize & mask)
}
