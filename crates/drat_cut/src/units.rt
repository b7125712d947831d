//! Unit propagation at the top level. Literals stay true, since the reason of one is not deleted.
use crate::fault::CutFault;
use crate::slots::{Entry, Slot, Slots};
use crate::watches::Watches;
use crate::words::{Word, word_at};
use clause_table::Values;
use sat_formula::Lit;
use std::alloc::Global;

/// The status of a clause under the assignment.
#[derive(Clone, Copy)]
enum Standing {
    True,
    False,
    Unit(Lit),
    /// These two literals are not false, and all others before this place of the text are.
    Open(Lit, Lit, usize),
}

/// The literals that are true.
#[derive(Drop)]
pub(crate) struct Units {
    values: Values,
    /// How many literals the attached clauses have.
    stored: u64,
    watches: Watches,
    /// Those that are watched by the literal that became false.
    listed: Vec<Slot>,
    /// Some clause is false.
    pub(crate) conflict: bool,
}

impl Units {
    pub(crate) fn new(alloc: Global) -> Units {
        Units {
            values: Values::new(alloc),
            stored: 0,
            watches: Watches::new(alloc),
            listed: Vec::new(alloc),
            conflict: false,
        }
    }

    /// Returns the status of a clause, by its watched literals and those from its open place on.
    fn standing(&self, entry: &Entry, text: &[u8]) -> Standing {
        let mut kept = match entry.watched {
            Some((first, second)) if self.values.is_true(!first) => self.unfalsified(second),
            Some((first, _)) => Some(first),
            None => None,
        };
        if let Some(lit) = kept {
            if self.values.is_true(lit) {
                return Standing::True;
            }
        }
        let mut place = entry.open_from;
        for _ in entry.open_from..text.len() {
            let lit = match word_at(text, place) {
                Word::Literal(lit, next) => {
                    place = next;
                    lit
                }
                Word::Blank(next) => {
                    place = next;
                    continue;
                }
                _ => break,
            };
            if self.values.is_true(lit) {
                return Standing::True;
            }
            if self.values.is_true(!lit) || kept == Some(lit) {
                continue;
            }
            match kept {
                None => kept = Some(lit),
                Some(first) => return Standing::Open(first, lit, place),
            }
        }
        match kept {
            Some(lit) => Standing::Unit(lit),
            None => Standing::False,
        }
    }

    /// Returns a literal, if it is not false.
    fn unfalsified(&self, lit: Lit) -> Option<Lit> {
        if self.values.is_true(!lit) {
            None
        } else {
            Some(lit)
        }
    }

    /// Attaches a clause of these literals, and propagates what it implies, unless there was a
    /// conflict.
    pub(crate) fn attach(
        &mut self,
        slots: &mut Slots,
        slot: Slot,
        lits: &[Lit],
    ) -> Result<(), CutFault> {
        if self.conflict {
            return Ok(());
        }
        self.stored = self.stored.saturating_add(lits.len() as u64);
        self.values.allow(self.stored);
        self.watches.make_room(slots, slot)?;
        if self.watch_first(slots, slot, lits) {
            return Ok(());
        }
        let from = self.values.len();
        self.settle(slots, slot)?;
        self.propagate(slots, from)
    }

    /// Watches a clause by its first two literals, if they differ and have no value. Returns
    /// whether that is done.
    fn watch_first(&mut self, slots: &mut Slots, slot: Slot, lits: &[Lit]) -> bool {
        let [first, second, ..] = lits else {
            return false;
        };
        if first == second || self.has_value(*first) || self.has_value(*second) {
            return false;
        }
        if let Some(entry) = slots.get_mut(slot) {
            entry.watched = Some((*first, *second));
            self.watches.enter(slot, *first, *second);
        }
        true
    }

    /// Returns whether a literal is true or false.
    fn has_value(&self, lit: Lit) -> bool {
        self.values.is_true(lit) || self.values.is_true(!lit)
    }

    /// Removes the watches of a clause that is no reason.
    pub(crate) fn detach(&mut self, slots: &Slots, slot: Slot) {
        if let Some((first, second)) = slots.get(slot).and_then(|entry| entry.watched) {
            self.watches.leave(slot, first, second);
        }
    }

    /// Watches a clause that is in no list, if it is open, or assigns its literal, if it is unit.
    fn settle(&mut self, slots: &mut Slots, slot: Slot) -> Result<(), CutFault> {
        let Some(entry) = slots.get(slot) else {
            return Ok(());
        };
        let standing = self.standing(entry, slots.text(slot));
        let Some(entry) = slots.get_mut(slot) else {
            return Ok(());
        };
        entry.watched = None;
        match standing {
            Standing::True => {}
            Standing::False => self.conflict = true,
            Standing::Unit(lit) => {
                entry.is_reason = true;
                self.values.set(lit)?;
            }
            Standing::Open(first, second, place) => {
                entry.watched = Some((first, second));
                entry.open_from = place;
                self.watches.enter(slot, first, second);
            }
        }
        Ok(())
    }

    /// Propagates the trail from a position on.
    fn propagate(&mut self, slots: &mut Slots, from: usize) -> Result<(), CutFault> {
        // A literal becomes true once, since a clause forces none that has a value.
        for place in from..usize::MAX {
            if self.conflict {
                return Ok(());
            }
            let Some(lit) = self.values.lits().get(place).copied() else {
                return Ok(());
            };
            self.falsify(slots, !lit)?;
        }
        Ok(())
    }

    /// Settles the clauses that watch a literal which became false.
    fn falsify(&mut self, slots: &mut Slots, lit: Lit) -> Result<(), CutFault> {
        self.watches.list(slots, lit, &mut self.listed)?;
        for number in 0..self.listed.len() {
            let Some(slot) = self.listed.get(number).copied() else {
                break;
            };
            if slots
                .get(slot)
                .is_some_and(|entry| entry.is_watched_by(lit))
            {
                self.detach(slots, slot);
                self.settle(slots, slot)?;
            }
            if self.conflict {
                break;
            }
        }
        Ok(())
    }
}
