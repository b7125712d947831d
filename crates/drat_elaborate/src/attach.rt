//! Clauses are attached to the propagator and detached from it.
use crate::arena::Block;
use crate::clauses::{Clause, ClauseIndex, Use};
use crate::fault::ElaborateFault;
use crate::local::LocalLit;
use crate::propagator::Propagator;
use crate::standing::WatchStanding;
use crate::trail::{Trail, Value};
use crate::watches::{Watch, Watches};

impl Propagator {
    /// Allocates lists of the lengths that they have once all clauses so far are watched.
    pub(crate) fn make_lists(&mut self) -> Result<(), ElaborateFault> {
        let mut counts = Vec::new(self.alloc);
        counts.resize(self.trail.lit_count(), 0u32)?;
        for index in 0..self.clauses.len() {
            let found = *self.clauses.get(ClauseIndex::new(index)?)?;
            if found.is_tautology {
                continue;
            }
            if let [first, second, ..] = self.clauses.arena.lits(found.block)? {
                count(counts.as_mut_slice(), *first);
                count(counts.as_mut_slice(), *second);
            }
        }
        self.unused.reserve(&counts)?;
        Ok(())
    }

    /// Watches the first two literals of a clause.
    pub(crate) fn watch(&mut self, clause: &Clause) -> Result<(), ElaborateFault> {
        let block = clause.block;
        let (first, second, is_binary) = self.clauses.arena.watched(block)?;
        let lists = self.lists_of(clause.used);
        lists.push(first, Watch::new(block, second, is_binary))?;
        lists.push(second, Watch::new(block, first, is_binary))
    }

    /// Removes the watches of a clause's first two literals.
    pub(crate) fn unwatch(&mut self, clause: &Clause) -> Result<(), ElaborateFault> {
        let (first, second, _) = self.clauses.arena.watched(clause.block)?;
        let lists = self.lists_of(clause.used);
        lists.unwatch(first, clause.block)?;
        lists.unwatch(second, clause.block)
    }

    /// Returns the watch lists of the clauses with this use.
    pub(crate) fn lists_of(&mut self, used: Use) -> &mut Watches {
        match used {
            Use::Never | Use::Wanted => &mut self.unused,
            Use::Dying => &mut self.dying.watches,
            Use::Before => &mut self.used,
            Use::Lately | Use::Now => &mut self.lately,
        }
    }

    /// Notes that the clause is used in this round. Returns whether it was never used before.
    #[inline(always)]
    pub(crate) fn make_core(&mut self, clause: ClauseIndex) -> Result<bool, ElaborateFault> {
        let found = self.clauses.get_mut(clause)?;
        let used = found.used;
        if used == Use::Now || used == Use::Lately || !found.is_watched {
            found.used = Use::Now;
            return Ok(used.is_none());
        }
        self.watch_lately(clause, used)
    }

    /// Moves the watches of a clause to the lists of those that were used lately. Returns whether
    /// it was never used before.
    fn watch_lately(&mut self, clause: ClauseIndex, used: Use) -> Result<bool, ElaborateFault> {
        self.recent.remove(clause);
        self.dying.note_need(used);
        self.change_use(clause, Use::Now)?;
        self.used_lately.push(clause)?;
        Ok(used.is_none())
    }

    /// Moves the watches of a clause to the lists of those with this use.
    fn change_use(&mut self, clause: ClauseIndex, used: Use) -> Result<(), ElaborateFault> {
        let mut found = *self.clauses.get(clause)?;
        self.unwatch(&found)?;
        found.used = used;
        *self.clauses.get_mut(clause)? = found;
        self.watch(&found)
    }

    /// Ends a round of checks. Clauses that were used neither in it nor in the one before move to
    /// those that were used before.
    pub(crate) fn end_round(&mut self) -> Result<(), ElaborateFault> {
        let mut kept = 0;
        for place in 0..self.used_lately.len() {
            let Some(clause) = self.used_lately.get(place).copied() else {
                break;
            };
            if self.is_kept(clause)? {
                if let Some(slot) = self.used_lately.get_mut(kept) {
                    *slot = clause;
                }
                kept = kept.saturating_add(1);
            }
        }
        self.used_lately.truncate(kept);
        Ok(())
    }

    /// Returns whether a clause stays among those that were used lately.
    fn is_kept(&mut self, clause: ClauseIndex) -> Result<bool, ElaborateFault> {
        let found = self.clauses.get_mut(clause)?;
        if !found.is_active {
            found.used = Use::Before;
            return Ok(false);
        }
        if found.used == Use::Now {
            found.used = Use::Lately;
            return Ok(true);
        }
        self.change_use(clause, Use::Before)?;
        Ok(false)
    }

    /// Removes the watches of a clause that is deleted; it keeps its block. Returns its entry.
    pub(crate) fn detach(&mut self, clause: ClauseIndex) -> Result<Clause, ElaborateFault> {
        let found = self.clauses.get_mut(clause)?;
        found.is_active = false;
        let found = *found;
        if found.is_watched {
            self.recent.remove(clause);
            self.unwatch(&found)?;
        }
        Ok(found)
    }

    /// Undoes a deletion: the clause is live again.
    pub(crate) fn restore(&mut self, clause: ClauseIndex) -> Result<(), ElaborateFault> {
        let mut found = self.clauses.restore(clause)?;
        if found.is_watched {
            found.used = self.use_of_restored(clause, found.used)?;
            *self.clauses.get_mut(clause)? = found;
            choose_watches(self.clauses.arena.lits_mut(found.block)?, &self.trail);
            self.watch(&found)?;
            if found.used.is_none() || found.used == Use::Wanted {
                self.recent.insert(clause)?;
            }
        }
        Ok(())
    }

    /// Returns whether the clause is the reason of a literal on the trail.
    pub(crate) fn is_reason(&self, clause: ClauseIndex) -> Result<bool, ElaborateFault> {
        let block = self.clauses.get(clause)?.block;
        let lits = self.clauses.arena.lits(block)?;
        Ok(
            lits.iter().take(2).any(|lit| {
                self.trail.value(*lit) == Value::True && self.trail.reason(*lit) == Some(block)
            }),
        )
    }

    /// Attaches a clause under the present assignment and propagates. Returns the clause of a
    /// conflict, if there is one.
    pub(crate) fn attach(&mut self, clause: ClauseIndex) -> Result<Option<Block>, ElaborateFault> {
        let found = *self.clauses.get(clause)?;
        if found.is_tautology {
            return Ok(None);
        }
        let block = found.block;
        let lits = self.clauses.arena.lits_mut(block)?;
        choose_watches(lits, &self.trail);
        let standing = WatchStanding::of(lits, self.trail.values());
        if let WatchStanding::True = standing {
            return Ok(None);
        }
        if lits.len() >= 2 {
            self.watch(&found)?;
            self.clauses.get_mut(clause)?.is_watched = true;
            self.recent.insert(clause)?;
        }
        match standing {
            WatchStanding::False => Ok(Some(block)),
            WatchStanding::Unit(lit) => {
                let end = self.trail.len();
                self.trail.assign(lit, block)?;
                self.propagate(end)
            }
            WatchStanding::True | WatchStanding::Open => Ok(None),
        }
    }
}

/// Counts a literal.
fn count(counts: &mut [u32], lit: LocalLit) {
    if let Some(count) = counts.get_mut(lit.place()) {
        *count = count.saturating_add(1);
    }
}

/// Moves the two best literals to watch to the front. If all are unassigned, any two are.
fn choose_watches(lits: &mut [LocalLit], trail: &Trail) {
    if trail.len() == 0 {
        return;
    }
    for place in 0..2 {
        let best = best_from(lits, place, trail);
        if place < lits.len() && best < lits.len() {
            lits.swap(place, best);
        }
    }
}

/// Returns the position of the best literal to watch from a position on.
fn best_from(lits: &[LocalLit], first: usize, trail: &Trail) -> usize {
    let mut best = first;
    let mut best_rank = 0;
    for (place, lit) in lits.iter().enumerate().skip(first) {
        let rank = trail.rank(*lit);
        if rank > best_rank {
            best = place;
            best_rank = rank;
        }
    }
    best
}
