//! The unused clauses that the proof deletes soon, which are visited last.
//!
//! A solver deletes many clauses at once, and keeps those that it used. So of the clauses that the
//! backward pass restores with many others few are needed before the batch of deletions that comes
//! next, towards the beginning. Of some proofs many are: there they are visited with the others, as
//! they are near the beginning, where few clauses are live.
use crate::clauses::{ClauseIndex, Use};
use crate::fault::ElaborateFault;
use crate::local::LocalLit;
use crate::propagator::Propagator;
use crate::watches::Watches;
use std::alloc::Global;

/// Clauses of a batch are visited last if at most one of this many unused ones that came into use
/// was such a clause.
const RARE: u64 = 32;

/// They are visited last while at least this many steps are left.
const MANY_STEPS: u64 = 100_000;

/// The clauses of the last batch that was restored.
#[derive(Drop)]
pub(crate) struct Dying {
    /// The watches of those that are still unused.
    pub(crate) watches: Watches,
    clauses: Vec<ClauseIndex>,
    /// The clauses that are restored now are visited last.
    is_open: bool,
    /// How many of them came into use, and how many other unused clauses. Both are halved at each
    /// batch.
    needed: u64,
    others: u64,
}

impl Dying {
    pub(crate) fn new(alloc: Global) -> Dying {
        Dying {
            watches: Watches::new(alloc, Use::Dying),
            clauses: Vec::new(alloc),
            is_open: false,
            needed: 0,
            others: 0,
        }
    }

    /// Returns whether there are no such clauses.
    #[inline(always)]
    pub(crate) fn is_empty(&self) -> bool {
        self.clauses.is_empty()
    }

    /// Notes that a clause of this use came into use in this round.
    #[inline(always)]
    pub(crate) fn note_need(&mut self, used: Use) {
        match used {
            Use::Dying => self.needed = self.needed.saturating_add(1),
            Use::Never => self.others = self.others.saturating_add(1),
            Use::Wanted | Use::Before | Use::Lately | Use::Now => {}
        }
    }

    /// Begins a batch before which there are this many steps.
    fn begin_batch(&mut self, left: u64) {
        self.is_open = left >= MANY_STEPS && self.needed.saturating_mul(RARE) <= self.others;
        self.needed /= 2;
        self.others /= 2;
    }
}

impl Propagator {
    /// Notes whether the deletions that are undone next, of this many steps that are left, are a
    /// batch. If so, the clauses of the batch before are no longer visited last.
    pub(crate) fn begin_deletions(
        &mut self,
        is_batch: bool,
        left: u64,
    ) -> Result<(), ElaborateFault> {
        if !is_batch {
            self.dying.is_open = false;
            return Ok(());
        }
        self.dying.begin_batch(left);
        if self.dying.is_empty() {
            return Ok(());
        }
        self.dying.watches.clean_all(&mut self.clauses)?;
        self.revive_all()
    }

    /// Returns the use of a clause that is restored.
    pub(crate) fn use_of_restored(
        &mut self,
        clause: ClauseIndex,
        used: Use,
    ) -> Result<Use, ElaborateFault> {
        if !self.dying.is_open || used != Use::Never {
            return Ok(used);
        }
        self.dying.clauses.push(clause)?;
        Ok(Use::Dying)
    }

    /// Moves the watches of the clauses that are visited last to those of the other unused ones.
    /// None of their lists is stale.
    fn revive_all(&mut self) -> Result<(), ElaborateFault> {
        for place in 0..self.dying.clauses.len() {
            if let Some(clause) = self.dying.clauses.get(place).copied() {
                self.revive(clause)?;
            }
        }
        self.dying.clauses.clear();
        Ok(())
    }

    /// Makes a clause one of the other unused ones, with all that its literals watch.
    fn revive(&mut self, clause: ClauseIndex) -> Result<(), ElaborateFault> {
        let found = self.clauses.get_mut(clause)?;
        if found.used != Use::Dying {
            return Ok(());
        }
        found.used = Use::Never;
        let found = *found;
        if found.is_active && found.is_watched {
            let (first, second, _) = self.clauses.arena.watched(found.block)?;
            self.join_lists(first)?;
            self.join_lists(second)?;
        }
        Ok(())
    }

    /// Moves the watches of a literal to those of the other unused clauses.
    fn join_lists(&mut self, lit: LocalLit) -> Result<(), ElaborateFault> {
        for watch in &self.dying.watches.take(lit) {
            self.unused.push(lit, *watch)?;
        }
        Ok(())
    }
}
