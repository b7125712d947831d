//! The check of one clause by propagation, and conflict analysis.
use crate::arena::Block;
use crate::clauses::ClauseIndex;
use crate::fault::ElaborateFault;
use crate::lit_set::LitSet;
use crate::local::LocalLit;
use crate::place_set::PlaceSet;
use crate::propagator::Propagator;
use crate::records::PackedHint;
use crate::trail::{Trail, Value};
use std::alloc::Global;

/// Which literals are assumed in addition to the negated literals of the clause.
#[derive(Clone, Copy, PartialEq, Eq)]
pub(crate) enum Assumed {
    Clause,
    /// The negated literals of the candidate too.
    Group,
}

/// Whether visited positions stay marked.
#[derive(Clone, Copy, PartialEq, Eq)]
pub(crate) enum After {
    Keep,
    Forget,
}

/// What a check works with, and what it found.
#[derive(Drop)]
pub(crate) struct Check {
    /// The negated literals of the clause.
    pub(crate) by_clause: LitSet,
    /// The negated literals of the candidate.
    pub(crate) by_group: LitSet,
    /// The literals by which the clause may be redundant.
    pub(crate) by_witness: LitSet,
    /// The positions of the trail whose reasons are needed.
    pub(crate) wanted: PlaceSet,
    /// The hints before the groups, the last one first.
    pub(crate) leading: Vec<ClauseIndex>,
    pub(crate) groups: Vec<PackedHint>,
    /// The clauses that were not used before.
    pub(crate) fresh: Vec<ClauseIndex>,
    /// The reasons that an analysis found, from the conflict on.
    walked: Vec<ClauseIndex>,
}

impl Check {
    pub(crate) fn new(alloc: Global) -> Check {
        Check {
            by_clause: LitSet::new(alloc),
            by_group: LitSet::new(alloc),
            by_witness: LitSet::new(alloc),
            wanted: PlaceSet::new(alloc),
            leading: Vec::new(alloc),
            groups: Vec::new(alloc),
            fresh: Vec::new(alloc),
            walked: Vec::new(alloc),
        }
    }

    /// Clears the assumptions and the hints.
    pub(crate) fn start(&mut self) -> Result<(), ElaborateFault> {
        self.by_clause.clear()?;
        self.leading.clear();
        self.groups.clear();
        self.fresh.clear();
        Ok(())
    }

    /// Assumes the negated literals of a clause and propagates. Returns the clause of a conflict,
    /// or the reason of a literal of the clause that is true already.
    pub(crate) fn refute(
        &mut self,
        propagator: &mut Propagator,
        clause: ClauseIndex,
    ) -> Result<Option<Block>, ElaborateFault> {
        let end = propagator.trail.len();
        let satisfied = self.assume(propagator, clause)?;
        if satisfied.is_some() {
            return Ok(satisfied);
        }
        propagator.propagate(end)
    }

    /// Assumes the negated literals of a clause. Returns the reason of a literal of the clause that
    /// is true already, if there is one.
    pub(crate) fn assume(
        &mut self,
        propagator: &mut Propagator,
        clause: ClauseIndex,
    ) -> Result<Option<Block>, ElaborateFault> {
        let mut satisfied = None;
        for lit in propagator.clauses.lits(clause)? {
            if propagator.trail.value(*lit) == Value::True {
                satisfied = propagator.trail.reason(*lit);
            }
            self.by_clause.insert(!*lit)?;
        }
        if satisfied.is_some() {
            return Ok(satisfied);
        }
        for lit in propagator.clauses.lits(clause)? {
            if propagator.trail.value(*lit) == Value::Free {
                propagator.trail.assign(!*lit, Block::none())?;
            }
        }
        Ok(None)
    }

    /// Finds the leading hints that lead to a conflict in a clause.
    pub(crate) fn explain(
        &mut self,
        propagator: &mut Propagator,
        conflict: Block,
    ) -> Result<(), ElaborateFault> {
        self.wanted.make_room(propagator.trail.len())?;
        self.want_negated(propagator, conflict, Assumed::Clause)?;
        let conflict = self.use_clause(propagator, conflict)?;
        self.leading.push(conflict)?;
        self.explain_wanted(propagator)
    }

    /// Finds the leading hints that imply the marked literals of the trail.
    pub(crate) fn explain_wanted(
        &mut self,
        propagator: &mut Propagator,
    ) -> Result<(), ElaborateFault> {
        self.walk(propagator, 0, Assumed::Clause, After::Forget)?;
        self.leading.extend_from_slice(&self.walked)?;
        Ok(())
    }

    /// Finds the hints of a RAT candidate that lead to a conflict in a clause, beyond the trail up
    /// to a position.
    pub(crate) fn explain_group(
        &mut self,
        propagator: &mut Propagator,
        conflict: Block,
        end: usize,
    ) -> Result<(), ElaborateFault> {
        self.wanted.make_room(propagator.trail.len())?;
        self.want_negated(propagator, conflict, Assumed::Group)?;
        let conflict = self.use_clause(propagator, conflict)?;
        self.walk(propagator, end, Assumed::Group, After::Forget)?;
        for reason in self.walked.iter().rev() {
            self.groups.push(PackedHint::along(*reason))?;
        }
        self.groups.push(PackedHint::along(conflict))?;
        Ok(())
    }

    /// Marks a clause as used. Returns its number.
    #[inline(always)]
    fn use_clause(
        &mut self,
        propagator: &mut Propagator,
        block: Block,
    ) -> Result<ClauseIndex, ElaborateFault> {
        let clause = propagator.clauses.arena.clause(block)?;
        if propagator.make_core(clause)? {
            self.fresh.push(clause)?;
        }
        Ok(clause)
    }

    /// Marks the position of a literal's variable on the trail.
    pub(crate) fn want(
        &mut self,
        propagator: &Propagator,
        lit: LocalLit,
    ) -> Result<(), ElaborateFault> {
        self.wanted.make_room(propagator.trail.len())?;
        self.wanted.insert(propagator.trail.place(lit)?);
        Ok(())
    }

    /// Marks the positions of a clause's literals, except those whose negations are assumed for the
    /// candidate.
    #[inline(always)]
    fn want_negated(
        &mut self,
        propagator: &Propagator,
        block: Block,
        assumed: Assumed,
    ) -> Result<(), ElaborateFault> {
        let lits = propagator.clauses.arena.lits(block)?;
        match assumed {
            Assumed::Clause => self.want_all(&propagator.trail, lits),
            Assumed::Group => self.want_ungrouped(&propagator.trail, lits),
        }
    }

    /// Marks the positions of literals.
    #[inline(always)]
    fn want_all(&mut self, trail: &Trail, lits: &[LocalLit]) -> Result<(), ElaborateFault> {
        for lit in lits {
            self.wanted.insert(trail.place(*lit)?);
        }
        Ok(())
    }

    /// Marks the positions of literals whose negations are not assumed for the candidate.
    fn want_ungrouped(&mut self, trail: &Trail, lits: &[LocalLit]) -> Result<(), ElaborateFault> {
        for lit in lits {
            if !self.by_group.contains(!*lit) {
                self.wanted.insert(trail.place(*lit)?);
            }
        }
        Ok(())
    }

    /// Visits the marked positions from one on, the last first, and collects the reason of each,
    /// whose literals it marks in turn.
    pub(crate) fn walk(
        &mut self,
        propagator: &mut Propagator,
        from: usize,
        assumed: Assumed,
        after: After,
    ) -> Result<(), ElaborateFault> {
        self.walked.clear();
        let first = from / 64;
        let mut end = self.wanted.word_count();
        // Each word is gone through at most once.
        for _ in first..end {
            let Some(word) = self.wanted.word_before(end) else {
                break;
            };
            if word < first {
                break;
            }
            let within = if word == first {
                u64::MAX.wrapping_shl((from % 64) as u32)
            } else {
                u64::MAX
            };
            let done = self.walk_word(propagator, word, within, assumed)?;
            if after == After::Forget {
                self.wanted.remove(word, done);
            }
            end = word;
        }
        Ok(())
    }

    /// Visits the marked positions of a word. Returns which were marked.
    fn walk_word(
        &mut self,
        propagator: &mut Propagator,
        word: usize,
        within: u64,
        assumed: Assumed,
    ) -> Result<u64, ElaborateFault> {
        let mut done = 0u64;
        // Each place of the word is gone through once.
        for _ in 0..64 {
            let open = self.wanted.word(word) & within & !done;
            if open == 0 {
                break;
            }
            let bit = 63u32.saturating_sub(open.leading_zeros());
            done |= 1u64.wrapping_shl(bit);
            let place = word.wrapping_mul(64).wrapping_add(bit as usize);
            self.walk_place(propagator, place, assumed)?;
        }
        Ok(done)
    }

    /// Visits a position: collects the reason of its literal, if it has one, and marks the literals
    /// of that.
    fn walk_place(
        &mut self,
        propagator: &mut Propagator,
        place: usize,
        assumed: Assumed,
    ) -> Result<(), ElaborateFault> {
        let lit = propagator.trail.get(place).ok_or(ElaborateFault::Internal)?;
        if self.by_clause.contains(lit) {
            return Ok(());
        }
        if let Some(reason) = propagator.trail.reason(lit) {
            self.want_negated(propagator, reason, assumed)?;
            let reason = self.use_clause(propagator, reason)?;
            self.walked.push(reason)?;
        }
        Ok(())
    }
}
