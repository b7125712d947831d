//! The backward pass: the clauses that the conflict needs are checked, the last step first.
use crate::arena::Block;
use crate::check::Check;
use crate::clauses::{ClauseIndex, ClauseLink, Use};
use crate::fault::ElaborateFault;
use crate::hinted::GivenHints;
use crate::local::LocalLit;
use crate::occurrences::Occurrences;
use crate::propagator::Propagator;
use crate::records::Records;
use crate::redundancy::is_redundant;
use crate::steps::{Step, Steps};
use crate::witnesses::Witnesses;
use std::alloc::Global;

/// A round has this many checks. Clauses that were used in this one or in the one before are
/// propagated first.
const CHECKS_A_ROUND: u32 = 512;

/// What the pass works with, and what it found.
#[derive(Drop)]
pub(crate) struct Backward {
    alloc: Global,
    check: Check,
    /// The hints that the proof gives.
    pub(crate) given: GivenHints,
    /// The witnesses that it gives.
    pub(crate) witnesses: Witnesses,
    /// The occurrences of literals, once a clause is checked for redundancy.
    occurrences: Option<Occurrences>,
    /// The literals of that clause.
    lits: Vec<LocalLit>,
    pub(crate) records: Records,
    /// The number of the first lemma.
    formula_len: usize,
    /// How many clauses were checked in this round.
    in_round: u32,
    /// How many clauses were checked.
    pub(crate) checked: u64,
}

impl Backward {
    pub(crate) fn new(alloc: Global) -> Backward {
        Backward {
            alloc,
            check: Check::new(alloc),
            given: GivenHints::new(alloc),
            witnesses: Witnesses::new(alloc),
            occurrences: None,
            lits: Vec::new(alloc),
            records: Records::new(alloc),
            formula_len: 0,
            in_round: 0,
            checked: 0,
        }
    }

    /// Records the line of the empty clause. If the proof adds it itself, it is checked as a step.
    pub(crate) fn begin(
        &mut self,
        propagator: &mut Propagator,
        formula_len: usize,
        conflict: Block,
    ) -> Result<(), ElaborateFault> {
        self.formula_len = formula_len;
        let is_empty = propagator.clauses.arena.lits(conflict)?.is_empty();
        let clause = propagator.clauses.arena.clause(conflict)?;
        if is_empty && clause.get() >= formula_len {
            propagator.clauses.get_mut(clause)?.used = Use::Now;
            return Ok(());
        }
        self.check.start()?;
        self.check.explain(propagator, conflict)?;
        self.record(ClauseLink::none())
    }

    /// Begins a piece of a proof, without a line of the empty clause: the target clauses are marked
    /// as used already.
    pub(crate) fn begin_piece(&mut self, formula_len: usize) {
        self.formula_len = formula_len;
    }

    /// Frees the memory that only checks need.
    pub(crate) fn end(&mut self) {
        self.check = Check::new(self.alloc);
        self.given = GivenHints::new(self.alloc);
        self.occurrences = None;
        self.lits = Vec::new(self.alloc);
    }

    /// Takes the last step off and undoes it. Does nothing if no step is left.
    pub(crate) fn undo_last(
        &mut self,
        propagator: &mut Propagator,
        steps: &mut Steps,
    ) -> Result<(), ElaborateFault> {
        match steps.pop() {
            Some(Step::Add(clause)) => {
                self.undo_addition(propagator, steps, clause)?;
                self.given.drop_last_of(clause);
                propagator.begin_deletions(steps.pop_batch(), steps.len())
            }
            Some(Step::Delete(clause)) => propagator.restore(clause),
            Some(Step::Nothing) | None => Ok(()),
        }
    }

    /// Undoes the addition of a clause: deletes it and restores the trail, and checks the clause if
    /// it is used.
    ///
    /// # Errors
    ///
    /// `NotRedundant` or `NotRedundantByWitness` if the check fails.
    fn undo_addition(
        &mut self,
        propagator: &mut Propagator,
        steps: &mut Steps,
        clause: ClauseIndex,
    ) -> Result<(), ElaborateFault> {
        if let Some(len) = steps.pop_growth() {
            propagator.trail.cut(len);
        }
        let is_used = propagator.detach(clause)?.is_core();
        propagator.recent.pass(is_used);
        if is_used {
            if !self.check_clause(propagator, clause)? {
                return Err(self.refusal(clause, steps.len().saturating_add(1)));
            }
            self.checked = self.checked.saturating_add(1);
            self.enter_fresh(propagator)?;
            self.record(ClauseLink::to(clause))?;
        }
        propagator.clauses.free(clause)
    }

    /// Returns why the step that adds a clause is rejected.
    fn refusal(&self, clause: ClauseIndex, step: u64) -> ElaborateFault {
        match self.witnesses.of(clause) {
            Some(_) => ElaborateFault::NotRedundantByWitness { step },
            None => ElaborateFault::NotRedundant { step },
        }
    }

    /// Returns whether a clause follows, or is redundant by its witness or on its pivot. The hints
    /// are left in the check.
    fn check_clause(
        &mut self,
        propagator: &mut Propagator,
        clause: ClauseIndex,
    ) -> Result<bool, ElaborateFault> {
        self.check.start()?;
        self.count_check(propagator)?;
        propagator.recent.begin(clause.get(), self.formula_len);
        let end = propagator.trail.len();
        let is_accepted = match self.refute(propagator, clause)? {
            Some(conflict) => {
                self.check.explain(propagator, conflict)?;
                true
            }
            None => self.check_redundant(propagator, clause)?,
        };
        propagator.trail.cut(end);
        Ok(is_accepted)
    }

    /// Counts a check, and ends the round after the last of it.
    fn count_check(&mut self, propagator: &mut Propagator) -> Result<(), ElaborateFault> {
        self.in_round = self.in_round.saturating_add(1);
        if self.in_round == CHECKS_A_ROUND {
            self.in_round = 0;
            propagator.end_round()?;
        }
        Ok(())
    }

    /// Assumes the negated literals of a clause. Returns the clause of a conflict, by the given
    /// hints or else by propagation.
    fn refute(
        &mut self,
        propagator: &mut Propagator,
        clause: ClauseIndex,
    ) -> Result<Option<Block>, ElaborateFault> {
        let end = propagator.trail.len();
        let hints = self.given.last_of(clause);
        if hints.is_empty() {
            return self.check.refute(propagator, clause);
        }
        let conflict = self.check.refute_along(propagator, clause, hints)?;
        if conflict.is_some() {
            return Ok(conflict);
        }
        propagator.trail.cut(end);
        self.check.refute(propagator, clause)
    }

    /// Returns whether a clause that does not follow is redundant by its witness, or on its pivot.
    /// The hints are left in the check.
    fn check_redundant(
        &mut self,
        propagator: &mut Propagator,
        clause: ClauseIndex,
    ) -> Result<bool, ElaborateFault> {
        propagator.clauses.read(clause, &mut self.lits)?;
        let Some(pivot) = self.lits.get(..1) else {
            return Ok(false);
        };
        let witness = self.witnesses.of(clause).unwrap_or(pivot);
        // The first such clause comes behind the others: what is collected for it serves them too.
        if self.occurrences.is_none() {
            let clauses = &propagator.clauses;
            self.occurrences = Some(Occurrences::collect(self.alloc, clauses, clause)?);
        }
        match &mut self.occurrences {
            Some(occurrences) => {
                is_redundant(
                    self.alloc,
                    propagator,
                    &mut self.check,
                    occurrences,
                    witness,
                )
            }
            None => Err(ElaborateFault::Internal),
        }
    }

    /// Enters the occurrences of the clauses that the check used first, if any are kept.
    fn enter_fresh(&mut self, propagator: &Propagator) -> Result<(), ElaborateFault> {
        match &mut self.occurrences {
            Some(occurrences) => { occurrences.enter_all(&propagator.clauses, &self.check.fresh) }
            None => Ok(()),
        }
    }

    /// Records the hints of the check and the clauses that it used first.
    fn record(&mut self, clause: ClauseLink) -> Result<(), ElaborateFault> {
        self.records.push(
            clause,
            &self.check.leading,
            &self.check.groups,
            &self.check.fresh,
        )
    }
}
