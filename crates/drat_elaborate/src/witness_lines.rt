//! The lines of a clause that is redundant by a witness.
//!
//! An LRAT line has no witness. But one fresh variable x serves, which says that a model of the
//! clauses before is one of the clause already, and need not be changed by the witness:
//!
//! - for each clause D that the witness touches and does not satisfy, `x` or the literals of D that
//!   the witness does not falsify: redundant by `x`, whose negation no clause has;
//! - the clause or `-x`, redundant by `-x`: the groups of the check are those of these clauses;
//! - each clause that the witness touches and satisfies, or `-x`, in place of that clause;
//! - each literal of the witness, or `x`: redundant by that literal;
//! - the clause itself, which follows; and the satisfied clauses again, which do too.
//!
//! Then all clauses with x are deleted.

use crate::clauses::{ClauseIndex, narrow};
use crate::fault::ElaborateFault;
use crate::forward::Forward;
use crate::lines::{Lines, id_in};
use crate::local::LocalLit;
use crate::queue::LineQueue;
use crate::records::PackedHint;
use lrat_text::Hint;
use sat_formula::Lit;
use std::alloc::Global;

/// A clause that the witness touches, and the id of its line over x.
#[derive(Clone, Copy)]
struct Touched {
    clause: ClauseIndex,
    id: u64,
}

/// The lines of a step, and what they are made of.
#[derive(Drop)]
pub(crate) struct WitnessLines {
    alloc: Global,
    pub(crate) queue: LineQueue,
    /// The literal x, once it is known: its variable is the one above the largest of the formula
    /// and the proof.
    fresh: Option<Lit>,
    /// By code of the literal, its index in the witness and 1 more; 0 if it is not in it.
    places: Vec<u32>,
    /// The clauses that are touched and not satisfied.
    reduced: Vec<Touched>,
    /// The clauses that are touched and satisfied.
    satisfied: Vec<Touched>,
    /// By index in the witness, the hints of the literal's line.
    literal_hints: Vec<Vec<Hint>>,
    /// By index in the witness, the id of the literal's line.
    literal_ids: Vec<u64>,
}

impl WitnessLines {
    pub(crate) fn new(alloc: Global) -> WitnessLines {
        WitnessLines {
            alloc,
            queue: LineQueue::new(alloc),
            fresh: None,
            places: Vec::new(alloc),
            reduced: Vec::new(alloc),
            satisfied: Vec::new(alloc),
            literal_hints: Vec::new(alloc),
            literal_ids: Vec::new(alloc),
        }
    }

    /// Begins a step.
    fn begin(&mut self, forward: &Forward, witness: &[LocalLit]) -> Result<(), ElaborateFault> {
        self.begin_lines(forward);
        self.reduced.clear();
        self.satisfied.clear();
        self.literal_ids.clear();
        for hints in self.literal_hints.iter_mut() {
            hints.clear();
        }
        for (place, lit) in witness.iter().enumerate() {
            self.enter(*lit, place)?;
        }
        Ok(())
    }

    /// Empties the queue, and determines x, if there is one.
    pub(crate) fn begin_lines(&mut self, forward: &Forward) {
        self.queue.clear();
        if self.fresh.is_none() {
            self.fresh = forward.variables.fresh_lit();
        }
    }

    /// Notes the index of a literal in the witness.
    fn enter(&mut self, lit: LocalLit, place: usize) -> Result<(), ElaborateFault> {
        if self.literal_hints.len() <= place {
            self.literal_hints.push(Vec::new(self.alloc))?;
        }
        if self.places.len() <= lit.place() {
            self.places.resize(lit.place().saturating_add(1), 0)?;
        }
        if let Some(found) = self.places.get_mut(lit.place()) {
            *found = narrow(place.saturating_add(1))?;
        }
        Ok(())
    }

    /// Adds the literal x, or its negation, to the next line.
    ///
    /// # Errors
    ///
    /// `NoFreshVariable` if there is no x.
    pub(crate) fn push_fresh(&mut self, is_negated: bool) -> Result<(), ElaborateFault> {
        let fresh = self.fresh.ok_or(ElaborateFault::NoFreshVariable)?;
        self.queue.push_lit(if is_negated { !fresh } else { fresh })
    }

    /// Returns the index of a literal in the witness, if it is in it.
    fn place_of(&self, lit: LocalLit) -> Option<usize> {
        let place = self.places.get(lit.place()).copied()? as usize;
        place.checked_sub(1)
    }

    /// Returns the index in the witness of a literal of a clause, if it has one.
    fn satisfied_at(&self, lits: &[LocalLit]) -> Option<usize> {
        for lit in lits {
            if let Some(place) = self.place_of(*lit) {
                return Some(place);
            }
        }
        None
    }

    /// Adds hints to the lines of the literals whose negations are among these.
    fn hint_literals(&mut self, lits: &[LocalLit], hints: &[Hint]) -> Result<(), ElaborateFault> {
        for lit in lits {
            if let Some(place) = self.place_of(!*lit) {
                if let Some(list) = self.literal_hints.get_mut(place) {
                    list.extend_from_slice(hints)?;
                }
            }
        }
        Ok(())
    }

    /// Adds the literals of a clause that the witness does not falsify to the next line.
    fn push_rest(&mut self, forward: &Forward, lits: &[LocalLit]) -> Result<(), ElaborateFault> {
        for lit in lits {
            if self.place_of(!*lit).is_none() {
                self.queue.push_lit(forward.variables.named(*lit)?)?;
            }
        }
        Ok(())
    }

    /// Adds the hints of a literal of the witness to the next line.
    fn push_literal_hints(&mut self, place: usize) -> Result<(), ElaborateFault> {
        if let Some(hints) = self.literal_hints.get(place) {
            for hint in hints {
                self.queue.push_hint(*hint)?;
            }
        }
        Ok(())
    }

    /// Returns the id of the line of a literal of the witness.
    ///
    /// # Errors
    ///
    /// `Internal` if it has none.
    fn literal_id(&self, place: Option<usize>) -> Result<u64, ElaborateFault> {
        let place = place.ok_or(ElaborateFault::Internal)?;
        let id = self.literal_ids.get(place).copied();
        id.ok_or(ElaborateFault::Internal)
    }

    /// Empties the table of indexes.
    fn end(&mut self, witness: &[LocalLit]) {
        for lit in witness {
            if let Some(place) = self.places.get_mut(lit.place()) {
                *place = 0;
            }
        }
    }
}

impl Lines {
    /// Queues the lines of a clause that is redundant by a witness.
    pub(crate) fn read_witnessed(
        &mut self,
        forward: &Forward,
        witness: &[LocalLit],
    ) -> Result<(), ElaborateFault> {
        let clause = self.record.clause.get().ok_or(ElaborateFault::Internal)?;
        self.by_witness.begin(forward, witness)?;
        self.clause.clear();
        self.read_clause(forward, clause)?;
        self.tell_reduced(forward)?;
        let freed = self.tell_freed(forward, clause)?;
        self.tell_satisfied(forward)?;
        self.delete_satisfied()?;
        self.tell_literals(forward, witness)?;
        self.tell_clause(clause, freed)?;
        self.tell_satisfied_again(forward)?;
        self.read_dying()?;
        self.dying.push(freed)?;
        self.end_witness(witness)
    }

    /// Queues the addition that was begun, under the next id. Returns the id.
    pub(crate) fn end_line(&mut self) -> Result<u64, ElaborateFault> {
        self.last_id = self.last_id.saturating_add(1);
        self.by_witness.queue.end_addition(self.last_id)?;
        Ok(self.last_id)
    }

    /// Queues, for each clause that is touched and not satisfied, the line of x and the rest of it.
    fn tell_reduced(&mut self, forward: &Forward) -> Result<(), ElaborateFault> {
        for place in 0..self.record.hints.len() {
            let hint = self.hint(place)?;
            if !hint.is_against() {
                continue;
            }
            let clause = hint.clause();
            forward.propagator.clauses.read(clause, &mut self.lits)?;
            if self.by_witness.satisfied_at(&self.lits).is_some() {
                self.by_witness.satisfied.push(Touched { clause, id: 0 })?;
                continue;
            }
            self.by_witness.push_fresh(false)?;
            self.by_witness.push_rest(forward, &self.lits)?;
            let id = self.end_line()?;
            self.by_witness.reduced.push(Touched { clause, id })?;
            let own = id_in(&self.ids, clause)?;
            let hints = [Hint::Against(own), Hint::Along(id)];
            self.by_witness.hint_literals(&self.lits, &hints)?;
        }
        Ok(())
    }

    /// Returns the hint of the record at an index.
    ///
    /// # Errors
    ///
    /// `Internal` if there is none.
    fn hint(&self, place: usize) -> Result<PackedHint, ElaborateFault> {
        let hint = self.record.hints.get(place).copied();
        hint.ok_or(ElaborateFault::Internal)
    }

    /// Queues the line of the clause or -x. Returns its id.
    fn tell_freed(
        &mut self,
        forward: &Forward,
        clause: ClauseIndex,
    ) -> Result<u64, ElaborateFault> {
        self.by_witness.push_fresh(true)?;
        self.push_clause()?;
        let mut reduced = 0;
        for place in 0..self.record.hints.len() {
            let hint = self.hint(place)?;
            // Without groups no hint is needed.
            if !hint.is_against() {
                if !self.by_witness.reduced.is_empty() {
                    let id = id_in(&self.ids, hint.clause())?;
                    self.by_witness.queue.push_hint(Hint::Along(id))?;
                }
                continue;
            }
            // A clause that is satisfied has no group, and no hints come after it.
            if let Some(touched) = self.by_witness.reduced.get(reduced).copied() {
                if touched.clause == hint.clause() {
                    self.by_witness.queue.push_hint(Hint::Against(touched.id))?;
                    reduced = reduced.saturating_add(1);
                }
            }
        }
        let id = self.end_line()?;
        forward.propagator.clauses.read(clause, &mut self.lits)?;
        self.by_witness
            .hint_literals(&self.lits, &[Hint::Against(id)])?;
        Ok(id)
    }

    /// Adds the literals of the clause to the next line.
    pub(crate) fn push_clause(&mut self) -> Result<(), ElaborateFault> {
        for lit in &self.clause {
            self.by_witness.queue.push_lit(*lit)?;
        }
        Ok(())
    }

    /// Queues, for each clause that is touched and satisfied, its line with -x.
    fn tell_satisfied(&mut self, forward: &Forward) -> Result<(), ElaborateFault> {
        for place in 0..self.by_witness.satisfied.len() {
            let touched = self.push_satisfied(forward, place)?;
            self.by_witness.push_fresh(true)?;
            let own = id_in(&self.ids, touched.clause)?;
            self.by_witness.queue.push_hint(Hint::Along(own))?;
            let id = self.end_line()?;
            if let Some(touched) = self.by_witness.satisfied.get_mut(place) {
                touched.id = id;
            }
            self.by_witness
                .hint_literals(&self.lits, &[Hint::Against(id)])?;
        }
        Ok(())
    }

    /// Adds the literals of the satisfied clause at an index to the next line. Returns it.
    fn push_satisfied(
        &mut self,
        forward: &Forward,
        place: usize,
    ) -> Result<Touched, ElaborateFault> {
        let touched = self.by_witness.satisfied.get(place).copied();
        let touched = touched.ok_or(ElaborateFault::Internal)?;
        forward
            .propagator
            .clauses
            .read(touched.clause, &mut self.lits)?;
        for lit in &self.lits {
            let lit = forward.variables.named(*lit)?;
            self.by_witness.queue.push_lit(lit)?;
        }
        Ok(touched)
    }

    /// Queues the deletion of the satisfied clauses.
    fn delete_satisfied(&mut self) -> Result<(), ElaborateFault> {
        for touched in &self.by_witness.satisfied {
            let own = id_in(&self.ids, touched.clause)?;
            self.by_witness.queue.push_id(own)?;
        }
        self.by_witness.queue.end_deletion()
    }

    /// Queues, for each literal of the witness, its line with x.
    fn tell_literals(
        &mut self,
        forward: &Forward,
        witness: &[LocalLit],
    ) -> Result<(), ElaborateFault> {
        for (place, lit) in witness.iter().enumerate() {
            self.by_witness
                .queue
                .push_lit(forward.variables.named(*lit)?)?;
            self.by_witness.push_fresh(false)?;
            self.by_witness.push_literal_hints(place)?;
            let id = self.end_line()?;
            self.by_witness.literal_ids.push(id)?;
        }
        Ok(())
    }

    /// Queues the line of the clause, which follows: without x by its first literal, with which the
    /// witness begins, and with x by the line of this id.
    fn tell_clause(&mut self, clause: ClauseIndex, freed: u64) -> Result<(), ElaborateFault> {
        self.push_clause()?;
        let id = self.by_witness.literal_id(Some(0))?;
        self.by_witness.queue.push_hint(Hint::Along(id))?;
        self.by_witness.queue.push_hint(Hint::Along(freed))?;
        self.name(clause)?;
        self.by_witness.queue.end_addition(self.last_id)
    }

    /// Queues the satisfied clauses, which follow again, under new ids.
    fn tell_satisfied_again(&mut self, forward: &Forward) -> Result<(), ElaborateFault> {
        for place in 0..self.by_witness.satisfied.len() {
            let touched = self.push_satisfied(forward, place)?;
            let place = self.by_witness.satisfied_at(&self.lits);
            let id = self.by_witness.literal_id(place)?;
            self.by_witness.queue.push_hint(Hint::Along(id))?;
            self.by_witness.queue.push_hint(Hint::Along(touched.id))?;
            self.name(touched.clause)?;
            self.by_witness.queue.end_addition(self.last_id)?;
        }
        Ok(())
    }

    /// Queues the deletion of all clauses with x.
    fn end_witness(&mut self, witness: &[LocalLit]) -> Result<(), ElaborateFault> {
        for touched in &self.by_witness.reduced {
            self.dying.push(touched.id)?;
        }
        for touched in &self.by_witness.satisfied {
            self.dying.push(touched.id)?;
        }
        self.dying.extend_from_slice(&self.by_witness.literal_ids)?;
        self.deletion_is_next = true;
        self.by_witness.end(witness);
        Ok(())
    }
}
