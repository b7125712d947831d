//! The lines of the checked clauses, in order.
use crate::clauses::{ClauseIndex, narrow};
use crate::fault::ElaborateFault;
use crate::forward::Forward;
use crate::local::LocalLit;
use crate::records::{Record, Records};
use crate::witness_lines::WitnessLines;
use crate::witnesses::Witnesses;
use lrat_text::Hint;
use sat_formula::Lit;
use std::alloc::Global;

/// The ids of the clauses so far, and the lists of the present line.
#[derive(Drop)]
pub(crate) struct Lines {
    /// By number of the clause; 0 if it has none yet.
    pub(crate) ids: Vec<u32>,
    pub(crate) last_id: u64,
    pub(crate) clause: Vec<Lit>,
    pub(crate) hints: Vec<Hint>,
    pub(crate) dying: Vec<u64>,
    /// The deletion of `dying` is the next line.
    pub(crate) deletion_is_next: bool,
    is_begun: bool,
    /// A clause of the formula that is not used has no id.
    pub(crate) only_used: bool,
    /// The record that is read.
    pub(crate) record: Record,
    /// The literals of its clause, as they are numbered here.
    pub(crate) lits: Vec<LocalLit>,
    /// The lines of a clause that is redundant by a witness.
    pub(crate) by_witness: WitnessLines,
}

impl Lines {
    pub(crate) fn new(alloc: Global) -> Lines {
        Lines {
            ids: Vec::new(alloc),
            last_id: 0,
            clause: Vec::new(alloc),
            hints: Vec::new(alloc),
            dying: Vec::new(alloc),
            deletion_is_next: false,
            is_begun: false,
            only_used: false,
            record: Record::new(alloc),
            lits: Vec::new(alloc),
            by_witness: WitnessLines::new(alloc),
        }
    }

    /// Gives the clauses of the formula their ids; those that are not used are deleted first, or
    /// get none.
    pub(crate) fn begin(&mut self, forward: &Forward) -> Result<(), ElaborateFault> {
        if self.is_begun {
            return Ok(());
        }
        self.is_begun = true;
        let clauses = &forward.propagator.clauses;
        self.ids.resize(clauses.len(), 0)?;
        for index in 0..forward.formula_len {
            let clause = ClauseIndex::new(index)?;
            if clauses.get(clause)?.is_core() {
                self.name(clause)?;
            } else if !self.only_used {
                self.name(clause)?;
                self.dying.push(self.last_id)?;
            }
        }
        self.deletion_is_next = !self.dying.is_empty();
        Ok(())
    }

    /// Returns whether the next line is a deletion, which is so at most once.
    pub(crate) fn take_deletion(&mut self) -> bool {
        let is_next = self.deletion_is_next;
        self.deletion_is_next = false;
        is_next
    }

    /// Reads the last record into the lists, and takes it off. Returns whether there was one. If
    /// its clause is redundant by a witness, its lines are queued instead.
    pub(crate) fn read(
        &mut self,
        forward: &Forward,
        witnesses: &Witnesses,
        records: &mut Records,
    ) -> Result<bool, ElaborateFault> {
        if !records.pop(&mut self.record)? {
            return Ok(false);
        }
        if let Some(witness) = witnesses.of_record(&self.record) {
            self.read_witnessed(forward, witness)?;
            return Ok(true);
        }
        self.read_hints()?;
        self.clause.clear();
        match self.record.clause.get() {
            Some(clause) => {
                self.read_clause(forward, clause)?;
                self.name(clause)?;
            }
            None => self.last_id = self.last_id.saturating_add(1),
        }
        self.read_dying()?;
        self.deletion_is_next = !self.dying.is_empty() && !self.clause.is_empty();
        Ok(true)
    }

    /// Reads the clause of the next line.
    pub(crate) fn read_clause(
        &mut self,
        forward: &Forward,
        clause: ClauseIndex,
    ) -> Result<(), ElaborateFault> {
        forward.propagator.clauses.read(clause, &mut self.lits)?;
        for lit in &self.lits {
            self.clause.push(forward.variables.named(*lit)?)?;
        }
        Ok(())
    }

    /// Reads the hints of the record, by their ids.
    fn read_hints(&mut self) -> Result<(), ElaborateFault> {
        self.hints.clear();
        for hint in &self.record.hints {
            let id = id_in(&self.ids, hint.clause())?;
            self.hints.push(hint.with_id(id))?;
        }
        Ok(())
    }

    /// Reads the ids of the clauses that no later line uses.
    pub(crate) fn read_dying(&mut self) -> Result<(), ElaborateFault> {
        self.dying.clear();
        for clause in &self.record.dying {
            let id = id_in(&self.ids, *clause)?;
            self.dying.push(id)?;
        }
        Ok(())
    }

    /// Gives a clause the next id.
    pub(crate) fn name(&mut self, clause: ClauseIndex) -> Result<(), ElaborateFault> {
        self.last_id = self.last_id.saturating_add(1);
        match self.ids.get_mut(clause.get()) {
            Some(id) => *id = narrow(self.last_id as usize)?,
            None => return Err(ElaborateFault::Internal),
        }
        Ok(())
    }
}

/// Returns the id of a clause.
///
/// # Errors
///
/// `Internal` if it has none.
pub(crate) fn id_in(ids: &[u32], clause: ClauseIndex) -> Result<u64, ElaborateFault> {
    match ids.get(clause.get()).copied() {
        Some(id) if id > 0 => Ok(id as u64),
        _ => Err(ElaborateFault::Internal),
    }
}
