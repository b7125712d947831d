//! The forward pass: the formula and the steps are stored, up to the first conflict by propagation.
use crate::arena::Block;
use crate::clauses::ClauseIndex;
use crate::fault::ElaborateFault;
use crate::lit_set::LitSet;
use crate::local::LocalLit;
use crate::lookup::{ClauseTable, Lookup, Reasons};
use crate::names::Names;
use crate::propagator::Propagator;
use crate::steps::{Step, Steps};
use crate::trail::Value;
use crate::variables::Variables;
use sat_formula::Lit;
use std::alloc::{AllocError, Global};

/// The state of the forward pass.
#[derive(Drop)]
pub(crate) struct Forward {
    pub(crate) alloc: Global,
    pub(crate) variables: Variables,
    pub(crate) propagator: Propagator,
    pub(crate) steps: Steps,
    /// How many clauses the formula has.
    pub(crate) formula_len: usize,
    pub(crate) conflict: Option<Block>,
    /// The clauses that a proof names by their literals: in DRAT all live ones, in FRAT those of
    /// the formula without an id.
    pub(crate) table: ClauseTable,
    /// The clauses that it names by ids.
    pub(crate) names: Names,
    /// The literals of the clause that is read, each once.
    pub(crate) lits: Vec<LocalLit>,
    pub(crate) set: LitSet,
    /// How many deletions found no clause.
    pub(crate) missing_deletions: u64,
    /// How many deletions found only clauses that are reasons.
    pub(crate) kept_reasons: u64,
}

impl Forward {
    pub(crate) fn new(alloc: Global) -> Forward {
        Forward {
            alloc,
            variables: Variables::new(alloc),
            propagator: Propagator::new(alloc),
            steps: Steps::new(alloc),
            formula_len: 0,
            conflict: None,
            table: ClauseTable::new(alloc),
            names: Names::new(alloc),
            lits: Vec::new(alloc),
            set: LitSet::new(alloc),
            missing_deletions: 0,
            kept_reasons: 0,
        }
    }

    /// Stores the next clause of the formula.
    pub(crate) fn add_clause(&mut self, lits: &[Lit]) -> Result<(), ElaborateFault> {
        let is_tautology = self.normalize(lits)?;
        self.propagator.clauses.push(&self.lits, is_tautology)?;
        for lit in &self.lits {
            self.table.stir(*lit);
        }
        self.formula_len = self.propagator.clauses.len();
        Ok(())
    }

    /// Watches the clauses of the formula, and propagates its units.
    pub(crate) fn begin(&mut self) -> Result<(), ElaborateFault> {
        self.table.enter_all(&mut self.propagator.clauses)?;
        self.steps.begin(self.formula_len)?;
        self.propagator.make_lists()?;
        for index in 0..self.formula_len {
            self.watch_formula_clause(ClauseIndex::new(index)?)?;
        }
        for index in 0..self.formula_len {
            if self.conflict.is_none() {
                self.assign_formula_unit(ClauseIndex::new(index)?)?;
            }
        }
        if self.conflict.is_none() {
            self.conflict = self.propagator.propagate(0)?;
        }
        Ok(())
    }

    /// Frees the memory that only the forward pass needs, and allocates what only the backward pass
    /// does.
    pub(crate) fn end(&mut self) -> Result<(), AllocError> {
        self.variables.end();
        self.table = ClauseTable::new(self.alloc);
        self.names = Names::new(self.alloc);
        self.lits = Vec::new(self.alloc);
        self.set = LitSet::new(self.alloc);
        self.propagator.make_room_for_used()
    }

    /// Watches a clause of the formula that has two literals or more and is no tautology.
    fn watch_formula_clause(&mut self, clause: ClauseIndex) -> Result<(), ElaborateFault> {
        let found = self.propagator.clauses.get_mut(clause)?;
        if found.is_tautology {
            return Ok(());
        }
        let found = *found;
        if self.propagator.clauses.arena.lits(found.block)?.len() >= 2 {
            self.propagator.watch(&found)?;
            self.propagator.clauses.get_mut(clause)?.is_watched = true;
        }
        Ok(())
    }

    /// Assigns the literal of a unit clause. An empty clause is a conflict.
    fn assign_formula_unit(&mut self, clause: ClauseIndex) -> Result<(), ElaborateFault> {
        let block = self.propagator.clauses.get(clause)?.block;
        let lits = self.propagator.clauses.arena.lits(block)?;
        if lits.len() >= 2 {
            return Ok(());
        }
        let Some(lit) = lits.first().copied() else {
            self.conflict = Some(block);
            return Ok(());
        };
        match self.propagator.trail.value(lit) {
            Value::True => {}
            Value::False => self.conflict = Some(block),
            Value::Free => self.propagator.trail.assign(lit, block)?,
        }
        Ok(())
    }

    /// Stores a clause of the proof and propagates.
    pub(crate) fn add_lemma(&mut self, lits: &[Lit]) -> Result<(), ElaborateFault> {
        let is_tautology = self.normalize(lits)?;
        let clauses = &mut self.propagator.clauses;
        let clause = clauses.push(&self.lits, is_tautology)?;
        self.table.enter_new(clauses, clause)?;
        self.add_stored(clause)
    }

    /// Adds the step of a stored clause and propagates.
    pub(crate) fn add_stored(&mut self, clause: ClauseIndex) -> Result<(), ElaborateFault> {
        self.steps.push(Step::Add(clause))?;
        let len = self.propagator.trail.len();
        self.conflict = self.propagator.attach(clause)?;
        if self.propagator.trail.len() > len {
            self.steps.push_growth(len)?;
        }
        Ok(())
    }

    /// Deletes a clause with these literals, if there is one that is no reason.
    pub(crate) fn delete_clause(&mut self, lits: &[Lit]) -> Result<(), ElaborateFault> {
        self.normalize(lits)?;
        match self
            .table
            .take(&mut self.propagator, &self.lits, &self.set, Reasons::Keep)?
        {
            Lookup::Found(clause) => self.remove(clause)?,
            Lookup::Reason => {
                self.steps.push(Step::Nothing)?;
                self.kept_reasons = self.kept_reasons.saturating_add(1);
            }
            Lookup::Missing => {
                self.steps.push(Step::Nothing)?;
                self.missing_deletions = self.missing_deletions.saturating_add(1);
            }
        }
        Ok(())
    }

    /// Deletes a clause that is no reason.
    pub(crate) fn remove(&mut self, clause: ClauseIndex) -> Result<(), ElaborateFault> {
        self.steps.push(Step::Delete(clause))?;
        self.propagator.detach(clause)?;
        self.propagator.clauses.free(clause)
    }

    /// Reads a clause into `lits`, each literal once. Returns whether it is a tautology.
    pub(crate) fn normalize(&mut self, lits: &[Lit]) -> Result<bool, ElaborateFault> {
        self.set.clear()?;
        self.lits.clear();
        let mut is_tautology = false;
        for lit in lits {
            let lit = self.variables.local(*lit)?;
            if self.set.insert(lit)? {
                self.lits.push(lit)?;
                is_tautology = is_tautology || self.set.contains(!lit);
            }
        }
        self.propagator.make_room(self.variables.len())?;
        Ok(is_tautology)
    }
}
