//! The witnesses of the clauses that a proof adds, and the steps that have them.
use crate::clauses::{ClauseIndex, narrow};
use crate::elaborator::Elaborator;
use crate::fault::ElaborateFault;
use crate::local::LocalLit;
use crate::records::Record;
use sat_formula::Lit;
use std::alloc::Global;

/// The clauses that have witnesses, in order, and their witnesses.
#[derive(Drop)]
pub(crate) struct Witnesses {
    /// The numbers of the clauses.
    clauses: Vec<u32>,
    /// Where the witness of each begins.
    starts: Vec<u32>,
    lits: Vec<LocalLit>,
}

impl Witnesses {
    pub(crate) fn new(alloc: Global) -> Witnesses {
        Witnesses {
            clauses: Vec::new(alloc),
            starts: Vec::new(alloc),
            lits: Vec::new(alloc),
        }
    }

    /// Stores the witness of a clause, which comes after all that have one.
    fn push(&mut self, clause: ClauseIndex, witness: &[LocalLit]) -> Result<(), ElaborateFault> {
        let start = narrow(self.lits.len())?;
        self.lits.extend_from_slice(witness)?;
        self.clauses.push(clause.number())?;
        self.starts.push(start)?;
        Ok(())
    }

    /// Returns the witness of a clause, if it has one other than its first literal.
    pub(crate) fn of(&self, clause: ClauseIndex) -> Option<&[LocalLit]> {
        let Ok(place) = self.clauses.binary_search(&clause.number()) else {
            return None;
        };
        let start = self.starts.get(place).copied()? as usize;
        let end = match self.starts.get(place.saturating_add(1)) {
            Some(next) => *next as usize,
            None => self.lits.len(),
        };
        self.lits.get(start..end)
    }

    /// Returns the witness by which the clause of a record is redundant. `None` if the clause
    /// follows or is RAT on its pivot; then one line adds it.
    pub(crate) fn of_record(&self, record: &Record) -> Option<&[LocalLit]> {
        let witness = self.of(record.clause.get()?)?;
        if record.hints.iter().any(|hint| hint.is_against()) {
            Some(witness)
        } else {
            None
        }
    }
}

impl Elaborator {
    /// Adds a clause of a DPR proof: if its first literal is repeated, the literals from there on
    /// are its witness and no part of the clause. It should follow, or be redundant by the witness;
    /// without one, be RAT on its first literal. It is not checked yet. After a conflict it is
    /// ignored.
    ///
    /// # Errors
    ///
    /// `ContradictoryWitness` if a witness has a literal and its negation.
    pub fn add_dpr_lemma(&mut self, lits: &[Lit]) -> Result<(), ElaborateFault> {
        self.begin_proof()?;
        if self.is_refuted() {
            return Ok(());
        }
        let (clause, witness) = parts(lits);
        if !witness.is_empty() {
            self.keep_witness(witness)?;
        }
        self.forward.add_lemma(clause)
    }

    /// Stores the witness of the next clause, each literal once. One that is just the clause's
    /// first literal is not needed.
    pub(crate) fn keep_witness(&mut self, witness: &[Lit]) -> Result<(), ElaborateFault> {
        if self.forward.normalize(witness)? {
            let step = self.steps_left().saturating_add(1);
            return Err(ElaborateFault::ContradictoryWitness { step });
        }
        if self.forward.lits.len() < 2 {
            return Ok(());
        }
        let clause = ClauseIndex::new(self.forward.propagator.clauses.len())?;
        self.backward.witnesses.push(clause, &self.forward.lits)
    }
}

/// Returns the clause of an addition and its witness, which begins where the first literal is
/// repeated.
pub(crate) fn parts(lits: &[Lit]) -> (&[Lit], &[Lit]) {
    for place in 1..lits.len() {
        if lits[place] == lits[0] {
            return lits.split_at(place);
        }
    }
    (lits, &[])
}
