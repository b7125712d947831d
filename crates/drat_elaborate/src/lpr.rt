//! Lines of LPR proofs: those of LRAT, where a clause may have a witness.
use crate::clauses::ClauseIndex;
use crate::elaborator::Elaborator;
use crate::fault::ElaborateFault;
use crate::forward::Forward;
use crate::witnesses::parts;
use lrat_text::{Hint, LratLine};
use sat_formula::Lit;

impl Elaborator {
    /// Adds a line of an LPR proof: if the first literal of its clause is repeated, the witness
    /// begins there. Clauses of the formula have the ids 1, 2 and so on. After a conflict the line
    /// is ignored.
    ///
    /// Each clause that a line adds or deletes is a step. A deletion is counted and ignored if no
    /// clause has the id, or the clause is the reason of a literal. The check tries the hints
    /// before the first negative one first, except those whose ids no clause has; the others are
    /// ignored.
    ///
    /// # Errors
    ///
    /// `ContradictoryWitness` if a witness has a literal and its negation.
    pub fn take_lpr_line(&mut self, line: LratLine<'_>) -> Result<(), ElaborateFault> {
        self.begin_proof()?;
        if self.is_refuted() {
            return Ok(());
        }
        if self.forward.steps.len() == 0 {
            self.forward.name_formula()?;
        }
        match line {
            LratLine::Add { id, clause, hints } => self.add_line(id, clause, hints),
            LratLine::Delete { ids } => self.forward.delete_line(ids),
        }
    }

    /// Adds a line with a clause, its witness and its hints.
    fn add_line(&mut self, id: u64, lits: &[Lit], hints: &[Hint]) -> Result<(), ElaborateFault> {
        let (clause, witness) = parts(lits);
        if !witness.is_empty() {
            self.keep_witness(witness)?;
        }
        self.forward.add_named(id, clause)?;
        self.keep_line_hints(hints)
    }

    /// Keeps the hints before the first negative one, except those whose ids no clause has.
    fn keep_line_hints(&mut self, hints: &[Hint]) -> Result<(), ElaborateFault> {
        let Some(clause) = self.forward.steps.last_added() else {
            return Ok(());
        };
        self.backward.given.begin(clause)?;
        for hint in hints {
            let Hint::Along(id) = *hint else {
                break;
            };
            if let Some(found) = self.forward.names.get(id) {
                self.backward.given.push(found)?;
            }
        }
        Ok(())
    }
}

impl Forward {
    /// Gives the clauses of the formula the ids 1, 2 and so on.
    fn name_formula(&mut self) -> Result<(), ElaborateFault> {
        for index in 0..self.formula_len {
            let id = (index as u64).saturating_add(1);
            self.names.put(id, ClauseIndex::new(index)?)?;
        }
        Ok(())
    }

    /// Deletes the clauses of these ids.
    fn delete_line(&mut self, ids: &[u64]) -> Result<(), ElaborateFault> {
        for id in ids {
            self.delete_named(*id)?;
        }
        Ok(())
    }
}
