//! Steps of FRAT proofs: clauses have ids, and may have hints.
use crate::clauses::ClauseLink;
use crate::elaborator::Elaborator;
use crate::fault::ElaborateFault;
use crate::forward::Forward;
use crate::lookup::{Lookup, Reasons};
use crate::steps::Step;
use drat_text::{FratAction, FratHint, FratStep, Renaming};
use sat_formula::Lit;

impl Elaborator {
    /// Adds a step of a FRAT proof. After a conflict it is ignored.
    ///
    /// A step for a clause that is live at the end is ignored, and so is the renaming of an id that
    /// no clause has. A deletion is counted and ignored if no clause has the id, or the clause is
    /// the reason of a literal; its literals are not compared. Hints belong to the clause that the
    /// step before added, and are ignored elsewhere; the check tries them first.
    ///
    /// # Errors
    ///
    /// `NotInFormula` if the step names a clause of the formula, and each one with these literals
    /// has an id already.
    pub fn take_frat_step(&mut self, step: FratStep<'_>) -> Result<(), ElaborateFault> {
        self.begin_proof()?;
        if self.is_refuted() {
            return Ok(());
        }
        match step {
            FratStep::Clause { action, id, lits } => self.forward.take_clause(action, id, lits),
            FratStep::Hints(hints) => self.keep_hints(hints),
            FratStep::Renames(renamings) => self.forward.rename(renamings),
        }
    }

    /// Keeps the hints before the first negative one, except those whose ids no clause has.
    fn keep_hints(&mut self, hints: &[FratHint]) -> Result<(), ElaborateFault> {
        if let Some(clause) = self.forward.steps.last_added() {
            self.backward.given.begin(clause)?;
            for hint in hints {
                if hint.is_negative {
                    break;
                }
                if let Some(found) = self.forward.names.get(hint.id) {
                    self.backward.given.push(found)?;
                }
            }
        }
        self.forward.pass_over()
    }
}

impl Forward {
    /// Adds a step of a clause, by its kind.
    fn take_clause(
        &mut self,
        action: FratAction,
        id: u64,
        lits: &[Lit],
    ) -> Result<(), ElaborateFault> {
        match action {
            FratAction::Original => self.name_original(id, lits),
            FratAction::Add => self.add_named(id, lits),
            FratAction::Delete => self.delete_named(id),
            FratAction::Final => self.pass_over(),
        }
    }

    /// Adds a step that changes nothing.
    fn pass_over(&mut self) -> Result<(), ElaborateFault> {
        self.steps.push(Step::Nothing)?;
        Ok(())
    }

    /// Gives an id to a clause of the formula that has none.
    fn name_original(&mut self, id: u64, lits: &[Lit]) -> Result<(), ElaborateFault> {
        self.pass_over()?;
        self.normalize(lits)?;
        match self
            .table
            .take(&mut self.propagator, &self.lits, &self.set, Reasons::Take)?
        {
            Lookup::Found(clause) => self.names.put(id, clause),
            Lookup::Reason | Lookup::Missing => Err(ElaborateFault::NotInFormula {
                step: self.steps.len(),
            }),
        }
    }

    /// Stores a clause of the proof under an id and propagates.
    pub(crate) fn add_named(&mut self, id: u64, lits: &[Lit]) -> Result<(), ElaborateFault> {
        let is_tautology = self.normalize(lits)?;
        let clause = self.propagator.clauses.push(&self.lits, is_tautology)?;
        self.names.put(id, clause)?;
        self.add_stored(clause)
    }

    /// Deletes the clause of an id, if there is one that is no reason.
    pub(crate) fn delete_named(&mut self, id: u64) -> Result<(), ElaborateFault> {
        let Some(clause) = self.names.take(id) else {
            self.missing_deletions = self.missing_deletions.saturating_add(1);
            return self.pass_over();
        };
        if self.propagator.is_reason(clause)? {
            self.kept_reasons = self.kept_reasons.saturating_add(1);
            return self.pass_over();
        }
        self.remove(clause)
    }

    /// Gives clauses other ids, all at once.
    fn rename(&mut self, renamings: &[Renaming]) -> Result<(), ElaborateFault> {
        let mut moved = Vec::new(self.alloc);
        for renaming in renamings {
            moved.push(match self.names.take(renaming.from) {
                Some(clause) => ClauseLink::to(clause),
                None => ClauseLink::none(),
            })?;
        }
        for (renaming, link) in renamings.iter().zip(&moved) {
            if let Some(clause) = link.get() {
                self.names.put(renaming.to, clause)?;
            }
        }
        self.pass_over()
    }
}
