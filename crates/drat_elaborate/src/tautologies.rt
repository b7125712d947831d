//! The lines that add target clauses that are tautologies.
//!
//! A checker of LRAT accepts no clause because it is a tautology, and a stored tautology is a
//! candidate of RAT lines. So these lines are the last ones. For a tautology with the literals p
//! and -p, and a fresh variable x, they are:
//!
//! - `x p`, which is RAT on `x`: no clause has its negation;
//! - `-x -p`, which is RAT on `-x`: the only candidate is `x p`, and p is true in it;
//! - the tautology, which follows from these two;
//! - the deletion of the two.
use crate::fault::ElaborateFault;
use crate::forward::Forward;
use crate::lines::Lines;
use crate::wanted::{Tautology, Wanted};
use lrat_text::Hint;
use sat_formula::Lit;

impl Lines {
    /// Queues the lines of the next target clause that is a tautology. Returns whether there is
    /// one.
    pub(crate) fn tell_tautology(
        &mut self,
        forward: &Forward,
        wanted: &mut Wanted,
    ) -> Result<bool, ElaborateFault> {
        let Some(Tautology { clause, lit }) = wanted.take_tautology() else {
            return Ok(false);
        };
        self.by_witness.begin_lines(forward);
        let lit = forward.variables.named(lit)?;
        let first = self.tell_half(false, lit)?;
        self.by_witness.queue.push_hint(Hint::Against(first))?;
        let second = self.tell_half(true, !lit)?;
        self.clause.clear();
        self.read_clause(forward, clause)?;
        self.push_clause()?;
        self.by_witness.queue.push_hint(Hint::Along(first))?;
        self.by_witness.queue.push_hint(Hint::Along(second))?;
        self.name(clause)?;
        self.by_witness.queue.end_addition(self.last_id)?;
        self.dying.clear();
        self.dying.push(first)?;
        self.dying.push(second)?;
        self.deletion_is_next = true;
        Ok(true)
    }

    /// Queues the line of a clause of x, or of its negation, and another literal. Returns its id.
    fn tell_half(&mut self, is_negated: bool, lit: Lit) -> Result<u64, ElaborateFault> {
        self.by_witness.push_fresh(is_negated)?;
        self.by_witness.queue.push_lit(lit)?;
        self.end_line()
    }
}
