//! The clauses of the application, and how models meet them.
ghost use Rattle.std.specs.Prelude.{◌≡◌, ◌<◌, ◌≤◌, ◌+◌, ◌∷◌, ◌++◌, [], true, drop, get_or, length, IfOk, OnErr, OnOk};
ghost use Rattle.std.specs.List.{find};
ghost use Rattle.std.specs.Option.{option_map};
ghost use Rattle.sat_rules.specs.Clauses.{has};
ghost use Rattle.clause_table.specs.Values.{among};
ghost use Rattle.session_checker.specs.Meeting.{are_members, true_run, with_at};
ghost use Rattle.session_checker.specs.Refusals.{clause_cause, misses_clause};

use crate::numbered::NumberedClauses;
use clause_table::Values;
use sat_formula::Lit;
use std::alloc::{AllocError, Global};

/// The clauses of the application. Of each of the first ones the literal is kept by which the last
/// model met it: most models meet it by the same.
#[derive(Drop)]
pub(crate) struct GivenClauses {
    pub(crate) clauses: NumberedClauses,
    met_by: Vec<Lit>,
    ghost members: { are_members met_by.items clauses ≡ true },
}

impl GivenClauses {
    /// Returns no clauses.
    ///
    /// # Errors
    ///
    /// `AllocError` if there is no memory.
    pub(crate) fn new(alloc: Global) -> Result<GivenClauses, AllocError>
        ensures { IfOk result (λ made. made.clauses ≡ []) }
    {
        Ok(GivenClauses {
            clauses: NumberedClauses::new(alloc)?,
            met_by: Vec::new(alloc),
        })
    }

    /// Adds a clause after all others.
    ///
    /// # Errors
    ///
    /// `AllocError` if there is no memory; the clauses are as they were.
    pub(crate) fn add(&mut self, clause: &[Lit]) -> Result<(), AllocError>
        ensures ok { OnOk result (self.new.clauses ≡ self.old.clauses ++ clause.now ∷ []) }
        ensures err { OnErr result (self.new.clauses ≡ self.old.clauses) }
    {
        self.clauses.add(clause)?;
        Ok(())
    }

    /// Returns the number of the first clause without a true literal, from 1 on, if there is one.
    ///
    /// # Errors
    ///
    /// `AllocError` if there is no memory.
    pub(crate) fn unmet(&mut self, values: &Values) -> Result<Option<u64>, AllocError>
        ensures unmet { IfOk result (λ number. option_map misses_clause number
            ≡ clause_cause 1 (among values.now) self.old.clauses) }
        ensures clauses { self.new.clauses ≡ self.old.clauses }
    {
        let mut number = self.still_met(values, 0);
        'clauses: while (number as u64) < self.clauses.len() {
            let Some(lit) = true_lit(values, self.clauses.get(number as u64)) else {
                return Ok(Some(number as u64 + 1));
            };
            self.remember(number, lit)?;
            number = self.still_met(values, number + 1);
        }
        Ok(None)
    }

    /// Returns the number of the first clause, from this one on, of which no literal is kept that
    /// is still true.
    fn still_met(&self, values: &Values, from: usize) -> usize
        requires { from ≤ length self.now.met_by.items }
        ensures kept { result ≤ length self.now.met_by.items }
        ensures run { result
            ≡ from + true_run (among values.now) (drop from self.now.met_by.items) }
    {
        let run = true_run(values, &self.met_by[from..]);
        from + run
    }

    /// Keeps the literal by which a clause is met.
    ///
    /// # Errors
    ///
    /// `AllocError` if there is no memory; the literals that were kept are as they were.
    fn remember(&mut self, number: usize, lit: Lit) -> Result<(), AllocError>
        requires next { number ≤ length self.old.met_by.items }
        requires within { number < length self.old.clauses }
        requires member { has lit (get_or self.old.clauses number []) ≡ true }
        ensures ok { OnOk result (self.new.met_by.items
            ≡ with_at number lit self.old.met_by.items) }
        ensures err { OnErr result (self.new.met_by.items ≡ self.old.met_by.items) }
        ensures clauses { self.new.clauses ≡ self.old.clauses }
    {
        if number < self.met_by.len() {
            self.met_by[number] = lit;
        } else {
            self.met_by.push(lit)?;
        }
        Ok(())
    }
}

/// Returns how many literals at the front are true.
fn true_run(values: &Values, lits: &[Lit]) -> usize
    ensures run { result ≡ true_run (among values.now) lits.now }
    ensures within { result ≤ length lits.now }
{
    let mut count = 0;
    for lit in lits {
        if !values.is_true(*lit) {
            return count;
        }
        count += 1;
    }
    count
}

/// Returns the first literal of the clause that is true, if there is one.
fn true_lit(values: &Values, clause: &[Lit]) -> Option<Lit>
    ensures { result ≡ find (among values.now) clause.now }
{
    for lit in clause {
        if values.is_true(*lit) {
            return Some(*lit);
        }
    }
    None
}
