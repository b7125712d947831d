//! The checker of LRAT proofs.
ghost use Rattle.std.specs.Prelude.{◌≡◌, ◌∷◌, ◌++◌, ◌||◌, ◌↔◌, ℕ, Bool, true, false, [], List, None, Some, Err, IfErr, IfOk, IsTrue, OnOk, OnErr, option_copied};
ghost use Rattle.sat_rules.specs.Clauses.{all_true};
ghost use Rattle.sat_rules.specs.Named.{NamedBy};
ghost use Rattle.lrat_rules.specs.Lines.{Line, adds_empty};
ghost use Rattle.lrat_rules.specs.Stores.{find};
ghost use Rattle.lrat_rules.specs.Tables.{cause_by_table, table_after};
ghost use Rattle.refutation_rules.specs.Carrying.{Carries};
ghost use Rattle.lrat_checker.specs.Causes.{IsCause};
ghost use Rattle.lrat_checker.specs.declared.fault.LineFault.TheVariants.{Failed};
ghost use Rattle.lrat_checker.specs.Held.{table_of};
ghost use Rattle.lrat_text.specs.NextLine.{view};

use crate::clauses::Clauses;
use crate::fault::{LineFault, Stop};
use crate::formula::LratFormula;
use crate::judging::judge;
use crate::work::Work;
use lrat_text::LratLine;
use sat_formula::{CnfFormula, Lit};
use std::alloc::{AllocError, Global};

/// A checker of the lines of an LRAT proof over a formula, RAT steps included.
#[derive(Drop)]
pub struct LratChecker {
    clauses: Clauses,
    work: Work,
    refuted: bool,
    failed: bool,
}

impl LratChecker {
    ghost use Rattle.lrat_checker.specs.Standing.{HasAccepted, HoldsLittle, IsAnswer, IsReady, has_failed, has_refuted};

    /// Returns a checker that stores the clauses of a formula under 1, 2 and so on.
    ///
    /// # Errors
    ///
    /// `AllocError` if memory runs out.
    pub fn new(alloc: Global, formula: &CnfFormula) -> Result<LratChecker, AllocError>
        ensures ready { IfOk result (λ checker. IsReady formula.now [] checker) }
        ensures tight { IfOk result (λ checker. HoldsLittle checker) }
    {
        Ok(LratFormula::of(alloc, formula)?.checker())
    }

    /// Returns a checker with these clauses, which include the empty one or not.
    pub(crate) fn after(
        alloc: Global,
        clauses: Clauses,
        has_empty: bool,
        failed: bool,
    ) -> LratChecker
        ensures clauses { result.clauses ≡ clauses }
        ensures refuted { result.refuted ≡ has_empty }
        ensures failed { result.failed ≡ failed }
    {
        LratChecker {
            clauses,
            work: Work::new(alloc),
            refuted: has_empty,
            failed,
        }
    }

    /// Returns whether the formula has the empty clause, or a line so far added it: then no
    /// assignment satisfies the formula.
    pub fn refuted(&self) -> bool
        ensures value { result ≡ has_refuted self.now }
        ensures refutes { (formula : List (List ℕ)) (lines : List Line)
            → HasAccepted formula lines self.now
            → result ≡ true → (a : ℕ → Bool) → all_true a formula ≡ true → ⊥ }
    {
        self.refuted // it stays true after a refusal
    }

    /// Returns the literals of the clause that is stored under an id.
    pub fn clause(&self, id: u64) -> Option<&[Lit]>
        ensures { (formula : List (List ℕ)) (lines : List Line)
            → (ready : IsReady formula lines self.now)
            → option_copied result ≡ find ready.accepted.store id }
    {
        self.clauses.get(id)
    }

    /// Returns whether each of these clauses is stored under the id at its position, with its
    /// literals in the same order. Then they are satisfiable if the formula is: the lines so far
    /// need not refute it.
    ///
    /// It is false after a line that was not accepted.
    pub fn holds(&self, wanted: &CnfFormula, ids: &[u64]) -> bool
        ensures stored { (formula : List (List ℕ)) (lines : List Line)
            → (ready : IsReady formula lines self.now)
            → IsTrue result ↔ NamedBy (find ready.accepted.store) ids.now wanted.now }
        ensures carries { (formula : List (List ℕ)) (lines : List Line)
            → IsReady formula lines self.now → result ≡ true → Carries formula wanted.now }
        ensures failed { has_failed self.now ≡ true → result ≡ false }
    {
        if self.failed {
            return false;
        }
        self.clauses.are_named(wanted, ids)
    }

    /// Checks one line after those of earlier calls: adds its clause or deletes its clauses.
    ///
    /// # Errors
    ///
    /// `Refused` with the cause if the line is rejected, `OutOfMemory` if memory runs out. After
    /// either every later call returns `Failed`.
    pub fn check_line(&mut self, line: LratLine<'_>) -> Result<(), LineFault>
        ensures accepted { (formula : List (List ℕ)) (lines : List Line)
            → IsReady formula lines self.old
            → OnOk result (IsReady formula (lines ++ view line.entry ∷ []) self.new) }
        ensures refused { (formula : List (List ℕ)) (lines : List Line)
            → IsReady formula lines self.old
            → IfErr result (λ fault. IsAnswer formula lines (view line.entry) fault) }
        ensures kept { (formula : List (List ℕ)) (lines : List Line)
            → HasAccepted formula lines self.old
            → OnErr result (HasAccepted formula lines self.new) }
        ensures fails { OnErr result (has_failed self.new ≡ true) }
        ensures stays { OnErr result (has_refuted self.new ≡ has_refuted self.old) }
        ensures going { OnOk result (has_failed self.new ≡ false) }
        ensures tight { HoldsLittle self.old → OnOk result (HoldsLittle self.new) }
        ensures failed { has_failed self.old ≡ true
            → (result ≡ Err Failed) × (self.new ≡ self.old) }
    {
        if self.failed {
            return Err(LineFault::Failed);
        }
        match self.take(line) {
            Ok(()) => Ok(()),
            Err(stop) => {
                self.failed = true;
                Err(stop.fault())
            }
        }
    }

    /// Checks a line, and does what it says.
    fn take(&mut self, line: LratLine<'_>) -> Result<(), Stop>
        ensures ok { OnOk result
            (cause_by_table (table_of self.old.clauses) (view line.entry) ≡ None) }
        ensures table { OnOk result
            (table_of self.new.clauses
            ≡ table_after (table_of self.old.clauses) (view line.entry)) }
        ensures refuted { OnOk result
            (self.new.refuted ≡ (self.old.refuted || adds_empty (view line.entry))) }
        ensures going { self.new.failed ≡ self.old.failed }
        ensures err { IfErr result (λ stop.
            IsCause stop (cause_by_table (table_of self.old.clauses) (view line.entry))) }
        ensures kept { OnErr result (self.new.refuted ≡ self.old.refuted) }
        ensures tight { HoldsLittle self.old → OnOk result (HoldsLittle self.new) }
    {
        match line {
            LratLine::Add { id, clause, hints } => {
                judge(&mut self.clauses, &mut self.work, id, clause, hints)?;
                self.clauses.put(id, clause)?;
                self.refuted |= clause.is_empty();
                Ok(())
            }
            LratLine::Delete { ids } => {
                self.clauses.remove(ids);
                Ok(())
            }
        }
    }
}
