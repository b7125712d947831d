//! The clauses of a formula, given one after the other.
ghost use Rattle.std.specs.Prelude.{◌≡◌, ◌++◌, ◌∷◌, [], ℕ, true, false, List, IfOk, OnErr, OnOk};
ghost use Rattle.std.specs.Result.{is_err};

use crate::checker::LratChecker;
use crate::clauses::Clauses;
use sat_formula::{CnfFormula, Lit};
use std::alloc::{AllocError, Global};

/// The clauses of a formula under 1, 2 and so on, before lines are checked.
///
/// A clause for which there was no memory can't be left out: after it no clause is taken, and no
/// line is accepted.
#[derive(Drop)]
pub struct LratFormula {
    alloc: Global,
    clauses: Clauses,
    /// How many were given.
    given: u64,
    has_empty: bool,
    failed: bool,
}

impl LratFormula {
    ghost use Rattle.lrat_checker.specs.Standing.{HoldsFormula, HoldsLittle, IsReady, has_failed, lacks_clause};

    /// Returns a formula without clauses. Allocates only the fixed part of its tables.
    ///
    /// # Errors
    ///
    /// `AllocError` if memory runs out.
    pub fn new(alloc: Global) -> Result<LratFormula, AllocError>
        ensures { IfOk result (λ made. HoldsFormula [] made) }
    {
        LratFormula::with_room(alloc, 0)
    }

    /// Returns a formula without clauses, with slots for this many.
    fn with_room(alloc: Global, room: usize) -> Result<LratFormula, AllocError>
        ensures { IfOk result (λ made. HoldsFormula [] made) }
    {
        Ok(LratFormula {
            alloc,
            clauses: Clauses::empty(alloc, room)?,
            given: 0,
            has_empty: false,
            failed: false,
        })
    }

    /// Returns the clauses of a formula that is in memory.
    ///
    /// # Errors
    ///
    /// `AllocError` if memory runs out.
    pub fn of(alloc: Global, formula: &CnfFormula) -> Result<LratFormula, AllocError>
        ensures { IfOk result (λ made. HoldsFormula formula.now made) }
    {
        let mut made = LratFormula::with_room(alloc, formula.len())?;
        for clause in formula {
            made.add_clause(clause)?;
        }
        Ok(made)
    }

    /// Adds a clause after all others.
    ///
    /// # Errors
    ///
    /// `AllocError` if memory runs out; every later call returns it too, and no checker over these
    /// clauses accepts a line.
    pub fn add_clause(&mut self, clause: &[Lit]) -> Result<(), AllocError>
        ensures given { (formula : List (List ℕ)) → HoldsFormula formula self.old
            → OnOk result (HoldsFormula (formula ++ clause.now ∷ []) self.new) }
        ensures fails { OnErr result (lacks_clause self.new ≡ true) }
        ensures going { OnOk result (lacks_clause self.new ≡ false) }
        ensures failed { lacks_clause self.old ≡ true
            → (is_err result ≡ true) × (self.new ≡ self.old) }
    {
        if self.failed || self.given == u64::MAX {
            self.failed = true;
            return Err(AllocError);
        }
        let id = self.given + 1;
        self.failed = true;
        self.clauses.put(id, clause)?;
        self.failed = false;
        self.given = id;
        self.has_empty |= clause.is_empty();
        Ok(())
    }

    /// Returns a checker of lines after these clauses. It accepts none after a clause that was not
    /// taken.
    pub fn checker(self) -> LratChecker
        ensures ready { (formula : List (List ℕ)) → HoldsFormula formula self
            → IsReady formula [] result }
        ensures tight { (formula : List (List ℕ)) → HoldsFormula formula self
            → HoldsLittle result }
        ensures failed { has_failed result ≡ lacks_clause self }
    {
        let LratFormula {
            alloc,
            clauses,
            given: _,
            has_empty,
            failed,
        } = self;
        LratChecker::after(alloc, clauses, has_empty, failed)
    }
}
