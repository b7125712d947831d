//! A checker behind a pointer, and its calls.
ghost use Rattle.std.specs.Prelude.{◌≡◌, [], ℕ, Bool, true, false, List, None, Some, is_some, OnOk};
ghost use Rattle.checker_rules.specs.Calls.{attempt};
ghost use Rattle.checker_rules.specs.Headline.{holds};
ghost use Rattle.checker_rules.specs.State.{State};
ghost use Rattle.checker_rules.specs.Step as rules;
ghost use Rattle.checker_rules.specs.Steps.{step};
ghost use Rattle.checker_parts.specs.Answers.{IsCovered, IsFold};
ghost use Rattle.checker_parts.specs.Models.{Proves, Refutes};
ghost use Rattle.handles.specs.Numbers.{are_lits, lits_of};
ghost use Rattle.handles.specs.CheckerCalls.{IsBegin, IsCall, UnlessFailed, with_step};
ghost use Rattle.handles.specs.CheckerStates.{HasState, shows_unsat};
ghost use Rattle.handles.specs.CheckerSteps.{step_of};

use crate::checker_fault::CallFault;
use crate::checker_kind::StepKind;
use crate::checker_ported::Ported;
use crate::checker_slot::Slot;
use crate::lits::read_lits;
use std::alloc::Global;

/// A checker, for a caller that keeps it in memory of its own. If all its bytes are 0, there is no
/// checker: it is begun by `begin`.
///
/// A call that returns an error leaves the checker as the rules say of a rejected step, but one
/// that returns `GaveUp` has made it fail, and each later call returns `Failed`.
#[repr(C)]
pub struct CheckerHandle {
    slot: Slot,
    held: bool,
    ghost agrees: { held ≡ is_some slot.state },
}

impl CheckerHandle {
    ghost use Rattle.handles.specs.CheckerHeld.{state_of};

    /// Begins a checker that stores nothing.
    ///
    /// # Errors
    ///
    /// `Begun` if there is a checker, or there is no memory.
    pub fn begin(&mut self, alloc: Global) -> Result<(), CallFault>
        ensures begin { IsBegin (state_of self.old) result (state_of self.new) }
        ensures folds { OnOk result (HasState (state_of self.new) (λ s. IsFold [] s)) }
        ensures covers { OnOk result (HasState (state_of self.new) (λ s. IsCovered [] s)) }
    {
        if self.held {
            return Err(CallFault::Begun);
        }
        let checker = Box::new(alloc, Ported::new(alloc))?;
        self.slot.put(checker);
        self.held = true;
        Ok(())
    }

    /// Ends the checker, if there is one, and frees its memory.
    pub fn end(&mut self, alloc: Global)
        ensures { state_of self.new ≡ None }
    {
        if self.held {
            drop(self.slot.take(alloc));
            self.held = false;
        }
    }

    /// Adds an input clause. If unsatisfiability is recorded, changes nothing.
    ///
    /// # Errors
    ///
    /// `NoChecker`, `NoLit`; `Refused` if a variable of the clause was sampled away, or no clause
    /// id or count is left; `Failed`, or there is no memory.
    pub fn add_clause(&mut self, alloc: Global, clause: &[i32]) -> Result<(), CallFault>
        ensures call { IsCall (state_of self.old) (are_lits clause.now)
            (λ s. step s (rules.add_clause (lits_of clause.now))) result (state_of self.new) }
        ensures sets { (s : State) (before : List rules.Step) → state_of self.old ≡ Some s
            → IsFold before s → UnlessFailed result (HasState (state_of self.new)
            (λ s'. IsFold (with_step result before (rules.add_clause (lits_of clause.now))) s')) }
        ensures covers { (s : State) (before : List rules.Step) → state_of self.old ≡ Some s
            → IsCovered before s → UnlessFailed result (HasState (state_of self.new)
            (λ s'. IsCovered (with_step result before (rules.add_clause (lits_of clause.now))) s')) }
    {
        if !self.held {
            return Err(CallFault::NoChecker);
        }
        let clause = read_lits(alloc, clause)?;
        let mut checker = self.slot.take(alloc);
        let outcome = checker.add_clause(&clause);
        self.slot.put(checker);
        outcome
    }

    /// Counts a step and checks it.
    ///
    /// # Errors
    ///
    /// `NoChecker`, `NoLit`; `Refused` if the step is rejected, or no step number is left;
    /// `Failed`, or there is no memory.
    pub fn check_step(
        &mut self,
        alloc: Global,
        kind: StepKind,
        lits: &[i32],
        hashes: &[u64],
    ) -> Result<(), CallFault>
        ensures call { IsCall (state_of self.old) (are_lits lits.now)
            (λ s. attempt s (step_of kind (lits_of lits.now) hashes.now)) result
            (state_of self.new) }
        ensures sets { (s : State) (before : List rules.Step) → state_of self.old ≡ Some s
            → IsFold before s → UnlessFailed result (HasState (state_of self.new)
            (λ s'. IsFold
            (with_step result before (step_of kind (lits_of lits.now) hashes.now)) s')) }
        ensures covers { (s : State) (before : List rules.Step) → state_of self.old ≡ Some s
            → IsCovered before s → UnlessFailed result (HasState (state_of self.new)
            (λ s'. IsCovered
            (with_step result before (step_of kind (lits_of lits.now) hashes.now)) s')) }
        ensures proves { (s : State) (before : List rules.Step) → state_of self.old ≡ Some s
            → IsFold before s
            → OnOk result (Proves (step_of kind (lits_of lits.now) hashes.now) before s) }
        ensures refutes { (s : State) (before : List rules.Step) → state_of self.old ≡ Some s
            → IsCovered before s
            → OnOk result (Refutes (step_of kind (lits_of lits.now) hashes.now) before) }
    {
        if !self.held {
            return Err(CallFault::NoChecker);
        }
        let lits = read_lits(alloc, lits)?;
        let mut checker = self.slot.take(alloc);
        let outcome = checker.check_step(kind, &lits, hashes);
        self.slot.put(checker);
        outcome
    }

    /// Returns whether there is a checker that has not failed, and unsatisfiability is recorded:
    /// then no assignment is a member after the accepted steps.
    pub fn unsat(&mut self, alloc: Global) -> bool
        ensures shown { result ≡ shows_unsat (state_of self.old) }
        ensures kept { state_of self.new ≡ state_of self.old }
        ensures refutes { result ≡ true → (s : State) (before : List rules.Step)
            → state_of self.old ≡ Some s → IsCovered before s → (a : ℕ → Bool)
            → holds before a ≡ false }
    {
        if !self.held {
            return false;
        }
        let checker = self.slot.take(alloc);
        let unsat = checker.unsat();
        self.slot.put(checker);
        unsat
    }
}
