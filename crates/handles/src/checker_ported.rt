//! The ported checker without processors.
ghost use Rattle.std.specs.Prelude.{◌≡◌, List, OnOk};
ghost use Rattle.checker_rules.specs.Calls.{attempt, shown_unsat};
ghost use Rattle.checker_rules.specs.Step as rules;
ghost use Rattle.checker_rules.specs.Steps.{new_state, step};
ghost use Rattle.checker_parts.specs.Answers.{IsCovered, IsFold};
ghost use Rattle.checker_parts.specs.Models.{Proves, Refutes};
ghost use Rattle.handles.specs.CheckerCalls.{Answers, UnlessFailed, passed, with_step};
ghost use Rattle.handles.specs.CheckerStates.{state_in};
ghost use Rattle.handles.specs.CheckerSteps.{step_of};

use crate::checker_fault::CallFault;
use crate::checker_kind::{StepKind, make_step};
use crate::checker_unheard::Unheard;
use checker_parts::error::CheckerError;
use sat_formula::Lit;
use std::alloc::Global;
use varisat_checker::CheckerOf;
use varisat_checker::internal::SelfChecker;

/// A checker without processors and transcripts.
#[derive(Drop)]
pub struct Ported {
    checker: CheckerOf<Unheard, Unheard>,
}

impl Ported {
    /// Returns a checker that stores nothing.
    pub(crate) fn new(alloc: Global) -> Ported
        ensures { state_in result ≡ new_state }
    {
        Ported {
            checker: CheckerOf::new(alloc),
        }
    }

    /// Adds an input clause.
    pub(crate) fn add_clause(&mut self, clause: &[Lit]) -> Result<(), CallFault>
        ensures answers { Answers (state_in self.old)
            (step (state_in self.old) (rules.add_clause clause.now)) result (state_in self.new) }
        ensures sets { (before : List rules.Step) → IsFold before (state_in self.old)
            → UnlessFailed result
            (IsFold (with_step result before (rules.add_clause clause.now)) (state_in self.new)) }
        ensures covers { (before : List rules.Step) → IsCovered before (state_in self.old)
            → UnlessFailed result
            (IsCovered (with_step result before (rules.add_clause clause.now)) (state_in self.new)) }
    {
        told(self.checker.add_clause(clause))
    }

    /// Counts a step and checks it.
    pub(crate) fn check_step(
        &mut self,
        kind: StepKind,
        lits: &[Lit],
        hashes: &[u64],
    ) -> Result<(), CallFault>
        ensures answers { Answers (state_in self.old)
            (attempt (state_in self.old) (step_of kind lits.now hashes.now)) result
            (state_in self.new) }
        ensures sets { (before : List rules.Step) → IsFold before (state_in self.old)
            → UnlessFailed result
            (IsFold (with_step result before (step_of kind lits.now hashes.now))
            (state_in self.new)) }
        ensures covers { (before : List rules.Step) → IsCovered before (state_in self.old)
            → UnlessFailed result
            (IsCovered (with_step result before (step_of kind lits.now hashes.now))
            (state_in self.new)) }
        ensures proves { (before : List rules.Step) → IsFold before (state_in self.old)
            → OnOk result
            (Proves (step_of kind lits.now hashes.now) before (state_in self.old)) }
        ensures refutes { (before : List rules.Step) → IsCovered before (state_in self.old)
            → OnOk result (Refutes (step_of kind lits.now hashes.now) before) }
    {
        told(self.checker.self_check_step(make_step(kind, lits, hashes)))
    }

    /// Returns whether unsatisfiability is recorded and the checker has not failed.
    pub(crate) fn unsat(&self) -> bool
        ensures { result ≡ shown_unsat (state_in self.now) }
    {
        self.checker.unsat()
    }
}

/// Returns the result of a call from the checker's.
fn told(answer: Result<(), CheckerError>) -> Result<(), CallFault>
    ensures { result ≡ passed answer }
{
    Ok(answer?)
}
