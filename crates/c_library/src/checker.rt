//! The ported checker, step by step.
ghost use Rattle.std.specs.Prelude.{◌≡◌, ℕ, Bool, true, false, List, None, Some, IfSome};
ghost use Rattle.checker_rules.specs.Headline.{holds};
ghost use Rattle.checker_rules.specs.State.{State};
ghost use Rattle.checker_rules.specs.Step as rules;
ghost use Rattle.checker_rules.specs.Steps.{new_state};
ghost use Rattle.checker_parts.specs.Answers.{IsCovered, IsFold};
ghost use Rattle.checker_parts.specs.Models.{Proves, Refutes};
ghost use Rattle.handles.specs.CheckerHeld.{state_of};
ghost use Rattle.handles.specs.CheckerStates.{shows_unsat};
ghost use Rattle.handles.specs.CheckerSteps.{kind_of, step_of};
ghost use Rattle.handles.specs.Numbers.{lits_of};
ghost use Rattle.c_library.specs.CheckerCalls.{IsAdd, IsAnswer, IsBegun, IsChecked, IsUnknownKind, Outcome};

use handles::{CallFault, CheckerAnswer, CheckerHandle, StepKind};
use std::alloc::Global;

/// Begins a checker that stores nothing, if there is none.
#[unsafe(no_mangle)]
pub extern "C" fn cefindrato_checker_begin(
    alloc: Global,
    checker: &mut CheckerHandle,
) -> CheckerAnswer
    ensures new { result.status ≡ 0 → state_of checker.new ≡ Some new_state }
    ensures run { (r : Outcome) × IsAnswer result r × IsBegun checker.old checker.new r }
{
    CheckerAnswer::of(checker.begin(alloc))
}

/// Ends the checker, if there is one, and frees its memory.
#[unsafe(no_mangle)]
pub extern "C" fn cefindrato_checker_end(alloc: Global, checker: &mut CheckerHandle)
    ensures { state_of checker.new ≡ None }
{
    checker.end(alloc);
}

/// Adds an input clause. If unsatisfiability is recorded, changes nothing.
#[unsafe(no_mangle)]
pub extern "C" fn cefindrato_checker_add_clause(
    alloc: Global,
    checker: &mut CheckerHandle,
    clause: &[i32],
) -> CheckerAnswer
    ensures run { (r : Outcome) × IsAnswer result r
        × IsAdd checker.old checker.new clause.now r }
{
    CheckerAnswer::of(checker.add_clause(alloc, clause))
}

/// Counts a step and checks it.
#[unsafe(no_mangle)]
pub extern "C" fn cefindrato_checker_check_step(
    alloc: Global,
    checker: &mut CheckerHandle,
    kind: u8,
    lits: &[i32],
    hashes: &[u64],
) -> CheckerAnswer
    ensures unknown { kind_of kind ≡ None → IsUnknownKind result
        × (state_of checker.new ≡ state_of checker.old) }
    ensures proves { IfSome (kind_of kind) (λ k. (s : State) (before : List rules.Step)
        → state_of checker.old ≡ Some s → IsFold before s → result.status ≡ 0
        → Proves (step_of k (lits_of lits.now) hashes.now) before s) }
    ensures refutes { IfSome (kind_of kind) (λ k. (s : State) (before : List rules.Step)
        → state_of checker.old ≡ Some s → IsCovered before s → result.status ≡ 0
        → Refutes (step_of k (lits_of lits.now) hashes.now) before) }
    ensures run { IfSome (kind_of kind) (λ k. (r : Outcome) × IsAnswer result r
        × IsChecked checker.old checker.new (step_of k (lits_of lits.now) hashes.now) lits.now r) }
{
    match StepKind::of(kind) {
        Some(kind) => CheckerAnswer::of(checker.check_step(alloc, kind, lits, hashes)),
        None => CheckerAnswer::of(Err(CallFault::NoStep)),
    }
}

/// Returns whether there is a checker that has not failed, and unsatisfiability is recorded.
#[unsafe(no_mangle)]
pub extern "C" fn cefindrato_checker_unsat(alloc: Global, checker: &mut CheckerHandle) -> bool
    ensures shown { result ≡ shows_unsat (state_of checker.old) }
    ensures kept { state_of checker.new ≡ state_of checker.old }
    ensures refutes { result ≡ true → (s : State) (before : List rules.Step)
        → state_of checker.old ≡ Some s → IsCovered before s → (a : ℕ → Bool)
        → holds before a ≡ false }
{
    checker.unsat(alloc)
}
