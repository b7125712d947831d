//! Steps checked one by one, as a solver's own tests do.
ghost use Rattle.std.specs.Prelude.{◌≡◌, ◌≤◌, true, false, List, OnOk};
ghost use Rattle.checker_rules.specs.Step as rules;
ghost use Rattle.checker_parts.specs.Models.{Proves, Refutes};
ghost use Rattle.proof_bytes.specs.NextStep.{view};
ghost use Rattle.checker_steps.specs.Idle.{wants_no_memory};
ghost use Rattle.varisat_checker.specs.Common.{AnswersStep, Certifies, CoversFold, EmitsCall, IsCovered, IsFailed, IsFold, NeedsNoMemory, SetsFold, State, UnlessFailed, attempt, checks, closes, closing_conflict, has_failed, step_limit};

use checker_parts::error::CheckerError;
use proof_bytes::ProofStep;

/// A checker that takes steps one by one.
pub trait SelfChecker {
    ghost use Rattle.std.specs.Prelude.{List, Result};
    ghost use Rattle.checker_rules.specs.CheckedSteps.{NamedStep};
    ghost use Rattle.checker_rules.specs.State.{State};
    ghost use Rattle.checker_parts.specs.declared.error.CheckerError.{CheckerError};

    ghost shown: { Self → State };

    /// Which steps of such lists the registered processors and transcripts took, by the result.
    ghost delivers: { Result (Unit {0}) CheckerError → (List NamedStep → Type 0) → Self → Self
        → Type 0 };

    /// Counts a step and checks it.
    ///
    /// Allocates nothing for `End`, for an input clause if unsatisfiability is recorded, and if no
    /// step number is left.
    ///
    /// # Errors
    ///
    /// `CheckFailed` if the step is rejected, or no step number is left. After
    /// `ProofProcessorError` and `OutOfMemory` the checker has failed: every later call returns
    /// `Failed`.
    fn self_check_step(&mut self, step: ProofStep) -> Result<(), CheckerError>
        ensures failed { (shown self.old).failed ≡ true → IsFailed result × (self.new ≡ self.old) }
        ensures step { (shown self.old).failed ≡ false
            → AnswersStep result (attempt (shown self.old) (view step.entry)) (shown self.new) }
        ensures headline { (shown self.old).failed ≡ false → (before : List rules.Step)
            → IsFold before (shown self.old)
            → SetsFold result before (view step.entry) (shown self.new) }
        ensures covers { (shown self.old).failed ≡ false → (before : List rules.Step)
            → IsCovered before (shown self.old)
            → CoversFold result before (view step.entry) (shown self.new) }
        ensures proves { (shown self.old).failed ≡ false → (before : List rules.Step)
            → IsFold before (shown self.old)
            → OnOk result (Proves (view step.entry) before (shown self.old)) }
        ensures refutes { (shown self.old).failed ≡ false → (before : List rules.Step)
            → IsCovered before (shown self.old) → OnOk result (Refutes (view step.entry) before) }
        ensures delivered { (shown self.old).failed ≡ false
            → delivers result (EmitsCall (shown self.old) (checks (view step.entry))) self.old
            self.new }
        ensures certified { (shown self.old).failed ≡ false
            → Certifies result (EmitsCall (shown self.old) (checks (view step.entry)))
            (shown self.old) (shown self.new) }
        ensures idle { (shown self.old).failed ≡ false
            → wants_no_memory (shown self.old).unsat (view step.entry) ≡ true
            → has_failed result ≡ false }
        ensures exhausted { (shown self.old).failed ≡ false → step_limit ≤ (shown self.old).steps
            → has_failed result ≡ false };

    /// Closes a conflict as the end of a proof does: if a unit conflict is recorded, it takes an id
    /// for the empty clause and delivers it. Counts no step and allocates nothing.
    ///
    /// # Errors
    ///
    /// `CheckFailed` if no clause id is left. After `ProofProcessorError` the checker has failed:
    /// every later call returns `Failed`.
    fn self_check_delayed_steps(&mut self) -> Result<(), CheckerError>
        ensures failed { (shown self.old).failed ≡ true → IsFailed result × (self.new ≡ self.old) }
        ensures closing { (shown self.old).failed ≡ false
            → AnswersStep result (closing_conflict (shown self.old)) (shown self.new) }
        ensures headline { (shown self.old).failed ≡ false → (before : List rules.Step)
            → IsFold before (shown self.old) → UnlessFailed result (IsFold before (shown self.new)) }
        ensures covers { (shown self.old).failed ≡ false → (before : List rules.Step)
            → IsCovered before (shown self.old)
            → UnlessFailed result (IsCovered before (shown self.new)) }
        ensures delivered { (shown self.old).failed ≡ false
            → delivers result (EmitsCall (shown self.old) closes) self.old self.new }
        ensures certified { (shown self.old).failed ≡ false
            → Certifies result (EmitsCall (shown self.old) closes) (shown self.old) (shown self.new) }
        ensures memory { NeedsNoMemory result };
}
