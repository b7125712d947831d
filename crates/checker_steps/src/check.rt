//! How steps and proofs are checked.
ghost use Rattle.std.specs.Prelude.{◌≡◌, ◌≢◌, ◌≤◌, Err, Ok, true, false};
ghost use Rattle.checker_rules.specs.CallEmissions.{EmitsCall};
ghost use Rattle.checker_rules.specs.Calls.{attempt, checks, closes, closing_conflict, step_limit};
ghost use Rattle.checker_rules.specs.Step as steps;
ghost use Rattle.checker_rules.specs.Steps as rules;
ghost use Rattle.checker_parts.specs.Answers.{AnswersParts, UnlessFailed};
ghost use Rattle.checker_parts.specs.Faults.{IsErrorOf, has_stopped};
ghost use Rattle.checker_parts.specs.Memory.{NeedsNoMemory};
ghost use Rattle.checker_parts.specs.declared.error.StepFault.TheVariants.{OutOfMemory, Refused};
ghost use Rattle.proof_bytes.specs.NextStep.{view};
ghost use Rattle.checker_steps.specs.Failing.{has_failed};
ghost use Rattle.checker_steps.specs.Delivered.{Delivered};
ghost use Rattle.checker_steps.specs.Common.{AnswersOutcome, ContextInvariant, DeliveredList, Emits, UnlessStopped, context_state, listeners_in, listeners_of};
ghost use Rattle.checker_steps.specs.Idle.{wants_no_memory};

use crate::context::ContextOf;
use crate::emit::emit_at_clause;
use crate::processing::ProcessingOf;
use crate::steps::assumptions::assumptions;
use crate::steps::at_clause::at_clause;
use crate::steps::change_hash_bits::change_hash_bits;
use crate::steps::change_sampling_mode::change_sampling_mode;
use crate::steps::delete_clause::delete_clause;
use crate::steps::delete_var::delete_var;
use crate::steps::failed_assumptions::failed_assumptions;
use crate::steps::model::model;
use crate::steps::solver_var_name::solver_var_name;
use crate::steps::unit_clauses::unit_clauses;
use crate::steps::user_var_name::user_var_name;
use checker_parts::error::{CheckCause, CheckerError, StepFault};
use checker_parts::processor::{ProofProcessor, ProofTranscriptProcessor};
use clause_store::state::CheckerState;
use proof_bytes::ProofStep;
use sat_formula::Lit;
use std::alloc::Global;

/// Adds an input clause. If unsatisfiability is recorded, changes nothing.
///
/// # Errors
///
/// `CheckFailed` if a variable of the clause was sampled away, or no id or count is left. After
/// `ProofProcessorError` and `OutOfMemory` the parts are unspecified.
pub fn add_clause<P: ProofProcessor, T: ProofTranscriptProcessor>(
    alloc: Global,
    ctx: &mut ContextOf<P, T>,
    lits: &[Lit],
) -> Result<(), CheckerError>
    requires { ContextInvariant ctx.old }
    ensures step { AnswersParts result
        (rules.step (context_state ctx.old) (steps.add_clause lits.now)) (context_state ctx.new) }
    ensures kept { UnlessFailed result (ContextInvariant ctx.new) }
    ensures delivered { Delivered result
        (Emits (context_state ctx.old) (steps.add_clause lits.now))
        P.ProofProcessor T.ProofTranscriptProcessor (listeners_in ctx.old) (listeners_in ctx.new) }
    ensures after_unsat { (context_state ctx.old).unsat ≡ true
        → (result ≡ Ok tt) × (ctx.new ≡ ctx.old) }
{
    let taken = crate::steps::add_clause::add_clause(alloc, ctx, lits);
    ctx.processing.answer(alloc, ctx.checker_state.step, taken)
}

/// Checks one step, which its callers count.
///
/// # Errors
///
/// `CheckFailed` if the step is rejected. After `ProofProcessorError` and `OutOfMemory` the parts
/// are unspecified.
pub fn check_step<P: ProofProcessor, T: ProofTranscriptProcessor>(
    alloc: Global,
    ctx: &mut ContextOf<P, T>,
    step: &ProofStep,
) -> Result<(), CheckerError>
    requires { ContextInvariant ctx.old }
    ensures step { AnswersParts result (rules.step (context_state ctx.old) (view step.now))
        (context_state ctx.new) }
    ensures kept { UnlessFailed result (ContextInvariant ctx.new) }
    ensures delivered { Delivered result (Emits (context_state ctx.old) (view step.now))
        P.ProofProcessor T.ProofTranscriptProcessor (listeners_in ctx.old) (listeners_in ctx.new) }
    ensures idle { wants_no_memory (context_state ctx.old).unsat (view step.now) ≡ true
        → has_failed result ≡ false }
{
    let taken = take_step(alloc, ctx, step);
    ctx.processing.answer(alloc, ctx.checker_state.step, taken)
}

/// Takes one step, up to its fault.
#[inline(always)]
fn take_step<P: ProofProcessor, T: ProofTranscriptProcessor>(
    alloc: Global,
    ctx: &mut ContextOf<P, T>,
    step: &ProofStep,
) -> Result<(), StepFault>
    requires { ContextInvariant ctx.old }
    ensures step { AnswersOutcome result (rules.step (context_state ctx.old) (view step.now))
        (context_state ctx.new) }
    ensures kept { UnlessStopped result (ContextInvariant ctx.new) }
    ensures delivered { DeliveredList result (Emits (context_state ctx.old) (view step.now))
        P.ProofProcessor T.ProofTranscriptProcessor (listeners_in ctx.old) (listeners_in ctx.new) }
    ensures idle { wants_no_memory (context_state ctx.old).unsat (view step.now) ≡ true
        → has_stopped result ≡ false }
{
    match step {
        ProofStep::SolverVarName { global, solver } => solver_var_name(ctx, *global, *solver),
        ProofStep::UserVarName { global, user } => user_var_name(ctx, *global, *user),
        ProofStep::ChangeSamplingMode { var, sample } => change_sampling_mode(ctx, *var, *sample),
        ProofStep::AddClause { clause } => {
            crate::steps::add_clause::add_clause(alloc, ctx, clause)
        }
        ProofStep::AtClause {
            redundant,
            clause,
            propagation_hashes,
        } => at_clause(alloc, ctx, *redundant, clause, propagation_hashes),
        ProofStep::UnitClauses { units } => unit_clauses(alloc, ctx, units),
        ProofStep::DeleteClause { clause, proof } => delete_clause(alloc, ctx, *proof, clause),
        ProofStep::DeleteVar { var } => delete_var(ctx, *var),
        ProofStep::Model { assignment } => model(ctx, assignment),
        ProofStep::ChangeHashBits { bits } => change_hash_bits(alloc, ctx, *bits),
        ProofStep::Assumptions { assumptions: lits } => assumptions(ctx, lits),
        ProofStep::FailedAssumptions {
            failed_core,
            propagation_hashes,
        } => failed_assumptions(alloc, ctx, failed_core, propagation_hashes),
        ProofStep::End => {
            ctx.checker_state.ended = true;
            Ok(())
        }
    }
}

/// Counts a step and takes it, up to its fault.
///
/// # Errors
///
/// `Refused` if the step is rejected, or no step number is left, before anything of the step is
/// looked at. After `Processor` and `OutOfMemory` the parts are unspecified.
#[inline(always)]
pub fn take_counted<P: ProofProcessor, T: ProofTranscriptProcessor>(
    alloc: Global,
    ctx: &mut ContextOf<P, T>,
    step: &ProofStep,
) -> Result<(), StepFault>
    requires { ContextInvariant ctx.old }
    ensures step { AnswersOutcome result (attempt (context_state ctx.old) (view step.now))
        (context_state ctx.new) }
    ensures kept { UnlessStopped result (ContextInvariant ctx.new) }
    ensures delivered { DeliveredList result
        (EmitsCall (context_state ctx.old) (checks (view step.now)))
        P.ProofProcessor T.ProofTranscriptProcessor (listeners_in ctx.old) (listeners_in ctx.new) }
    ensures idle { wants_no_memory (context_state ctx.old).unsat (view step.now) ≡ true
        → has_stopped result ≡ false }
    ensures exhausted { step_limit ≤ (context_state ctx.old).steps → has_stopped result ≡ false }
{
    if ctx.checker_state.step == u64::MAX {
        return Err(StepFault::Refused(CheckCause::StepsExhausted));
    }
    ctx.checker_state.step += 1;
    take_step(alloc, ctx, step)
}

/// Returns the error of a step's fault at this number. A step that was rejected is shown in it, if
/// it was looked at.
#[inline(never)]
pub fn step_error<P: ProofProcessor, T: ProofTranscriptProcessor>(
    alloc: Global,
    processing: &mut ProcessingOf<P, T>,
    number: u64,
    fault: StepFault,
    step: &ProofStep,
) -> CheckerError
    ensures error { IsErrorOf number fault result }
    ensures listeners { listeners_of processing.new ≡ listeners_of processing.old }
{
    let text = refused_text(alloc, fault, step);
    processing.error(number, fault, text)
}

/// Counts a step and checks it.
///
/// # Errors
///
/// As for `check_step`, and `CheckFailed` if no step number is left, before anything of the step is
/// looked at.
pub fn attempt_step<P: ProofProcessor, T: ProofTranscriptProcessor>(
    alloc: Global,
    ctx: &mut ContextOf<P, T>,
    step: &ProofStep,
) -> Result<(), CheckerError>
    requires { ContextInvariant ctx.old }
    ensures step { AnswersParts result (attempt (context_state ctx.old) (view step.now))
        (context_state ctx.new) }
    ensures kept { UnlessFailed result (ContextInvariant ctx.new) }
    ensures delivered { Delivered result
        (EmitsCall (context_state ctx.old) (checks (view step.now)))
        P.ProofProcessor T.ProofTranscriptProcessor (listeners_in ctx.old) (listeners_in ctx.new) }
    ensures idle { wants_no_memory (context_state ctx.old).unsat (view step.now) ≡ true
        → has_failed result ≡ false }
    ensures exhausted { step_limit ≤ (context_state ctx.old).steps → has_failed result ≡ false }
{
    match take_counted(alloc, ctx, step) {
        Ok(()) => Ok(()),
        Err(fault) => {
            let number = ctx.checker_state.step;
            Err(step_error(alloc, &mut ctx.processing, number, fault, step))
        }
    }
}

/// Closes a conflict as the end of a proof does: if a unit conflict is recorded, takes an id for
/// the empty clause and delivers it. Allocates nothing.
///
/// # Errors
///
/// `CheckFailed` if no id is left. After `ProofProcessorError` the parts are unspecified.
pub fn process_unit_conflicts<P: ProofProcessor, T: ProofTranscriptProcessor>(
    alloc: Global,
    ctx: &mut ContextOf<P, T>,
) -> Result<(), CheckerError>
    requires { ContextInvariant ctx.old }
    ensures answer { AnswersParts result (closing_conflict (context_state ctx.old))
        (context_state ctx.new) }
    ensures kept { UnlessFailed result (ContextInvariant ctx.new) }
    ensures delivered { Delivered result (EmitsCall (context_state ctx.old) closes)
        P.ProofProcessor T.ProofTranscriptProcessor (listeners_in ctx.old) (listeners_in ctx.new) }
    ensures memory { NeedsNoMemory result }
{
    let closed = close_unit_conflict(ctx);
    ctx.processing.answer(alloc, ctx.checker_state.step, closed)
}

/// Closes a conflict of units; a fault is left for the caller to name.
fn close_unit_conflict<P: ProofProcessor, T: ProofTranscriptProcessor>(
    ctx: &mut ContextOf<P, T>,
) -> Result<(), StepFault>
    requires { ContextInvariant ctx.old }
    ensures answer { AnswersOutcome result (closing_conflict (context_state ctx.old))
        (context_state ctx.new) }
    ensures kept { UnlessStopped result (ContextInvariant ctx.new) }
    ensures delivered { DeliveredList result (EmitsCall (context_state ctx.old) closes)
        P.ProofProcessor T.ProofTranscriptProcessor (listeners_in ctx.old) (listeners_in ctx.new) }
    ensures memory { result ≢ Err OutOfMemory }
{
    let Some((stored, refuting)) = ctx.clauses.unit_conflict else {
        return Ok(());
    };
    match ctx.clauses.take_id() {
        Some(id) => emit_at_clause(
            &mut ctx.processing,
            &ctx.variables,
            id,
            false,
            &[],
            &[stored, refuting],
        ),
        None => Err(StepFault::Refused(CheckCause::IdsExhausted)),
    }
}

/// Returns a rejection at the present step, without the text of a step. Takes no memory.
pub fn refusal(alloc: Global, state: &CheckerState, msg: CheckCause) -> CheckerError
    ensures { IsErrorOf state.now.step (Refused msg) result }
{
    CheckerError::CheckFailed {
        step: state.step,
        msg,
        debug_step: String::new(alloc),
    }
}

/// Returns the text of a step that is rejected, where memory for it is found. Of another fault none
/// is shown.
fn refused_text(alloc: Global, fault: StepFault, refused: &ProofStep) -> String {
    match fault {
        StepFault::Refused(CheckCause::StepsExhausted) => String::new(alloc),
        StepFault::Refused(_) => step_text(alloc, refused),
        _ => String::new(alloc),
    }
}

/// Returns the text of a step, or none where an allocation failed. Rejected user names and
/// assumptions show none.
fn step_text(alloc: Global, step: &ProofStep) -> String {
    if let ProofStep::UserVarName { .. } | ProofStep::Assumptions { .. } = step {
        return String::new(alloc);
    }
    match format!(in alloc; "{step:?}") {
        Ok(text) => text,
        Err(_) => String::new(alloc),
    }
}
