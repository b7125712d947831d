//! Failed cores.
ghost use Rattle.std.specs.Prelude.{◌≡◌, IfOk, IsTrue, false, is_none, map};
ghost use Rattle.std.specs.List.{list_any};
ghost use Rattle.sat_rules.specs.Clauses.{is_canonical, is_tautology, negate, var_of};
ghost use Rattle.checker_rules.specs.Check.{check};
ghost use Rattle.checker_rules.specs.Outcome.{accept};
ghost use Rattle.checker_rules.specs.Step as rules;
ghost use Rattle.checker_rules.specs.Transcript.{user_of};
ghost use Rattle.checker_steps.specs.FailedCore.{core_cause, core_clause, core_steps};
ghost use Rattle.checker_steps.specs.Common.{AnswersOutcome, ClauseHasher, Clauses, ContextInvariant, DeliveredList, Emits, IsStore, UnlessStopped, context_state, listeners_in, state_of, step};
ghost use Rattle.checker_steps.specs.ModelCause.{IsJudged};

use crate::context::ContextOf;
use crate::emit::emit_failed_assumptions;
use checker_parts::error::{CheckCause, StepFault};
use checker_parts::processor::{CheckerData, ProofProcessor, ProofTranscriptProcessor};
use checker_parts::sorted_lits::{copy_canonical, is_subset};
use checker_parts::variables::Variables;
use clause_store::rup::check::check_clause_with_hashes;
use clause_store::state::CheckerState;
use proof_bytes::ClauseHash;
use sat_formula::Lit;
use std::alloc::{AllocError, Global};
use std::mem::replace;

/// Checks that assumptions fail together: the clause of their negations follows by unit
/// propagation. It is not stored. A core with opposite literals fails whatever is stored.
///
/// # Errors
///
/// `Refused` if a literal of the core is no assumption or has no user variable, or the clause does
/// not follow. After `Processor` and `OutOfMemory` the parts are unspecified.
pub fn failed_assumptions<P: ProofProcessor, T: ProofTranscriptProcessor>(
    alloc: Global,
    ctx: &mut ContextOf<P, T>,
    failed_core: &[Lit],
    hashes: &[ClauseHash],
) -> Result<(), StepFault>
    requires { ContextInvariant ctx.old }
    ensures step { AnswersOutcome result
        (step (context_state ctx.old) (rules.failed_assumptions failed_core.now hashes.now))
        (context_state ctx.new) }
    ensures kept { UnlessStopped result (ContextInvariant ctx.new) }
    ensures delivered { DeliveredList result
        (Emits (context_state ctx.old) (rules.failed_assumptions failed_core.now hashes.now))
        P.ProofProcessor T.ProofTranscriptProcessor (listeners_in ctx.old) (listeners_in ctx.new) }
{
    let Ok(has_opposites) = copy_canonical(&mut ctx.tmp_data.tmp, failed_core) else {
        return Err(StepFault::OutOfMemory);
    };
    let core = ctx.tmp_data.tmp.as_slice();
    if let Err(cause) = judge(&ctx.checker_state, &ctx.variables, core) {
        return Err(StepFault::Refused(cause));
    }
    if has_opposites {
        return emit_failed_assumptions(&mut ctx.processing, &ctx.variables, core, &[]);
    }
    let core = replace(&mut ctx.tmp_data.tmp, Vec::new(alloc));
    let answer = check_core(alloc, ctx, &core, hashes);
    ctx.tmp_data.tmp = core;
    answer
}

/// Why a core is rejected before its check: its literals are to be assumptions with user variables.
fn judge(state: &CheckerState, variables: &Variables, core: &[Lit]) -> Result<(), CheckCause>
    requires core { IsTrue (is_canonical core.now) }
    requires assumed { IsTrue (is_canonical state.now.assumptions.items) }
    ensures { (h : ClauseHasher) (cs : Clauses)
        → IsJudged result (core_cause (state_of state.now h cs variables.now) core.now) }
{
    if !is_subset(core, &state.assumptions, false) {
        return Err(CheckCause::NotAssumed);
    }
    if some_hidden(variables, core) {
        return Err(CheckCause::CoreVarHidden);
    }
    Ok(())
}

/// Returns whether some literal's variable has no user variable.
fn some_hidden(variables: &Variables, core: &[Lit]) -> bool
    ensures { result ≡ list_any (λ l. is_none (user_of variables.now (var_of l))) core.now }
{
    core.iter().any(|lit| is_hidden(variables, *lit))
}

/// Returns whether the literal's variable has no user variable.
fn is_hidden(variables: &Variables, lit: Lit) -> bool
    ensures { result ≡ is_none (user_of variables.now (var_of lit)) }
{
    CheckerData(variables)
        .user_from_proof_var(lit.var())
        .is_none()
}

/// Checks that a core without opposite literals fails, and delivers it.
fn check_core<P: ProofProcessor, T: ProofTranscriptProcessor>(
    alloc: Global,
    ctx: &mut ContextOf<P, T>,
    core: &[Lit],
    hashes: &[ClauseHash],
) -> Result<(), StepFault>
    requires kept { ContextInvariant ctx.old }
    requires canonical { IsTrue (is_canonical core.now) }
    requires no_tautology { is_tautology core.now ≡ false }
    ensures answer { AnswersOutcome result
        (check (context_state ctx.old) (core_clause core.now) hashes.now accept)
        (context_state ctx.new) }
    ensures store { UnlessStopped result (IsStore ctx.new.clause_hasher ctx.new.clauses) }
    ensures delivered { DeliveredList result
        (λ steps. steps ≡ core_steps (context_state ctx.old) core.now hashes.now)
        P.ProofProcessor T.ProofTranscriptProcessor (listeners_in ctx.old) (listeners_in ctx.new) }
{
    let Ok(clause) = negations(alloc, core) else {
        return Err(StepFault::OutOfMemory);
    };
    let traced = !ctx.processing.processors.is_empty();
    check_clause_with_hashes(
        alloc,
        &ctx.checker_state,
        &mut ctx.clause_hasher,
        &mut ctx.clauses,
        &mut ctx.variables,
        &mut ctx.rup_check,
        traced,
        &clause,
        hashes,
    )?;
    let rup = &ctx.rup_check;
    let propagations = rup.trace_ids.as_slice();
    emit_failed_assumptions(&mut ctx.processing, &ctx.variables, core, propagations)
}

/// Returns the negations of the literals, in their order.
fn negations(alloc: Global, lits: &[Lit]) -> Result<Vec<Lit>, AllocError>
    ensures { IfOk result (λ negated. negated.items ≡ map negate lits.now) }
{
    let mut negated = Vec::new(alloc);
    for lit in lits {
        negated.push(!*lit)?;
    }
    Ok(negated)
}
