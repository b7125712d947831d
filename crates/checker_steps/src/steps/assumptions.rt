//! Assumptions.
ghost use Rattle.checker_rules.specs.Step as rules;
ghost use Rattle.checker_steps.specs.Common.{AnswersOutcome, ContextInvariant, DeliveredList, Emits, UnlessStopped, context_state, listeners_in, step};

use crate::context::ContextOf;
use crate::emit::emit_assumptions;
use crate::variables::some_not_sampling;
use checker_parts::error::{CheckCause, StepFault};
use checker_parts::processor::{ProofProcessor, ProofTranscriptProcessor};
use checker_parts::sorted_lits::copy_canonical;
use clause_store::variables::{ensure_vars, var_bound};
use sat_formula::Lit;
use std::mem::swap;

/// Replaces the assumptions, which may have opposite literals.
///
/// # Errors
///
/// `Refused` if a variable of them is not in mode `Sample`. After `Processor` and `OutOfMemory` the
/// parts are unspecified.
pub fn assumptions<P: ProofProcessor, T: ProofTranscriptProcessor>(
    ctx: &mut ContextOf<P, T>,
    lits: &[Lit],
) -> Result<(), StepFault>
    requires { ContextInvariant ctx.old }
    ensures step { AnswersOutcome result (step (context_state ctx.old) (rules.assumptions lits.now))
        (context_state ctx.new) }
    ensures kept { UnlessStopped result (ContextInvariant ctx.new) }
    ensures delivered { DeliveredList result
        (Emits (context_state ctx.old) (rules.assumptions lits.now))
        P.ProofProcessor T.ProofTranscriptProcessor (listeners_in ctx.old) (listeners_in ctx.new) }
{
    let Ok(_) = copy_canonical(&mut ctx.tmp_data.tmp, lits) else {
        return Err(StepFault::OutOfMemory);
    };
    let list = ctx.tmp_data.tmp.as_slice();
    if some_not_sampling(&ctx.variables, list) {
        return Err(StepFault::Refused(CheckCause::NotSampling));
    }
    let Ok(()) = ensure_vars(&mut ctx.clauses, &mut ctx.variables, var_bound(list)) else {
        return Err(StepFault::OutOfMemory);
    };
    // The memory of the old list serves the next one.
    swap(&mut ctx.checker_state.assumptions, &mut ctx.tmp_data.tmp);
    emit_assumptions(
        &mut ctx.processing,
        &ctx.variables,
        ctx.checker_state.assumptions.as_slice(),
    )
}
