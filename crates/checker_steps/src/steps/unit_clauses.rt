//! Derived units.
ghost use Rattle.checker_rules.specs.Step as rules;
ghost use Rattle.checker_steps.specs.Common.{AnswersOutcome, ContextInvariant, DeliveredList, Emits, UnlessStopped, context_state, listeners_in, step};

use crate::context::ContextOf;
use crate::steps::derived::derive;
use checker_parts::error::StepFault;
use checker_parts::processor::{ProofProcessor, ProofTranscriptProcessor};
use proof_bytes::ClauseHash;
use sat_formula::Lit;
use std::alloc::Global;

/// Checks the units in turn, each with the one clause that its hash names, and stores them. The
/// previous clause stays.
///
/// # Errors
///
/// `Refused` for the first unit that does not follow; those before it stay stored and delivered.
/// After `Processor` and `OutOfMemory` the parts are unspecified.
pub fn unit_clauses<P: ProofProcessor, T: ProofTranscriptProcessor>(
    alloc: Global,
    ctx: &mut ContextOf<P, T>,
    units: &[(Lit, ClauseHash)],
) -> Result<(), StepFault>
    requires { ContextInvariant ctx.old }
    ensures step { AnswersOutcome result
        (step (context_state ctx.old) (rules.unit_clauses units.now)) (context_state ctx.new) }
    ensures kept { UnlessStopped result (ContextInvariant ctx.new) }
    ensures delivered { DeliveredList result
        (Emits (context_state ctx.old) (rules.unit_clauses units.now))
        P.ProofProcessor T.ProofTranscriptProcessor (listeners_in ctx.old) (listeners_in ctx.new) }
{
    for (lit, hash) in units {
        derive(alloc, ctx, false, &[*lit], &[*hash])?;
    }
    Ok(())
}
