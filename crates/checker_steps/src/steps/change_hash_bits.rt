//! The width of hashes.
ghost use Rattle.checker_rules.specs.Step as rules;
ghost use Rattle.checker_steps.specs.Common.{AnswersOutcome, ContextInvariant, DeliveredList, Emits, UnlessStopped, context_state, listeners_in, step};

use crate::context::ContextOf;
use checker_parts::error::{CheckCause, StepFault};
use checker_parts::processor::{ProofProcessor, ProofTranscriptProcessor};
use clause_store::hash::rehash;
use std::alloc::Global;

/// Sets the width of hashes and applies the pending names and removals.
///
/// # Errors
///
/// `Refused` if the width is not 1 to 64. After `OutOfMemory` the parts are unspecified.
pub fn change_hash_bits<P: ProofProcessor, T: ProofTranscriptProcessor>(
    alloc: Global,
    ctx: &mut ContextOf<P, T>,
    bits: u32,
) -> Result<(), StepFault>
    requires { ContextInvariant ctx.old }
    ensures step { AnswersOutcome result
        (step (context_state ctx.old) (rules.change_hash_bits bits)) (context_state ctx.new) }
    ensures kept { UnlessStopped result (ContextInvariant ctx.new) }
    ensures delivered { DeliveredList result
        (Emits (context_state ctx.old) (rules.change_hash_bits bits))
        P.ProofProcessor T.ProofTranscriptProcessor (listeners_in ctx.old) (listeners_in ctx.new) }
{
    if bits == 0 || bits > u64::BITS {
        return Err(StepFault::Refused(CheckCause::HashBits));
    }
    match rehash(alloc, &mut ctx.clause_hasher, &mut ctx.clauses, bits) {
        Ok(()) => Ok(()),
        Err(_) => Err(StepFault::OutOfMemory),
    }
}
