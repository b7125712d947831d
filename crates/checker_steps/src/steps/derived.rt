//! Derived clauses: checked, stored and delivered.
ghost use Rattle.std.specs.Prelude.{◌≡◌, ℕ, List, IfOk, false, true};
ghost use Rattle.sat_rules.specs.Clauses.{is_canonical, is_tautology};
ghost use Rattle.checker_rules.specs.Check.{ready};
ghost use Rattle.checker_rules.specs.Store.{id_of};
ghost use Rattle.clause_store.specs.Refusal.{store_fault};
ghost use Rattle.checker_steps.specs.Derived.{IsTraceFor, derived, derived_steps, stored_steps};
ghost use Rattle.checker_steps.specs.Common.{AnswersOutcome, ContextInvariant, DeliveredAll, DeliveredList, IsStore, UnlessStopped, context_state, listeners_in, listeners_of};

use crate::context::ContextOf;
use crate::emit::{emit_at_clause, emit_make_irredundant};
use crate::processing::ProcessingOf;
use checker_parts::error::{CheckCause, StepFault};
use checker_parts::processor::{ProofProcessor, ProofTranscriptProcessor};
use checker_parts::variables::Variables;
use clause_store::clauses::StoreClauseResult;
use clause_store::clauses::store::{StoreFault, store_clause};
use clause_store::rup::check::check_clause_with_hashes;
use proof_bytes::ClauseHash;
use sat_formula::Lit;
use std::alloc::Global;

/// Checks a canonical clause without opposite literals, stores it in its kind and delivers it.
/// Returns its id.
///
/// The previous clause stays. The check is traced only where a processor is registered, since
/// transcripts see no propagations.
#[inline(always)]
pub(crate) fn derive<P: ProofProcessor, T: ProofTranscriptProcessor>(
    alloc: Global,
    ctx: &mut ContextOf<P, T>,
    redundant: bool,
    clause: &[Lit],
    hashes: &[ClauseHash],
) -> Result<u64, StepFault>
    requires kept { ContextInvariant ctx.old }
    requires canonical { is_canonical clause.now ≡ true }
    requires no_tautology { is_tautology clause.now ≡ false }
    ensures answer { AnswersOutcome result
        (derived (context_state ctx.old) redundant clause.now hashes.now)
        (context_state ctx.new) }
    ensures id { IfOk result (λ id. id
        ≡ id_of clause.now (ready (context_state ctx.old) clause.now)) }
    ensures store { UnlessStopped result (IsStore ctx.new.clause_hasher ctx.new.clauses) }
    ensures delivered { DeliveredList result
        (λ steps. steps ≡ derived_steps (context_state ctx.old) redundant clause.now hashes.now)
        P.ProofProcessor T.ProofTranscriptProcessor (listeners_in ctx.old) (listeners_in ctx.new) }
{
    let traced = !ctx.processing.processors.is_empty();
    check_clause_with_hashes(
        alloc,
        &ctx.checker_state,
        &mut ctx.clause_hasher,
        &mut ctx.clauses,
        &mut ctx.variables,
        &mut ctx.rup_check,
        traced,
        clause,
        hashes,
    )?;
    match store_clause(
        alloc,
        &mut ctx.checker_state,
        &ctx.clause_hasher,
        &mut ctx.clauses,
        clause,
        redundant,
    ) {
        Ok((id, did)) => {
            let rup = &ctx.rup_check;
            let propagations = rup.trace_ids.as_slice();
            emit_derived(
                &mut ctx.processing,
                &ctx.variables,
                did,
                id,
                redundant,
                clause,
                propagations,
            )?;
            Ok(id)
        }
        Err(fault) => Err(store_fault(fault)),
    }
}

/// Returns why a step is not accepted whose clause could not be stored.
pub fn store_fault(fault: StoreFault) -> StepFault
    ensures { result ≡ store_fault fault }
{
    match fault {
        StoreFault::OutOfMemory => StepFault::OutOfMemory,
        StoreFault::IdsExhausted => StepFault::Refused(CheckCause::IdsExhausted),
        StoreFault::CountExhausted => StepFault::Refused(CheckCause::CountExhausted),
    }
}

/// Delivers what storing a derived clause did.
#[inline(always)]
fn emit_derived<P: ProofProcessor, T: ProofTranscriptProcessor>(
    processing: &mut ProcessingOf<P, T>,
    variables: &Variables,
    did: StoreClauseResult,
    id: u64,
    redundant: bool,
    clause: &[Lit],
    propagations: &[u64],
) -> Result<(), StepFault>
    ensures { (ids : List ℕ) → IsTraceFor processing.old.processors.items propagations.now ids
        → DeliveredAll result (stored_steps did variables.now id redundant clause.now ids)
        P.ProofProcessor T.ProofTranscriptProcessor (listeners_of processing.old)
        (listeners_of processing.new) }
{
    match did {
        StoreClauseResult::New => {
            emit_at_clause(processing, variables, id, redundant, clause, propagations)
        }
        StoreClauseResult::NewlyIrredundant => {
            emit_make_irredundant(processing, variables, id, clause)
        }
        StoreClauseResult::Duplicate => Ok(()),
    }
}
