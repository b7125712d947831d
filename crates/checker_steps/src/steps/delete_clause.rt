//! Deletions of clauses.
ghost use Rattle.std.specs.Prelude.{◌≡◌, IsTrue, ℕ, List, if◌then◌else◌, false, true};
ghost use Rattle.sat_rules.specs.Clauses.{is_canonical, is_tautology};
ghost use Rattle.checker_rules.specs.Canonical.{canonical};
ghost use Rattle.checker_rules.specs.State.{Known};
ghost use Rattle.checker_rules.specs.Step as rules;
ghost use Rattle.checker_rules.specs.WellFormed.{is_previous_canonical};
ghost use Rattle.checker_parts.specs.declared.error.CheckCause.TheVariants.{DeleteIrredundantIsRedundant, DeleteRedundantIsIrredundant};
ghost use Rattle.proof_bytes.specs.NextStep.{why};
ghost use Rattle.clause_store.specs.Refusal.{delete_fault};
ghost use Rattle.clause_store.specs.Trace.{AreStored};
ghost use Rattle.checker_steps.specs.DeletionSteps.{deletion_steps};
ghost use Rattle.checker_steps.specs.Common.{AnswersOutcome, ClauseHasher, ContextInvariant, DeliveredAll, DeliveredList, Emits, UnlessStopped, context_state, listeners_in, listeners_of, state_of, step};
ghost use Rattle.checker_steps.specs.Justified.{AnswersJustified, previous_of, subsuming_id};

use crate::context::ContextOf;
use crate::emit::{emit_delete_at_clause, emit_delete_clause};
use crate::processing::ProcessingOf;
use checker_parts::error::{CheckCause, StepFault};
use checker_parts::processor::{ProofProcessor, ProofTranscriptProcessor};
use checker_parts::sorted_lits::{has_rising_vars, is_subset};
use checker_parts::variables::Variables;
use clause_store::clauses::delete::{self, DeleteFault};
use clause_store::clauses::{Clauses, DeleteClauseResult};
use clause_store::state::CheckerState;
use proof_bytes::DeleteClauseProof;
use sat_formula::Lit;
use std::alloc::Global;

/// Deletes one copy of a clause. A justification that passes makes the checker forget the previous
/// clause, even if the step is then rejected.
///
/// # Errors
///
/// `Refused` if the justification fails or no copy of the kind is stored. After `Processor` and
/// `OutOfMemory` the parts are unspecified.
#[inline(always)]
pub fn delete_clause<P: ProofProcessor, T: ProofTranscriptProcessor>(
    alloc: Global,
    ctx: &mut ContextOf<P, T>,
    proof: DeleteClauseProof,
    lits: &[Lit],
) -> Result<(), StepFault>
    requires { ContextInvariant ctx.old }
    ensures step { AnswersOutcome result
        (step (context_state ctx.old) (rules.delete_clause (why proof) lits.now))
        (context_state ctx.new) }
    ensures kept { UnlessStopped result (ContextInvariant ctx.new) }
    ensures delivered { DeliveredList result
        (Emits (context_state ctx.old) (rules.delete_clause (why proof) lits.now))
        P.ProofProcessor T.ProofTranscriptProcessor (listeners_in ctx.old) (listeners_in ctx.new) }
{
    // Most clauses are in order, and then none is copied.
    if has_rising_vars(lits) {
        return delete_canonical(alloc, ctx, proof, lits);
    }
    match ctx.tmp_data.take_canonical(alloc, lits) {
        Ok(Some(clause)) => {
            let deleted = delete_canonical(alloc, ctx, proof, &clause);
            ctx.tmp_data.tmp = clause;
            deleted
        }
        Ok(None) => Err(StepFault::Refused(CheckCause::Tautology)),
        Err(_) => Err(StepFault::OutOfMemory),
    }
}

/// Deletes a copy of a clause that has its canonical list, without opposite literals. It represents
/// each list of these literals.
#[inline(always)]
fn delete_canonical<P: ProofProcessor, T: ProofTranscriptProcessor>(
    alloc: Global,
    ctx: &mut ContextOf<P, T>,
    proof: DeleteClauseProof,
    clause: &[Lit],
) -> Result<(), StepFault>
    requires kept { ContextInvariant ctx.old }
    requires canonical { is_canonical clause.now ≡ true }
    requires no_tautology { is_tautology clause.now ≡ false }
    ensures step { (lits : List ℕ) → clause.now ≡ canonical lits → AnswersOutcome result
        (step (context_state ctx.old) (rules.delete_clause (why proof) lits))
        (context_state ctx.new) }
    ensures kept { UnlessStopped result (ContextInvariant ctx.new) }
    ensures delivered { (lits : List ℕ) → clause.now ≡ canonical lits → DeliveredList result
        (Emits (context_state ctx.old) (rules.delete_clause (why proof) lits))
        P.ProofProcessor T.ProofTranscriptProcessor (listeners_in ctx.old) (listeners_in ctx.new) }
{
    let implying = match justify(&ctx.checker_state, &ctx.clauses, clause, proof) {
        Ok(id) => id,
        Err(cause) => return Err(StepFault::Refused(cause)),
    };
    let redundant = implying.is_none();
    ctx.checker_state.previous_id = None;
    let deleted = delete::delete_clause(
        alloc,
        &ctx.clause_hasher,
        &mut ctx.clauses,
        clause,
        redundant,
    );
    match deleted {
        Ok((id, did)) => emit_deletion(
            &mut ctx.processing,
            &ctx.variables,
            id,
            clause,
            did,
            implying,
        ),
        Err(fault) => Err(delete_fault(fault, redundant)),
    }
}

/// Returns the id of the clause that implies the canonical one that is to go. A redundant one needs
/// none.
fn justify(
    state: &CheckerState,
    clauses: &Clauses,
    clause: &[Lit],
    proof: DeleteClauseProof,
) -> Result<Option<u64>, CheckCause>
    requires stored { AreStored clauses.now.unit_clauses }
    requires previous { is_previous_canonical (previous_of state.now) ≡ true }
    requires clause { IsTrue (is_canonical clause.now) }
    ensures { (h : ClauseHasher) (known : List Known)
        → AnswersJustified result (why proof) clause.now (state_of state.now h clauses.now known) }
{
    match proof {
        DeleteClauseProof::Redundant => Ok(None),
        DeleteClauseProof::Satisfied => match clauses.unit_clauses.true_unit_id(clause) {
            Some(id) => Ok(Some(id)),
            None => Err(CheckCause::NotSatisfied),
        },
        DeleteClauseProof::Simplified => match subsuming_id(state, clause) {
            Some(id) => Ok(Some(id)),
            None => Err(CheckCause::NotSubsumed),
        },
    }
}

/// Returns the id of the previous clause, if it is a proper subset of the canonical one.
fn subsuming_id(state: &CheckerState, clause: &[Lit]) -> Option<u64>
    requires previous { is_previous_canonical (previous_of state.now) ≡ true }
    requires clause { IsTrue (is_canonical clause.now) }
    ensures { result ≡ subsuming_id (previous_of state.now) clause.now }
{
    let id = state.previous_id?;
    if is_subset(&state.previous_lits, clause, true) {
        Some(id)
    } else {
        None
    }
}

/// Why the step is not taken where a copy was not deleted.
fn delete_fault(fault: DeleteFault, redundant: bool) -> StepFault
    ensures { result ≡ delete_fault fault redundant }
{
    match fault {
        DeleteFault::OutOfMemory => StepFault::OutOfMemory,
        DeleteFault::UnitOrEmpty => StepFault::Refused(CheckCause::DeleteUnitOrEmpty),
        DeleteFault::Unknown => StepFault::Refused(CheckCause::DeleteUnknown),
        DeleteFault::NoCopy => StepFault::Refused(no_copy(redundant)),
    }
}

/// Why no copy of the kind of a stored clause was deleted.
fn no_copy(redundant: bool) -> CheckCause
    ensures { result ≡ (if redundant then DeleteRedundantIsIrredundant
        else DeleteIrredundantIsRedundant) }
{
    if redundant {
        CheckCause::DeleteRedundantIsIrredundant
    } else {
        CheckCause::DeleteIrredundantIsRedundant
    }
}

/// Delivers what the deletion of a copy did to the clause: whether it was deleted, or became
/// redundant.
#[inline(always)]
fn emit_deletion<P: ProofProcessor, T: ProofTranscriptProcessor>(
    processing: &mut ProcessingOf<P, T>,
    variables: &Variables,
    id: u64,
    clause: &[Lit],
    did: DeleteClauseResult,
    implying: Option<u64>,
) -> Result<(), StepFault>
    ensures { DeliveredAll result (deletion_steps variables.now implying did id clause.now)
        P.ProofProcessor T.ProofTranscriptProcessor (listeners_of processing.old)
        (listeners_of processing.new) }
{
    match (implying, did) {
        (None, DeleteClauseResult::Removed) => {
            emit_delete_clause(processing, variables, id, clause)
        }
        (Some(implying), DeleteClauseResult::Removed) => {
            emit_delete_at_clause(processing, variables, id, false, clause, &[implying])
        }
        (Some(implying), DeleteClauseResult::NewlyRedundant) => {
            emit_delete_at_clause(processing, variables, id, true, clause, &[implying])
        }
        _ => Ok(()),
    }
}
