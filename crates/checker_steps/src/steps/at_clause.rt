//! Derived clauses.
ghost use Rattle.std.specs.Prelude.{◌≡◌, ℕ, List, Err, OnErr, OnOk, false, true};
ghost use Rattle.sat_rules.specs.Clauses.{is_canonical, is_tautology};
ghost use Rattle.checker_rules.specs.AtClause.{set_previous as rules_previous};
ghost use Rattle.checker_rules.specs.Canonical.{canonical};
ghost use Rattle.checker_rules.specs.State.{Known};
ghost use Rattle.checker_rules.specs.Step as rules;
ghost use Rattle.checker_steps.specs.Common.{AnswersOutcome, ClauseHasher, Clauses, ContextInvariant, DeliveredList, Emits, UnlessStopped, context_state, listeners_in, state_of, step};
ghost use Rattle.checker_parts.specs.declared.error.StepFault.TheVariants.{OutOfMemory};

use crate::context::ContextOf;
use crate::steps::derived::derive;
use checker_parts::error::{CheckCause, StepFault};
use checker_parts::processor::{ProofProcessor, ProofTranscriptProcessor};
use checker_parts::sorted_lits::has_rising_vars;
use clause_store::state::CheckerState;
use proof_bytes::ClauseHash;
use sat_formula::Lit;
use std::alloc::Global;

/// Checks a derived clause and stores it in its kind. An irredundant one becomes the previous
/// clause.
///
/// # Errors
///
/// `Refused` if the clause does not follow by unit propagation from the clauses of the hashes, or
/// the step is rejected for another cause of its rule. After `Processor` and `OutOfMemory` the
/// parts are unspecified.
#[inline(always)]
pub fn at_clause<P: ProofProcessor, T: ProofTranscriptProcessor>(
    alloc: Global,
    ctx: &mut ContextOf<P, T>,
    redundant: bool,
    lits: &[Lit],
    hashes: &[ClauseHash],
) -> Result<(), StepFault>
    requires { ContextInvariant ctx.old }
    ensures step { AnswersOutcome result
        (step (context_state ctx.old) (rules.at_clause redundant lits.now hashes.now))
        (context_state ctx.new) }
    ensures kept { UnlessStopped result (ContextInvariant ctx.new) }
    ensures delivered { DeliveredList result
        (Emits (context_state ctx.old) (rules.at_clause redundant lits.now hashes.now))
        P.ProofProcessor T.ProofTranscriptProcessor (listeners_in ctx.old) (listeners_in ctx.new) }
{
    // Most clauses are in order, and then none is copied.
    if has_rising_vars(lits) {
        return at_canonical(alloc, ctx, redundant, lits, hashes);
    }
    match ctx.tmp_data.take_canonical(alloc, lits) {
        Ok(Some(clause)) => {
            let taken = at_canonical(alloc, ctx, redundant, &clause, hashes);
            ctx.tmp_data.tmp = clause;
            taken
        }
        Ok(None) => Err(StepFault::Refused(CheckCause::Tautology)),
        Err(_) => Err(StepFault::OutOfMemory),
    }
}

/// Checks and adds a clause that has its canonical list, without opposite literals. It represents
/// each list of these literals.
#[inline(always)]
fn at_canonical<P: ProofProcessor, T: ProofTranscriptProcessor>(
    alloc: Global,
    ctx: &mut ContextOf<P, T>,
    redundant: bool,
    clause: &[Lit],
    hashes: &[ClauseHash],
) -> Result<(), StepFault>
    requires kept { ContextInvariant ctx.old }
    requires canonical { is_canonical clause.now ≡ true }
    requires no_tautology { is_tautology clause.now ≡ false }
    ensures step { (lits : List ℕ) → clause.now ≡ canonical lits → AnswersOutcome result
        (step (context_state ctx.old) (rules.at_clause redundant lits hashes.now))
        (context_state ctx.new) }
    ensures kept { UnlessStopped result (ContextInvariant ctx.new) }
    ensures delivered { (lits : List ℕ) → clause.now ≡ canonical lits → DeliveredList result
        (Emits (context_state ctx.old) (rules.at_clause redundant lits hashes.now))
        P.ProofProcessor T.ProofTranscriptProcessor (listeners_in ctx.old) (listeners_in ctx.new) }
{
    let id = derive(alloc, ctx, redundant, clause, hashes)?;
    if redundant {
        return Ok(());
    }
    set_previous(&mut ctx.checker_state, clause, id)
}

/// Keeps the previous clause, with its id.
#[inline(always)]
fn set_previous(state: &mut CheckerState, clause: &[Lit], id: u64) -> Result<(), StepFault>
    ensures state { OnOk result ((hasher : ClauseHasher) (clauses : Clauses) (known : List Known)
        → state_of state.new hasher clauses known
        ≡ rules_previous clause.now id (state_of state.old hasher clauses known)) }
    ensures memory { OnErr result (result ≡ Err OutOfMemory) }
{
    state.previous_id = None;
    state.previous_lits.clear();
    if state.previous_lits.extend_from_slice(clause).is_err() {
        return Err(StepFault::OutOfMemory);
    }
    state.previous_id = Some(id);
    Ok(())
}
