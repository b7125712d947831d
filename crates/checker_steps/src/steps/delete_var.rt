//! Variables that are deleted.
ghost use Rattle.std.specs.Prelude.{◌≡◌, ◌<◌, ℕ, List, None, IsOk, length};
ghost use Rattle.std.specs.List.{list_any};
ghost use Rattle.checker_rules.specs.DeleteVar.{forget_var, free_var, holds_var};
ghost use Rattle.checker_rules.specs.State.{Known, Stored, unit_of};
ghost use Rattle.checker_rules.specs.Step as rules;
ghost use Rattle.checker_rules.specs.Transcript.{known_at};
ghost use Rattle.sat_formula.specs.Vars.{index_of};
ghost use Rattle.clause_store.specs.Counts.{AreCounts};
ghost use Rattle.clause_store.specs.StateOf.{stored_units};
ghost use Rattle.checker_steps.specs.DeletedVar.{close_on, conflict_on, emits_close, emits_dropped};
ghost use Rattle.checker_steps.specs.Common.{AnswersOutcome, CheckerState, ClauseHasher, Clauses, ContextInvariant, DeliveredList, Emits, IsStore, UnlessStopped, context_state, listeners_in, listeners_of, state_of, step};

use crate::context::ContextOf;
use crate::emit::{emit_at_clause, emit_delete_rat_clause};
use crate::processing::ProcessingOf;
use crate::variables::ensure_var;
use checker_parts::error::{CheckCause, StepFault};
use checker_parts::processor::{ProofProcessor, ProofTranscriptProcessor};
use checker_parts::variables::{SamplingMode, Variables};
use clause_store::clauses::Clauses;
use clause_store::clauses::counts::LitCounts;
use clause_store::clauses::store::global_id;
use clause_store::state::CheckerState;
use sat_formula::{Lit, Var};

/// Deletes an unnamed variable that no clause of two or more literals has: its unit is deleted, and
/// the variable is as a new one.
///
/// A conflict on its unit is closed first. A previous clause with the variable is forgotten.
///
/// # Errors
///
/// `Refused` if the variable has a user name or a clause, or no id is left for the conflict. After
/// `Processor` and `OutOfMemory` the parts are unspecified.
pub fn delete_var<P: ProofProcessor, T: ProofTranscriptProcessor>(
    ctx: &mut ContextOf<P, T>,
    var: Var,
) -> Result<(), StepFault>
    requires { ContextInvariant ctx.old }
    ensures step { AnswersOutcome result
        (step (context_state ctx.old) (rules.delete_var (index_of var))) (context_state ctx.new) }
    ensures kept { UnlessStopped result (ContextInvariant ctx.new) }
    ensures delivered { DeliveredList result
        (Emits (context_state ctx.old) (rules.delete_var (index_of var)))
        P.ProofProcessor T.ProofTranscriptProcessor (listeners_in ctx.old) (listeners_in ctx.new) }
{
    ensure_var(&mut ctx.clauses, &mut ctx.variables, var)?;
    if ctx.variables.get(var).user_var.is_some() {
        return Err(StepFault::Refused(CheckCause::DeletedVarNamed));
    }
    if is_held(&ctx.clauses.lit_counts, var) {
        return Err(StepFault::Refused(CheckCause::DeletedVarHasClauses));
    }
    close_conflict_on(&mut ctx.clauses, &ctx.variables, &mut ctx.processing, var)?;
    emit_unit(&mut ctx.processing, &ctx.clauses, &ctx.variables, var)?;
    free_var(
        &mut ctx.checker_state,
        &mut ctx.clauses,
        &mut ctx.variables,
        var,
    );
    Ok(())
}

/// Returns whether a stored clause of two or more literals has the variable.
fn is_held(counts: &LitCounts, var: Var) -> bool
    ensures { (n : ℕ) (es : List Stored) → AreCounts counts.now n es
        → result ≡ list_any (λ e. holds_var (index_of var) e.lits) es }
{
    counts.get(var.lit(true)).clause_count > 0 || counts.get(var.lit(false)).clause_count > 0
}

/// Closes a conflict on the variable's unit: an id is taken for it, and it is forgotten.
fn close_conflict_on<P: ProofProcessor, T: ProofTranscriptProcessor>(
    clauses: &mut Clauses,
    variables: &Variables,
    processing: &mut ProcessingOf<P, T>,
    var: Var,
) -> Result<(), StepFault>
    ensures answer { (st : CheckerState) (h : ClauseHasher)
        → AnswersOutcome result (close_on (index_of var)
        (state_of st h clauses.old variables.now))
        (state_of st h clauses.new variables.now) }
    ensures store { (h : ClauseHasher) → IsStore h clauses.old → IsStore h clauses.new }
    ensures units { clauses.new.unit_clauses ≡ clauses.old.unit_clauses }
    ensures delivered { (st : CheckerState) (h : ClauseHasher)
        → DeliveredList result (λ es. es ≡ emits_close (index_of var)
        (state_of st h clauses.old variables.now)) P.ProofProcessor T.ProofTranscriptProcessor
        (listeners_of processing.old) (listeners_of processing.new) }
{
    let Some((unit, negation)) = conflict_on(clauses, var) else {
        return Ok(());
    };
    let Some(id) = clauses.take_id() else {
        return Err(StepFault::Refused(CheckCause::IdsExhausted));
    };
    clauses.unit_conflict = None;
    emit_at_clause(processing, variables, id, false, &[], &[unit, negation])
}

/// Returns the recorded conflict, if it is with the variable's unit.
fn conflict_on(clauses: &Clauses, var: Var) -> Option<(u64, u64)>
    ensures { result ≡ conflict_on (unit_of (stored_units clauses.now.unit_clauses) (index_of var))
        clauses.now.unit_conflict }
{
    let conflict = clauses.unit_conflict?;
    let unit = clauses.unit_clauses.get(var.index())?;
    if global_id(&unit) == conflict.0 {
        Some(conflict)
    } else {
        None
    }
}

/// Delivers the unit of the variable, if it has one, as a clause that is deleted.
fn emit_unit<P: ProofProcessor, T: ProofTranscriptProcessor>(
    processing: &mut ProcessingOf<P, T>,
    clauses: &Clauses,
    variables: &Variables,
    var: Var,
) -> Result<(), StepFault>
    ensures not_refused { UnlessStopped result (IsOk result) }
    ensures delivered { (st : CheckerState) (h : ClauseHasher)
        → DeliveredList result (λ es. es ≡ emits_dropped (index_of var)
        (state_of st h clauses.now variables.now)) P.ProofProcessor T.ProofTranscriptProcessor
        (listeners_of processing.old) (listeners_of processing.new) }
{
    let Some(unit) = clauses.unit_clauses.get(var.index()) else {
        return Ok(());
    };
    let pivot = var.lit(unit.value);
    emit_delete_rat_clause(processing, variables, global_id(&unit), &[pivot], pivot)
}

/// Drops the unit of a known and unnamed variable. It is in mode `Sample` then, and a previous
/// clause with it is forgotten.
fn free_var(state: &mut CheckerState, clauses: &mut Clauses, variables: &mut Variables, var: Var)
    requires place { index_of var < length clauses.old.unit_clauses }
    requires known { index_of var < length variables.old }
    requires unnamed { (known_at variables.old (index_of var)).name ≡ None }
    ensures state { (h : ClauseHasher)
        → state_of state.new h clauses.new variables.new
        ≡ free_var (index_of var) (state_of state.old h clauses.old variables.old) }
    ensures store { (h : ClauseHasher) → IsStore h clauses.old → IsStore h clauses.new }
{
    clauses.unit_clauses.set(var.index(), None);
    variables.set_mode(var, SamplingMode::Sample);
    forget_previous_with(state, var);
}

/// Forgets a previous clause with the variable.
fn forget_previous_with(state: &mut CheckerState, var: Var)
    ensures { (h : ClauseHasher) (cs : Clauses) (known : List Known)
        → state_of state.new h cs known
        ≡ record (state_of state.old h cs known)
        { previous = forget_var (index_of var) (state_of state.old h cs known).previous } }
{
    if holds_var(&state.previous_lits, var) {
        state.previous_id = None;
    }
}

/// Returns whether a literal of the variable is in the clause.
fn holds_var(lits: &[Lit], var: Var) -> bool
    ensures { result ≡ holds_var (index_of var) lits.now }
{
    lits.iter().any(|lit| lit.index() == var.index())
}
