//! Input clauses.
ghost use Rattle.std.specs.Prelude.{◌≡◌, ◌≤◌, List, None, Ok, OnOk, length, true, false, ◌+◌, ◌<◌, IfErr, IfOk};
ghost use Rattle.std.specs.Option.{option_map};
ghost use Rattle.sat_rules.specs.Clauses.{is_canonical, is_tautology};
ghost use Rattle.checker_rules.specs.{AddClause.store_input, Canonical.var_bound, Emits.emits_input, KnownVars.know_clause, State.Known, Store.count_limit, Store.count_of, Store.id_limit};
ghost use Rattle.checker_rules.specs.Step as rules;
ghost use Rattle.clause_store.specs.PartsInvariant.{PartsInvariant};
ghost use Rattle.clause_store.specs.Store.{UnlessOutOfMemory};
ghost use Rattle.clause_store.specs.View.{stored_list};
ghost use Rattle.checker_steps.specs.Added.{emitted_of};
ghost use Rattle.checker_steps.specs.Common.{AnswersOutcome, CheckerState, ClauseHasher, ContextInvariant, DeliveredAll, DeliveredList, Emits, IsStore, UnlessStopped, context_state, listeners_in, listeners_of, state_of, step};
ghost use Rattle.checker_steps.specs.InputCause.{IsEarlyCause, IsFaultOf, early_cause, taken};
ghost use Rattle.checker_steps.specs.declared.steps.add_clause.Added.TheVariants.{Duplicate};

use crate::context::ContextOf;
use crate::emit::{
    emit_add_clause, emit_duplicated_clause, emit_make_irredundant, emit_tautological_clause,
};
use crate::processing::ProcessingOf;
use crate::steps::derived::store_fault;
use crate::variables::some_not_sampling;
use checker_parts::error::{CheckCause, StepFault};
use checker_parts::processor::{ProofProcessor, ProofTranscriptProcessor};
use checker_parts::sorted_lits::copy_canonical;
use checker_parts::variables::Variables;
use clause_store::clauses::store::{StoreFault, store_clause};
use clause_store::clauses::{Clauses, StoreClauseResult};
use clause_store::hash::ClauseHasher;
use clause_store::state::CheckerState;
use clause_store::variables::{ensure_vars, var_bound};
use sat_formula::Lit;
use std::alloc::Global;

/// Adds an input clause. If unsatisfiability is recorded, changes nothing.
///
/// # Errors
///
/// `Refused` if a variable of the clause was sampled away, or no id or count is left. After
/// `Processor` and `OutOfMemory` the parts are unspecified.
pub fn add_clause<P: ProofProcessor, T: ProofTranscriptProcessor>(
    alloc: Global,
    ctx: &mut ContextOf<P, T>,
    lits: &[Lit],
) -> Result<(), StepFault>
    requires { ContextInvariant ctx.old }
    ensures step { AnswersOutcome result (step (context_state ctx.old) (rules.add_clause lits.now))
        (context_state ctx.new) }
    ensures kept { UnlessStopped result (ContextInvariant ctx.new) }
    ensures delivered { DeliveredList result
        (Emits (context_state ctx.old) (rules.add_clause lits.now))
        P.ProofProcessor T.ProofTranscriptProcessor (listeners_in ctx.old) (listeners_in ctx.new) }
    ensures after_unsat { (context_state ctx.old).unsat ≡ true
        → (result ≡ Ok tt) × (ctx.new ≡ ctx.old) }
{
    if ctx.checker_state.unsat {
        return Ok(());
    }
    let Ok(tautology) = copy_canonical(&mut ctx.tmp_data.tmp, lits) else {
        return Err(StepFault::OutOfMemory);
    };
    let clause = ctx.tmp_data.tmp.as_slice();
    if let Some(cause) = early_cause(&ctx.clauses, &ctx.variables, clause) {
        return Err(StepFault::Refused(cause));
    }
    let taken = take_clause(
        alloc,
        &mut ctx.checker_state,
        &ctx.clause_hasher,
        &mut ctx.clauses,
        &mut ctx.variables,
        clause,
        tautology,
    );
    match taken {
        Ok(added) => emit_added(&mut ctx.processing, &ctx.variables, clause, added),
        Err(fault) => Err(store_fault(fault)),
    }
}

/// What became of an input clause, with the id that it took.
#[derive(Clone, Copy)]
enum Added {
    Tautology {
        id: u64,
    },
    New {
        id: u64,
    },
    /// It was stored already, under another id.
    Duplicate {
        id: u64,
        same_as_id: u64,
        newly_irredundant: bool,
    },
}

/// Delivers what became of an input clause.
fn emit_added<P: ProofProcessor, T: ProofTranscriptProcessor>(
    processing: &mut ProcessingOf<P, T>,
    variables: &Variables,
    clause: &[Lit],
    added: Added,
) -> Result<(), StepFault>
    ensures { DeliveredAll result (emitted_of added clause.now variables.now)
        P.ProofProcessor T.ProofTranscriptProcessor (listeners_of processing.old)
        (listeners_of processing.new) }
{
    match added {
        Added::Tautology { id } => emit_tautological_clause(processing, variables, id, clause),
        Added::New { id } => emit_add_clause(processing, variables, id, clause),
        Added::Duplicate {
            id,
            same_as_id,
            newly_irredundant,
        } => {
            if newly_irredundant {
                emit_make_irredundant(processing, variables, same_as_id, clause)?;
            }
            emit_duplicated_clause(processing, variables, id, same_as_id, clause)
        }
    }
}

/// Why a canonical input clause can't be added, before the stored clauses are looked at.
fn early_cause(clauses: &Clauses, variables: &Variables, clause: &[Lit]) -> Option<CheckCause>
    ensures { (st : CheckerState) (h : ClauseHasher) → IsEarlyCause result
        (state_of st h clauses.now variables.now) clause.now }
{
    if some_not_sampling(variables, clause) {
        return Some(CheckCause::NotSampling);
    }
    if clauses.next_clause_id == u64::MAX {
        return Some(CheckCause::IdsExhausted);
    }
    None
}

/// Makes the variables known and stores the clause.
fn take_clause(
    alloc: Global,
    state: &mut CheckerState,
    hasher: &ClauseHasher,
    clauses: &mut Clauses,
    variables: &mut Variables,
    clause: &[Lit],
    tautology: bool,
) -> Result<Added, StoreFault>
    requires kept { PartsInvariant state.old hasher.now clauses.old variables.old }
    requires room { clauses.old.next_clause_id < id_limit }
    requires canonical { is_canonical clause.now ≡ true }
    requires tautology { tautology ≡ is_tautology clause.now }
    ensures state { OnOk result (state_of state.new hasher.now clauses.new variables.new
        ≡ taken (state_of state.old hasher.now clauses.old variables.old) clause.now) }
    ensures store { UnlessOutOfMemory result (IsStore hasher.now clauses.new) }
    ensures fault { IfErr result (λ fault. IsFaultOf fault clause.now
        (state_of state.old hasher.now clauses.old variables.old)
        (state_of state.new hasher.now clauses.new variables.new)) }
    ensures room { OnOk result (count_of false clause.now (stored_list clauses.old)
        < count_limit) }
    ensures emitted { IfOk result (λ added. emitted_of added clause.now variables.new
        ≡ emits_input clause.now (know_clause clause.now
        (state_of state.old hasher.now clauses.old variables.old))) }
{
    ensure_vars(clauses, variables, var_bound(clause))?;
    let added = store_input_clause(alloc, state, hasher, clauses, clause, tautology)?;
    state.input_clauses += 1;
    Ok(added)
}

/// Stores an input clause of known variables. A tautology and a clause that is stored already take
/// an id of their own.
fn store_input_clause(
    alloc: Global,
    state: &mut CheckerState,
    hasher: &ClauseHasher,
    clauses: &mut Clauses,
    clause: &[Lit],
    tautology: bool,
) -> Result<Added, StoreFault>
    requires store { IsStore hasher.now clauses.old }
    requires room { clauses.old.next_clause_id < id_limit }
    requires known { var_bound clause.now ≤ length clauses.old.unit_clauses }
    requires canonical { is_canonical clause.now ≡ true }
    requires tautology { tautology ≡ is_tautology clause.now }
    ensures state { OnOk result ((known : List Known)
        → state_of state.new hasher.now clauses.new known
        ≡ store_input clause.now (state_of state.old hasher.now clauses.old known)) }
    ensures store { UnlessOutOfMemory result (IsStore hasher.now clauses.new) }
    ensures fault { IfErr result (λ fault. (known : List Known) → IsFaultOf fault clause.now
        (state_of state.old hasher.now clauses.old known)
        (state_of state.new hasher.now clauses.new known)) }
    ensures room { OnOk result (tautology ≡ false
        → count_of false clause.now (stored_list clauses.old) < count_limit) }
    ensures inputs { OnOk result (state.new.input_clauses ≡ state.old.input_clauses) }
    ensures emitted { IfOk result (λ added. (known : List Known)
        → emitted_of added clause.now known
        ≡ emits_input clause.now (state_of state.old hasher.now clauses.old known)) }
{
    if tautology {
        let id = clauses.next_clause_id;
        clauses.next_clause_id += 1;
        return Ok(Added::Tautology { id });
    }
    let (stored_id, did) = store_clause(alloc, state, hasher, clauses, clause, false)?;
    match did {
        StoreClauseResult::New => Ok(Added::New { id: stored_id }),
        StoreClauseResult::Duplicate => Ok(repeated(clauses, stored_id, false)),
        StoreClauseResult::NewlyIrredundant => Ok(repeated(clauses, stored_id, true)),
    }
}

/// Returns an id of its own for a clause that was stored already.
#[tactic(auto, unfolding(checker_rules::specs::Store::id_limit))]
fn repeated(clauses: &mut Clauses, same_as_id: u64, newly_irredundant: bool) -> Added
    requires { clauses.old.next_clause_id < id_limit }
    ensures answer { result ≡ Duplicate clauses.old.next_clause_id same_as_id newly_irredundant }
    ensures taken { clauses.new ≡ record clauses.old
        { next_clause_id = clauses.old.next_clause_id + 1 } }
{
    let id = clauses.next_clause_id;
    clauses.next_clause_id += 1;
    Added::Duplicate {
        id,
        same_as_id,
        newly_irredundant,
    }
}
