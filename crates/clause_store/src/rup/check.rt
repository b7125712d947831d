//! The check of a clause in the state that the parts represent.
ghost use Rattle.std.specs.Prelude.{◌≡◌, ◌≤◌, false, IsTrue, OnOk, length};
ghost use Rattle.sat_rules.specs.Clauses.{is_tautology};
ghost use Rattle.checker_rules.specs.Canonical.{var_bound};
ghost use Rattle.checker_rules.specs.Check.{check, ready};
ghost use Rattle.checker_rules.specs.Outcome.{accept};
ghost use Rattle.checker_rules.specs.Traced.{check_trace};
ghost use Rattle.checker_parts.specs.Faults.{AnswersOutcome, UnlessStopped};
ghost use Rattle.clause_store.specs.PartsInvariant.{PartsInvariant};
ghost use Rattle.clause_store.specs.Quiet.{NoListenerFault};
ghost use Rattle.clause_store.specs.StateOf.{state_of};
ghost use Rattle.clause_store.specs.Store.{IsStore};

use crate::clauses::Clauses;
use crate::hash::{ClauseHasher, apply_pending_names};
use crate::rup::{Answer, RupCheck, check_clause};
use crate::state::CheckerState;
use crate::variables::ensure_lits;
use checker_parts::error::{CheckCause, StepFault};
use checker_parts::variables::Variables;
use proof_bytes::ClauseHash;
use sat_formula::Lit;
use std::alloc::{AllocError, Global};

/// Returns whether a canonical clause without opposite literals follows by unit propagation from
/// the clauses that the hashes name.
///
/// If a solver name is pending, all pending names and removals are applied first. The variables of
/// the clause become known. The units are unchanged, whether the clause passes or is rejected. A
/// traced check that passes leaves the ids of what it used in `trace_ids`.
///
/// # Errors
///
/// `AllocError` if memory runs out; the parts are unspecified then.
#[inline(always)]
pub fn check_clause_with_hashes(
    alloc: Global,
    state: &CheckerState,
    hasher: &mut ClauseHasher,
    clauses: &mut Clauses,
    variables: &mut Variables,
    rup: &mut RupCheck,
    traced: bool,
    lits: &[Lit],
    hashes: &[ClauseHash],
) -> Result<(), StepFault>
    requires kept { PartsInvariant state.now hasher.old clauses.old variables.old }
    requires no_tautology { is_tautology lits.now ≡ false }
    ensures answer { AnswersOutcome result
        (check (state_of state.now hasher.old clauses.old variables.old) lits.now hashes.now accept)
        (state_of state.now hasher.new clauses.new variables.new) }
    ensures store { UnlessStopped result (IsStore hasher.new clauses.new) }
    ensures known { OnOk result (var_bound lits.now ≤ length clauses.new.unit_clauses) }
    ensures trace { IsTrue traced → OnOk result
        (rup.new.trace_ids.items ≡ check_trace
        (ready (state_of state.now hasher.old clauses.old variables.old) lits.now) lits.now
        hashes.now) }
    ensures quiet { NoListenerFault result }
{
    make_ready(alloc, state, hasher, clauses, variables, lits)?;
    let answer = check_clause(
        rup,
        &mut clauses.unit_clauses,
        &clauses.buckets,
        clauses.literal_buffer.as_slice(),
        lits,
        hashes,
        traced,
    )?;
    match answer {
        Answer::Passed => Ok(()),
        Answer::NoClauseForHash => Err(StepFault::Refused(CheckCause::NoClauseForHash)),
        Answer::Failed => Err(StepFault::Refused(CheckCause::AtCheckFailed)),
    }
}

/// Applies pending names, where one gives a name, and makes the variables of the clause known.
fn make_ready(
    alloc: Global,
    state: &CheckerState,
    hasher: &mut ClauseHasher,
    clauses: &mut Clauses,
    variables: &mut Variables,
    lits: &[Lit],
) -> Result<(), AllocError>
    requires { PartsInvariant state.now hasher.old clauses.old variables.old }
    ensures state { OnOk result (state_of state.now hasher.new clauses.new variables.new
        ≡ ready (state_of state.now hasher.old clauses.old variables.old) lits.now) }
    ensures store { OnOk result (IsStore hasher.new clauses.new) }
    ensures known { OnOk result (var_bound lits.now ≤ length clauses.new.unit_clauses) }
{
    apply_pending_names(alloc, hasher, clauses)?;
    ensure_lits(clauses, variables, lits)
}
