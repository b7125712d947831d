//! The known variables: making them known to every part, and their user names.
ghost use Rattle.std.specs.Prelude.{◌≡◌, length, suc, Err, None, Some, OnErr, OnOk};
ghost use Rattle.checker_rules.specs.KnownVars.{is_sample, some_not_sampling};
ghost use Rattle.checker_rules.specs.Step as rules;
ghost use Rattle.checker_parts.specs.CheckedSteps.{samples};
ghost use Rattle.checker_parts.specs.Variables.{mode_of};
ghost use Rattle.checker_parts.specs.declared.error.StepFault.TheVariants.{OutOfMemory};
ghost use Rattle.sat_formula.specs.Vars.{index_of};
ghost use Rattle.clause_store.specs.Growth.{KnowsVars};
ghost use Rattle.checker_steps.specs.Common.{AnswersOutcome, CheckerState, ClauseHasher, Clauses, DeliveredList, Emits, IsStore, UnlessStopped, listeners_of, state_of, step};
ghost use Rattle.checker_steps.specs.Naming.{IsNamingCause, sampling_var};

use crate::emit::emit_user_var;
use crate::processing::ProcessingOf;
use checker_parts::error::{CheckCause, StepFault};
use checker_parts::processor::{ProofProcessor, ProofTranscriptProcessor};
use checker_parts::step::{CheckedSamplingMode, CheckedUserVar};
pub use checker_parts::variables::{LitData, SamplingMode, VarData, Variables};
use clause_store::clauses::Clauses;
pub use clause_store::variables::ensure_vars;
use sat_formula::{Lit, Var};

/// Returns whether some known variable of the literals is not in mode `Sample`.
pub(crate) fn some_not_sampling(variables: &Variables, lits: &[Lit]) -> bool
    ensures { (st : CheckerState) (h : ClauseHasher) (cs : Clauses)
        → result ≡ some_not_sampling (state_of st h cs variables.now) lits.now }
{
    for lit in lits {
        if variables.get(lit.var()).sampling_mode != SamplingMode::Sample {
            return true;
        }
    }
    false
}

/// Makes a variable known, and those before it, new ones unnamed and in mode `Sample`.
///
/// # Errors
///
/// `OutOfMemory`, and no other fault.
pub fn ensure_var(
    clauses: &mut Clauses,
    variables: &mut Variables,
    var: Var,
) -> Result<(), StepFault>
    requires { length clauses.old.unit_clauses ≡ length variables.old }
    ensures known { OnOk result (KnowsVars (suc (index_of var)) clauses.old variables.old
        clauses.new variables.new) }
    ensures memory { OnErr result (result ≡ Err OutOfMemory) }
{
    ensure_vars(clauses, variables, var.index() + 1)?;
    Ok(())
}

/// Makes a variable known as `ensure_var` does.
///
/// # Errors
///
/// `Refused` if it is known and in another mode than `Sample`, or `OutOfMemory`.
pub fn ensure_sampling_var(
    clauses: &mut Clauses,
    variables: &mut Variables,
    var: Var,
) -> Result<(), StepFault>
    requires { length clauses.old.unit_clauses ≡ length variables.old }
    ensures answer { (st : CheckerState) (h : ClauseHasher)
        → AnswersOutcome result (sampling_var (index_of var)
        (state_of st h clauses.old variables.old))
        (state_of st h clauses.new variables.new) }
    ensures store { (h : ClauseHasher) → IsStore h clauses.old
        → UnlessStopped result (IsStore h clauses.new) }
    ensures known { UnlessStopped result (length clauses.new.unit_clauses ≡ length variables.new) }
{
    if variables.get(var).sampling_mode != SamplingMode::Sample {
        return Err(StepFault::Refused(CheckCause::NotSampling));
    }
    ensure_var(clauses, variables, var)
}

/// Gives a variable a user name, and delivers that with the names after it.
///
/// # Errors
///
/// `Refused` if the name is taken or not allowed; `Processor` and `OutOfMemory`, after which the
/// parts are unspecified.
pub fn add_user_mapping<P: ProofProcessor, T: ProofTranscriptProcessor>(
    clauses: &mut Clauses,
    variables: &mut Variables,
    processing: &mut ProcessingOf<P, T>,
    global: Var,
    user_var: Var,
) -> Result<(), StepFault>
    requires { length clauses.old.unit_clauses ≡ length variables.old }
    ensures step { (st : CheckerState) (h : ClauseHasher)
        → AnswersOutcome result (step (state_of st h clauses.old variables.old)
        (rules.user_var_name (index_of global) (Some (index_of user_var))))
        (state_of st h clauses.new variables.new) }
    ensures store { (h : ClauseHasher) → IsStore h clauses.old
        → UnlessStopped result (IsStore h clauses.new) }
    ensures known { UnlessStopped result (length clauses.new.unit_clauses ≡ length variables.new) }
    ensures delivered { (st : CheckerState) (h : ClauseHasher)
        → DeliveredList result (Emits (state_of st h clauses.old variables.old)
        (rules.user_var_name (index_of global) (Some (index_of user_var))))
        P.ProofProcessor T.ProofTranscriptProcessor (listeners_of processing.old)
        (listeners_of processing.new) }
{
    ensure_var(clauses, variables, global)?;
    if let Some(cause) = naming_cause(variables, global, user_var) {
        return Err(StepFault::Refused(cause));
    }
    let named = CheckedUserVar {
        user_var,
        sampling_mode: shown_mode(variables.get(global).sampling_mode),
        new_var: true,
    };
    variables.set_name(global, user_var);
    emit_user_var(processing, variables, global, Some(named))
}

/// Removes the user name of a variable and hides it. Delivers that with the names before it.
///
/// # Errors
///
/// `Refused` if there is no name to remove; `Processor` and `OutOfMemory`, after which the parts
/// are unspecified.
pub fn remove_user_mapping<P: ProofProcessor, T: ProofTranscriptProcessor>(
    clauses: &mut Clauses,
    variables: &mut Variables,
    processing: &mut ProcessingOf<P, T>,
    global: Var,
) -> Result<(), StepFault>
    requires { length clauses.old.unit_clauses ≡ length variables.old }
    ensures step { (st : CheckerState) (h : ClauseHasher)
        → AnswersOutcome result (step (state_of st h clauses.old variables.old)
        (rules.user_var_name (index_of global) None))
        (state_of st h clauses.new variables.new) }
    ensures store { (h : ClauseHasher) → IsStore h clauses.old
        → UnlessStopped result (IsStore h clauses.new) }
    ensures known { UnlessStopped result (length clauses.new.unit_clauses ≡ length variables.new) }
    ensures delivered { (st : CheckerState) (h : ClauseHasher)
        → DeliveredList result (Emits (state_of st h clauses.old variables.old)
        (rules.user_var_name (index_of global) None)) P.ProofProcessor T.ProofTranscriptProcessor
        (listeners_of processing.old) (listeners_of processing.new) }
{
    ensure_var(clauses, variables, global)?;
    if variables.get(global).user_var.is_none() {
        return Err(StepFault::Refused(CheckCause::NoNameToRemove));
    }
    emit_user_var(processing, variables, global, None)?;
    variables.hide(global);
    Ok(())
}

/// Why a known variable can't be given a user name.
fn naming_cause(variables: &Variables, global: Var, user_var: Var) -> Option<CheckCause>
    ensures { IsNamingCause result variables.now (index_of global) (index_of user_var) }
{
    let data = variables.get(global);
    if user_var.index() >= variables.len() || variables.is_taken(user_var) {
        return Some(CheckCause::UserNameTaken);
    }
    if data.sampling_mode == SamplingMode::Hide {
        return Some(CheckCause::StillHidden);
    }
    if data.user_var.is_some() {
        return Some(CheckCause::NameInUse);
    }
    None
}

/// Returns the mode of a variable as it is shown beside the variable's user name. A hidden variable
/// has none.
pub(crate) fn shown_mode(mode: SamplingMode) -> CheckedSamplingMode
    ensures { samples result ≡ is_sample (mode_of mode) }
{
    match mode {
        SamplingMode::Sample => CheckedSamplingMode::Sample,
        SamplingMode::Witness | SamplingMode::Hide => CheckedSamplingMode::Witness,
    }
}
