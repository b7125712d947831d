//! Whether models give a variable's value as a sample or as a witness.
ghost use Rattle.std.specs.Prelude.{◌≡◌, ◌<◌, if◌then◌else◌, length};
ghost use Rattle.checker_rules.specs.State.{sample as sampled, witness};
ghost use Rattle.checker_rules.specs.Step as rules;
ghost use Rattle.checker_parts.specs.Variables.{mode_of};
ghost use Rattle.sat_formula.specs.Vars.{index_of};
ghost use Rattle.checker_steps.specs.Common.{AnswersOutcome, ContextInvariant, DeliveredList, Emits, UnlessStopped, context_state, listeners_in, step};
ghost use Rattle.checker_steps.specs.Naming.{AnswersMode};

use crate::context::ContextOf;
use crate::emit::emit_user_var;
use crate::variables::{SamplingMode, Variables, ensure_var, shown_mode};
use checker_parts::error::{CheckCause, StepFault};
use checker_parts::processor::{ProofProcessor, ProofTranscriptProcessor};
use checker_parts::step::CheckedUserVar;
use sat_formula::Var;

/// Changes the mode of a variable. Without a user name it may become `Witness`, but not `Sample`.
///
/// # Errors
///
/// `Refused` if the change is not allowed. After `Processor` and `OutOfMemory` the parts are
/// unspecified.
pub fn change_sampling_mode<P: ProofProcessor, T: ProofTranscriptProcessor>(
    ctx: &mut ContextOf<P, T>,
    var: Var,
    sample: bool,
) -> Result<(), StepFault>
    requires { ContextInvariant ctx.old }
    ensures step { AnswersOutcome result
        (step (context_state ctx.old) (rules.change_sampling_mode (index_of var) sample))
        (context_state ctx.new) }
    ensures kept { UnlessStopped result (ContextInvariant ctx.new) }
    ensures delivered { DeliveredList result
        (Emits (context_state ctx.old) (rules.change_sampling_mode (index_of var) sample))
        P.ProofProcessor T.ProofTranscriptProcessor (listeners_in ctx.old) (listeners_in ctx.new) }
{
    ensure_var(&mut ctx.clauses, &mut ctx.variables, var)?;
    match change_mode(&mut ctx.variables, var, sample) {
        Ok(None) => Ok(()),
        Ok(Some(user_var)) => {
            let changed = CheckedUserVar {
                user_var,
                sampling_mode: shown_mode(asked_mode(sample)),
                new_var: false,
            };
            emit_user_var(&mut ctx.processing, &ctx.variables, var, Some(changed))
        }
        Err(cause) => Err(StepFault::Refused(cause)),
    }
}

/// Changes the mode of a known variable, and returns its user name where it has one and the mode
/// was another.
fn change_mode(variables: &mut Variables, var: Var, sample: bool) -> Result<Option<Var>, CheckCause>
    requires { index_of var < length variables.old }
    ensures { AnswersMode result (index_of var) sample variables.old variables.new }
{
    let mode = asked_mode(sample);
    let data = variables.get(var);
    if data.sampling_mode == mode {
        return Ok(None);
    }
    if sample && data.user_var.is_none() {
        return Err(CheckCause::SampleHidden);
    }
    variables.set_mode(var, mode);
    Ok(data.user_var)
}

fn asked_mode(sample: bool) -> SamplingMode
    ensures { mode_of result ≡ (if sample then sampled else witness) }
{
    if sample {
        SamplingMode::Sample
    } else {
        SamplingMode::Witness
    }
}
