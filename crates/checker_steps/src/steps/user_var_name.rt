//! The user's names of variables.
ghost use Rattle.checker_rules.specs.Step as rules;
ghost use Rattle.sat_formula.specs.Vars.{index_of, indexes_of};
ghost use Rattle.checker_steps.specs.Common.{AnswersOutcome, ContextInvariant, DeliveredList, Emits, UnlessStopped, context_state, listeners_in, step};

use crate::context::ContextOf;
use crate::variables::{add_user_mapping, remove_user_mapping};
use checker_parts::error::StepFault;
use checker_parts::processor::{ProofProcessor, ProofTranscriptProcessor};
use sat_formula::Var;

/// Gives a variable a user name, or removes its name and hides it.
///
/// # Errors
///
/// `Refused` if the change is not allowed. After `Processor` and `OutOfMemory` the parts are
/// unspecified.
pub fn user_var_name<P: ProofProcessor, T: ProofTranscriptProcessor>(
    ctx: &mut ContextOf<P, T>,
    global: Var,
    user: Option<Var>,
) -> Result<(), StepFault>
    requires { ContextInvariant ctx.old }
    ensures step { AnswersOutcome result
        (step (context_state ctx.old) (rules.user_var_name (index_of global) (indexes_of user)))
        (context_state ctx.new) }
    ensures kept { UnlessStopped result (ContextInvariant ctx.new) }
    ensures delivered { DeliveredList result
        (Emits (context_state ctx.old) (rules.user_var_name (index_of global) (indexes_of user)))
        P.ProofProcessor T.ProofTranscriptProcessor (listeners_in ctx.old) (listeners_in ctx.new) }
{
    match user {
        Some(user_var) => add_user_mapping(
            &mut ctx.clauses,
            &mut ctx.variables,
            &mut ctx.processing,
            global,
            user_var,
        ),
        None => remove_user_mapping(
            &mut ctx.clauses,
            &mut ctx.variables,
            &mut ctx.processing,
            global,
        ),
    }
}
