//! The solver's names of variables.
ghost use Rattle.checker_rules.specs.Step as rules;
ghost use Rattle.sat_formula.specs.Vars.{index_of, indexes_of};
ghost use Rattle.checker_steps.specs.Common.{AnswersOutcome, ContextInvariant, DeliveredList, Emits, UnlessStopped, context_state, listeners_in, step};

use crate::context::ContextOf;
use checker_parts::error::StepFault;
use checker_parts::processor::{ProofProcessor, ProofTranscriptProcessor};
use sat_formula::Var;

/// Records a name of a variable, or that it loses its name. Hashes show it from the next renaming
/// on.
///
/// # Errors
///
/// `OutOfMemory`, and no other fault; the parts are unspecified then.
pub fn solver_var_name<P: ProofProcessor, T: ProofTranscriptProcessor>(
    ctx: &mut ContextOf<P, T>,
    global: Var,
    solver: Option<Var>,
) -> Result<(), StepFault>
    requires { ContextInvariant ctx.old }
    ensures step { AnswersOutcome result
        (step (context_state ctx.old) (rules.solver_var_name (index_of global) (indexes_of solver)))
        (context_state ctx.new) }
    ensures kept { UnlessStopped result (ContextInvariant ctx.new) }
    ensures delivered { DeliveredList result
        (Emits (context_state ctx.old)
        (rules.solver_var_name (index_of global) (indexes_of solver)))
        P.ProofProcessor T.ProofTranscriptProcessor (listeners_in ctx.old) (listeners_in ctx.new) }
{
    match ctx.clause_hasher.pending.push(global, solver) {
        Ok(()) => Ok(()),
        Err(_) => Err(StepFault::OutOfMemory),
    }
}
