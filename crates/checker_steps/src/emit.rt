//! Checked steps made and delivered, one function a kind.
//!
//! Each makes its own step: a caller that had one would have to name the types behind its
//! references. One of these types is otherwise unused here, and is named by a value that nothing
//! reads, `_propagations`: a derived clause refers to it, and all kinds are one type.
ghost use Rattle.std.specs.Prelude.{◌≢◌, Err, false};
ghost use Rattle.sat_formula.specs.Vars.{index_of};
ghost use Rattle.checker_rules.specs.CheckedSteps.{checked_add_clause, checked_assumptions, checked_at_clause, checked_delete_at_clause, checked_delete_clause, checked_delete_rat_clause, checked_duplicated_clause, checked_failed_assumptions, checked_make_irredundant, checked_model, checked_tautological_clause, checked_user_var};
ghost use Rattle.checker_parts.specs.CheckedSteps.{user_vars_of};
ghost use Rattle.checker_parts.specs.declared.error.StepFault.TheVariants.{OutOfMemory};
ghost use Rattle.checker_steps.specs.Delivered.{DeliveredStep, listeners_of};

use crate::processing::ProcessingOf;
use checker_parts::error::StepFault;
use checker_parts::processor::{CheckerData, ProofProcessor, ProofTranscriptProcessor};
use checker_parts::step::{CheckedProofStep, CheckedUserVar, ResolutionPropagations};
use checker_parts::variables::Variables;
use sat_formula::{Lit, Var};

/// Delivers an input clause that is new.
pub(crate) fn emit_add_clause<P: ProofProcessor, T: ProofTranscriptProcessor>(
    processing: &mut ProcessingOf<P, T>,
    variables: &Variables,
    id: u64,
    clause: &[Lit],
) -> Result<(), StepFault>
    ensures { DeliveredStep result (record {
      step = checked_add_clause id clause.now;
      names = variables.now;
    }) P.ProofProcessor T.ProofTranscriptProcessor (listeners_of processing.old)
        (listeners_of processing.new) }
{
    let _propagations = ResolutionPropagations {};
    let step = CheckedProofStep::AddClause { id, clause };
    processing.step(&step, CheckerData(variables))
}

/// Delivers an input clause that is stored already.
pub(crate) fn emit_duplicated_clause<P: ProofProcessor, T: ProofTranscriptProcessor>(
    processing: &mut ProcessingOf<P, T>,
    variables: &Variables,
    id: u64,
    same_as_id: u64,
    clause: &[Lit],
) -> Result<(), StepFault>
    ensures { DeliveredStep result (record
        { step = checked_duplicated_clause id same_as_id clause.now; names = variables.now })
        P.ProofProcessor T.ProofTranscriptProcessor (listeners_of processing.old)
        (listeners_of processing.new) }
{
    let _propagations = ResolutionPropagations {};
    let step = CheckedProofStep::DuplicatedClause {
        id,
        same_as_id,
        clause,
    };
    processing.step(&step, CheckerData(variables))
}

/// Delivers an input clause that says nothing.
pub(crate) fn emit_tautological_clause<P: ProofProcessor, T: ProofTranscriptProcessor>(
    processing: &mut ProcessingOf<P, T>,
    variables: &Variables,
    id: u64,
    clause: &[Lit],
) -> Result<(), StepFault>
    ensures { DeliveredStep result (record {
      step = checked_tautological_clause id clause.now;
      names = variables.now;
    }) P.ProofProcessor T.ProofTranscriptProcessor (listeners_of processing.old)
        (listeners_of processing.new) }
{
    let _propagations = ResolutionPropagations {};
    let step = CheckedProofStep::TautologicalClause { id, clause };
    processing.step(&step, CheckerData(variables))
}

/// Delivers a derived clause. Takes no memory.
#[inline(always)]
pub(crate) fn emit_at_clause<P: ProofProcessor, T: ProofTranscriptProcessor>(
    processing: &mut ProcessingOf<P, T>,
    variables: &Variables,
    id: u64,
    redundant: bool,
    clause: &[Lit],
    propagations: &[u64],
) -> Result<(), StepFault>
    ensures delivers { DeliveredStep result
        (record {
          step = checked_at_clause id redundant clause.now propagations.now;
          names = variables.now;
        }) P.ProofProcessor T.ProofTranscriptProcessor (listeners_of processing.old)
        (listeners_of processing.new) }
    ensures memory { result ≢ Err OutOfMemory }
{
    let _propagations = ResolutionPropagations {};
    let step = CheckedProofStep::AtClause {
        id,
        redundant,
        clause,
        propagations,
    };
    processing.step(&step, CheckerData(variables))
}

/// Delivers a redundant clause that becomes irredundant.
pub(crate) fn emit_make_irredundant<P: ProofProcessor, T: ProofTranscriptProcessor>(
    processing: &mut ProcessingOf<P, T>,
    variables: &Variables,
    id: u64,
    clause: &[Lit],
) -> Result<(), StepFault>
    ensures { DeliveredStep result (record {
      step = checked_make_irredundant id clause.now;
      names = variables.now;
    }) P.ProofProcessor T.ProofTranscriptProcessor (listeners_of processing.old)
        (listeners_of processing.new) }
{
    let _propagations = ResolutionPropagations {};
    let step = CheckedProofStep::MakeIrredundant { id, clause };
    processing.step(&step, CheckerData(variables))
}

/// Delivers the deletion of a redundant clause.
#[inline(always)]
pub(crate) fn emit_delete_clause<P: ProofProcessor, T: ProofTranscriptProcessor>(
    processing: &mut ProcessingOf<P, T>,
    variables: &Variables,
    id: u64,
    clause: &[Lit],
) -> Result<(), StepFault>
    ensures { DeliveredStep result (record {
      step = checked_delete_clause id clause.now;
      names = variables.now;
    }) P.ProofProcessor T.ProofTranscriptProcessor (listeners_of processing.old)
        (listeners_of processing.new) }
{
    let _propagations = ResolutionPropagations {};
    let step = CheckedProofStep::DeleteClause { id, clause };
    processing.step(&step, CheckerData(variables))
}

/// Delivers that an irredundant clause is deleted or becomes redundant.
#[inline(always)]
pub(crate) fn emit_delete_at_clause<P: ProofProcessor, T: ProofTranscriptProcessor>(
    processing: &mut ProcessingOf<P, T>,
    variables: &Variables,
    id: u64,
    keep_as_redundant: bool,
    clause: &[Lit],
    propagations: &[u64],
) -> Result<(), StepFault>
    ensures { DeliveredStep result (record {
      step = checked_delete_at_clause id keep_as_redundant clause.now propagations.now;
      names = variables.now;
    }) P.ProofProcessor T.ProofTranscriptProcessor (listeners_of processing.old)
        (listeners_of processing.new) }
{
    let _propagations = ResolutionPropagations {};
    let step = CheckedProofStep::DeleteAtClause {
        id,
        keep_as_redundant,
        clause,
        propagations,
    };
    processing.step(&step, CheckerData(variables))
}

/// Delivers the unit of a deleted variable.
pub(crate) fn emit_delete_rat_clause<P: ProofProcessor, T: ProofTranscriptProcessor>(
    processing: &mut ProcessingOf<P, T>,
    variables: &Variables,
    id: u64,
    clause: &[Lit],
    pivot: Lit,
) -> Result<(), StepFault>
    ensures { DeliveredStep result (record
        { step = checked_delete_rat_clause id false clause.now pivot; names = variables.now })
        P.ProofProcessor T.ProofTranscriptProcessor (listeners_of processing.old)
        (listeners_of processing.new) }
{
    let propagations = ResolutionPropagations {};
    let step = CheckedProofStep::DeleteRatClause {
        id,
        keep_as_redundant: false,
        clause,
        pivot,
        propagations: &propagations,
    };
    processing.step(&step, CheckerData(variables))
}

/// Delivers a variable with its new user name or mode, or without a name.
pub(crate) fn emit_user_var<P: ProofProcessor, T: ProofTranscriptProcessor>(
    processing: &mut ProcessingOf<P, T>,
    variables: &Variables,
    var: Var,
    user_var: Option<CheckedUserVar>,
) -> Result<(), StepFault>
    ensures { DeliveredStep result (record
        { step = checked_user_var (index_of var) (user_vars_of user_var); names = variables.now })
        P.ProofProcessor T.ProofTranscriptProcessor (listeners_of processing.old)
        (listeners_of processing.new) }
{
    let _propagations = ResolutionPropagations {};
    let step = CheckedProofStep::UserVar { var, user_var };
    processing.step(&step, CheckerData(variables))
}

/// Delivers a model.
pub(crate) fn emit_model<P: ProofProcessor, T: ProofTranscriptProcessor>(
    processing: &mut ProcessingOf<P, T>,
    variables: &Variables,
    assignment: &[Lit],
) -> Result<(), StepFault>
    ensures { DeliveredStep result (record {
      step = checked_model assignment.now;
      names = variables.now;
    }) P.ProofProcessor T.ProofTranscriptProcessor (listeners_of processing.old)
        (listeners_of processing.new) }
{
    let _propagations = ResolutionPropagations {};
    let step = CheckedProofStep::Model { assignment };
    processing.step(&step, CheckerData(variables))
}

/// Delivers the assumptions.
pub(crate) fn emit_assumptions<P: ProofProcessor, T: ProofTranscriptProcessor>(
    processing: &mut ProcessingOf<P, T>,
    variables: &Variables,
    assumptions: &[Lit],
) -> Result<(), StepFault>
    ensures { DeliveredStep result (record {
      step = checked_assumptions assumptions.now;
      names = variables.now;
    }) P.ProofProcessor T.ProofTranscriptProcessor (listeners_of processing.old)
        (listeners_of processing.new) }
{
    let _propagations = ResolutionPropagations {};
    let step = CheckedProofStep::Assumptions { assumptions };
    processing.step(&step, CheckerData(variables))
}

/// Delivers a failed core.
pub(crate) fn emit_failed_assumptions<P: ProofProcessor, T: ProofTranscriptProcessor>(
    processing: &mut ProcessingOf<P, T>,
    variables: &Variables,
    failed_core: &[Lit],
    propagations: &[u64],
) -> Result<(), StepFault>
    ensures { DeliveredStep result (record {
      step = checked_failed_assumptions failed_core.now propagations.now;
      names = variables.now;
    }) P.ProofProcessor T.ProofTranscriptProcessor (listeners_of processing.old)
        (listeners_of processing.new) }
{
    let _propagations = ResolutionPropagations {};
    let step = CheckedProofStep::FailedAssumptions {
        failed_core,
        propagations,
    };
    processing.step(&step, CheckerData(variables))
}
