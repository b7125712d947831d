//! Transcript steps of checked steps.
ghost use Rattle.std.specs.Prelude.{◌≡◌, IfOk, IfErr, OnOk, Ok, false};
ghost use Rattle.sat_formula.specs.Vars.{index_of};
ghost use Rattle.checker_rules.specs.Transcript.{hides, image_of, image_user_var, known_at, mapped};
ghost use Rattle.checker_parts.specs.CheckedSteps.{step_of, transcripts_of, user_var_of};
ghost use Rattle.checker_parts.specs.Memory.{NeedsNoMemory, lists_literals};
ghost use Rattle.checker_parts.specs.declared.error.CheckerError.TheVariants.{OutOfMemory};

use crate::error::CheckerError;
use crate::processor::CheckerData;
use crate::step::{CheckedProofStep, CheckedSamplingMode, CheckedUserVar, ProofTranscriptStep};
use sat_formula::lit::{Lit, Var};
use std::alloc::Global;

/// The literals of the step that transcripts receive.
#[derive(Drop)]
pub struct Transcript {
    lits: Vec<Lit>,
}

impl Transcript {
    /// Returns an empty list, filled by each step that has one. Allocates no memory.
    pub fn new(alloc: Global) -> Transcript {
        Transcript {
            lits: Vec::new(alloc),
        }
    }

    /// Returns what transcripts receive of a checked step, which for most kinds is `None`.
    ///
    /// Literals without a user variable are dropped, and an unnamed variable that loses its name is
    /// passed over. The checker passes no such literals in input clauses, assumptions and cores,
    /// and no such variable.
    ///
    /// # Errors
    ///
    /// `OutOfMemory` if there is no memory for the literals of the step.
    pub fn transcript_step(
        &mut self,
        step: &CheckedProofStep,
        names: CheckerData,
    ) -> Result<Option<ProofTranscriptStep<'_>>, CheckerError>
        ensures ok { IfOk result (λ told. transcripts_of told
            ≡ image_of names.entry.0.now (step_of step.now)) }
        ensures err { IfErr result (λ e. e ≡ OutOfMemory) }
        ensures memory { lists_literals (step_of step.now) ≡ false → NeedsNoMemory result }
    {
        let told = match step {
            CheckedProofStep::UserVar { var, user_var } => match user_var {
                None => hide_step(*var, names),
                Some(user_var) => user_var_step(user_var),
            },
            CheckedProofStep::AddClause { clause, .. }
            | CheckedProofStep::DuplicatedClause { clause, .. }
            | CheckedProofStep::TautologicalClause { clause, .. } => {
                let clause = self.map(clause, names)?;
                Some(ProofTranscriptStep::AddClause { clause })
            }
            CheckedProofStep::AtClause { clause: [], .. } => Some(ProofTranscriptStep::Unsat),
            CheckedProofStep::Model { assignment } => {
                let assignment = self.map(assignment, names)?;
                Some(ProofTranscriptStep::Model { assignment })
            }
            CheckedProofStep::Assumptions { assumptions } => {
                let assumptions = self.map(assumptions, names)?;
                Some(ProofTranscriptStep::Assume { assumptions })
            }
            CheckedProofStep::FailedAssumptions { failed_core, .. } => {
                let failed_core = self.map(failed_core, names)?;
                Some(ProofTranscriptStep::FailedAssumptions { failed_core })
            }
            _ => None,
        };
        Ok(told)
    }

    /// Returns the literals of the user variables.
    fn map(&mut self, lits: &[Lit], names: CheckerData) -> Result<&[Lit], CheckerError>
        ensures ok { IfOk result (λ told. told.now ≡ mapped names.entry.0.now lits.now) }
        ensures err { IfErr result (λ e. e ≡ OutOfMemory) }
    {
        self.lits.clear();
        for &lit in lits {
            if let Some(var) = names.user_from_proof_var(lit.var()) {
                if self.lits.push(var.lit(lit.is_positive())).is_err() {
                    return Err(CheckerError::OutOfMemory);
                }
            }
        }
        Ok(&self.lits)
    }
}

/// Returns what transcripts receive where a variable loses its user name.
fn hide_step<'a>(var: Var, names: CheckerData) -> Option<ProofTranscriptStep<'a>>
    ensures { transcripts_of result ≡ hides (known_at names.entry.0.now (index_of var)).name }
{
    match names.0.get(var).user_var {
        Some(var) => Some(ProofTranscriptStep::HideVar { var }),
        None => None,
    }
}

/// Returns what transcripts receive of a variable that has a user name.
fn user_var_step<'a>(user_var: &CheckedUserVar) -> Option<ProofTranscriptStep<'a>>
    ensures { transcripts_of result ≡ image_user_var (user_var_of user_var.now) }
{
    let var = user_var.user_var;
    match (&user_var.sampling_mode, user_var.new_var) {
        (CheckedSamplingMode::Sample, true) => None,
        (CheckedSamplingMode::Witness, true) => Some(ProofTranscriptStep::ObserveInternalVar {
            var,
        }),
        (CheckedSamplingMode::Sample, false) => Some(ProofTranscriptStep::SampleVar { var }),
        (CheckedSamplingMode::Witness, false) => Some(ProofTranscriptStep::WitnessVar { var }),
    }
}
