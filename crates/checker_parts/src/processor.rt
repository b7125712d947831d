//! Processors of checked steps and of transcripts.
ghost use Rattle.std.specs.Prelude.{◌≡◌, OnOk, OnErr};
ghost use Rattle.sat_formula.specs.Vars.{index_of, indexes_of};
ghost use Rattle.checker_rules.specs.Transcript.{user_of};
ghost use Rattle.checker_parts.specs.Boxes.{InBox};
ghost use Rattle.checker_parts.specs.CheckedSteps.{told, transcript_of};

use crate::step::{CheckedProofStep, ProofTranscriptStep};
use crate::variables::{SamplingMode, Variables};
use sat_formula::lit::Var;

/// What a processor may read in addition to a step: the known variables and their names.
#[derive(Clone, Copy)]
pub struct CheckerData<'a>(pub &'a Variables);

impl<'a> CheckerData<'a> {
    /// Returns the user variable of a variable: its explicit name; else the variable itself, if it
    /// is known and in mode `Sample`; else `None`. It can be the explicit name of another variable.
    pub fn user_from_proof_var(self, proof_var: Var) -> Option<Var>
        ensures { indexes_of result ≡ user_of self.entry.0.now (index_of proof_var) }
    {
        let data = self.0.get(proof_var);
        if data.user_var.is_some() {
            return data.user_var;
        }
        if proof_var.index() < self.0.len() && data.sampling_mode == SamplingMode::Sample {
            Some(proof_var)
        } else {
            None
        }
    }
}

/// Takes each step of a checked proof.
pub trait ProofProcessor: Drop {
    ghost use Rattle.std.specs.Prelude.{◌≡◌, ℕ, List, OnOk, OnErr};
    ghost use Rattle.checker_rules.specs.CheckedSteps.{NamedStep};
    ghost use Rattle.checker_parts.specs.CheckedSteps.{told};

    /// What holds of the old value, the step with its names, and the new value if the result is
    /// `Ok`.
    ghost took: { Self → NamedStep → Self → Type 0 };

    /// What holds of the old value, the step and the new value if the result is an error.
    ghost faulted: { Self → NamedStep → Self → Type 0 };

    /// What `output` gives.
    ghost shown: { Self → List ℕ };

    /// Takes one step.
    ///
    /// # Errors
    ///
    /// Any error of the processor. The checker that delivered the step then has failed.
    fn process_step(
        &mut self,
        step: &CheckedProofStep,
        names: CheckerData,
    ) -> Result<(), anyhow::Error>
        ensures took { OnOk result (took self.old (told step.now names.entry.0.now) self.new) }
        ensures faulted { OnErr result
            (faulted self.old (told step.now names.entry.0.now) self.new) };

    /// Returns the bytes that the processor has to show.
    fn output(&self) -> &[u8]
        ensures { result.now ≡ shown self.now };
}

/// A box passes each call on to the value inside.
impl ProofProcessor for Box<dyn ProofProcessor> {
    ghost took = { λ b. InBox b (ProofProcessor-box b).took };

    ghost faulted = { λ b. InBox b (ProofProcessor-box b).faulted };

    ghost shown = { λ b. (ProofProcessor-box b).shown b.value };

    fn process_step(
        &mut self,
        step: &CheckedProofStep,
        names: CheckerData,
    ) -> Result<(), anyhow::Error> {
        let processor = &mut **self;
        processor.process_step(step, names)
    }

    fn output(&self) -> &[u8] {
        let processor = &**self;
        processor.output()
    }
}

/// Takes each step of a transcript.
pub trait ProofTranscriptProcessor: Drop {
    ghost use Rattle.std.specs.Prelude.{◌≡◌, ℕ, List, OnOk, OnErr};
    ghost use Rattle.checker_rules.specs.Transcript.{TranscriptStep};
    ghost use Rattle.checker_parts.specs.CheckedSteps.{transcript_of};

    /// What holds of the old value, the step and the new value if the result is `Ok`.
    ghost took: { Self → TranscriptStep → Self → Type 0 };

    /// What holds of the old value, the step and the new value if the result is an error.
    ghost faulted: { Self → TranscriptStep → Self → Type 0 };

    /// What `output` gives.
    ghost shown: { Self → List ℕ };

    /// Takes one step.
    ///
    /// # Errors
    ///
    /// Any error of the transcript. The checker that delivered the step then has failed.
    fn process_step(&mut self, step: &ProofTranscriptStep) -> Result<(), anyhow::Error>
        ensures took { OnOk result (took self.old (transcript_of step.now) self.new) }
        ensures faulted { OnErr result (faulted self.old (transcript_of step.now) self.new) };

    /// Returns the bytes that the transcript has to show.
    fn output(&self) -> &[u8]
        ensures { result.now ≡ shown self.now };
}

/// A box passes each call on to the value inside.
impl ProofTranscriptProcessor for Box<dyn ProofTranscriptProcessor> {
    ghost took = { λ b. InBox b (ProofTranscriptProcessor-box b).took };

    ghost faulted = { λ b. InBox b (ProofTranscriptProcessor-box b).faulted };

    ghost shown = { λ b. (ProofTranscriptProcessor-box b).shown b.value };

    fn process_step(&mut self, step: &ProofTranscriptStep) -> Result<(), anyhow::Error> {
        let transcript = &mut **self;
        transcript.process_step(step)
    }

    fn output(&self) -> &[u8] {
        let transcript = &**self;
        transcript.output()
    }
}
