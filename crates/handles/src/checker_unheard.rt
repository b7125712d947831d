//! A processor that takes nothing.
ghost use Rattle.std.specs.Prelude.{◌≡◌, []};

use anyhow::Error;
use checker_parts::processor::{CheckerData, ProofProcessor, ProofTranscriptProcessor};
use checker_parts::step::{CheckedProofStep, ProofTranscriptStep};

/// A processor and a transcript of which none is registered.
#[derive(Drop)]
pub struct Unheard {}

impl ProofProcessor for Unheard {
    ghost took = { λ old e new. new ≡ old };

    ghost faulted = { λ old e new. ⊥ };

    ghost shown = { λ it. [] };

    fn process_step(&mut self, _step: &CheckedProofStep, _names: CheckerData) -> Result<(), Error> {
        Ok(())
    }

    fn output(&self) -> &[u8] {
        &[]
    }
}

impl ProofTranscriptProcessor for Unheard {
    ghost took = { λ old e new. new ≡ old };

    ghost faulted = { λ old e new. ⊥ };

    ghost shown = { λ it. [] };

    fn process_step(&mut self, _step: &ProofTranscriptStep) -> Result<(), Error> {
        Ok(())
    }

    fn output(&self) -> &[u8] {
        &[]
    }
}
