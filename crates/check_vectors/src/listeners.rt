//! Processors and transcripts of the kinds that scripts name, as one type each.
ghost use Rattle.std.specs.Prelude.{⊤};

use crate::boxes::{Faulty, StepList, Tally};
use anyhow::Error;
use checker_parts::processor::{CheckerData, ProofProcessor, ProofTranscriptProcessor};
use checker_parts::step::{CheckedProofStep, ProofTranscriptStep};
use sat_hints::LratWriter;

/// A processor of a kind that scripts name.
#[derive(Drop)]
pub enum Processor {
    Strokes(Tally),
    Failing(Faulty),
    Steps(StepList),
    Hints(LratWriter),
}

impl ProofProcessor for Processor {
    ghost use Rattle.check_vectors.specs.declared.listeners.Processor.TheVariants.{Strokes, Failing, Steps, Hints};

    ghost took = { λ old step new. ⊤ };

    ghost faulted = { λ old step new. ⊤ };

    ghost shown = { elim [
      | Strokes tally ↦ ⟦<Tally as ProofProcessor>⟧.shown tally
      | Failing faulty ↦ ⟦<Faulty as ProofProcessor>⟧.shown faulty
      | Steps list ↦ ⟦<StepList as ProofProcessor>⟧.shown list
      | Hints writer ↦ ⟦<LratWriter as ProofProcessor>⟧.shown writer
    ] };

    fn process_step(&mut self, step: &CheckedProofStep, names: CheckerData) -> Result<(), Error> {
        match self {
            Processor::Strokes(tally) => ProofProcessor::process_step(tally, step, names),
            Processor::Failing(faulty) => ProofProcessor::process_step(faulty, step, names),
            Processor::Steps(list) => ProofProcessor::process_step(list, step, names),
            Processor::Hints(writer) => writer.process_step(step, names),
        }
    }

    fn output(&self) -> &[u8] {
        match self {
            Processor::Strokes(tally) => ProofProcessor::output(tally),
            Processor::Failing(faulty) => ProofProcessor::output(faulty),
            Processor::Steps(list) => ProofProcessor::output(list),
            Processor::Hints(writer) => writer.output(),
        }
    }
}

/// A transcript of a kind that scripts name.
#[derive(Drop)]
pub enum Transcript {
    Strokes(Tally),
    Failing(Faulty),
    Steps(StepList),
}

impl ProofTranscriptProcessor for Transcript {
    ghost use Rattle.check_vectors.specs.declared.listeners.Transcript.TheVariants.{Strokes, Failing, Steps};

    ghost took = { λ old step new. ⊤ };

    ghost faulted = { λ old step new. ⊤ };

    ghost shown = { elim [
      | Strokes tally ↦ ⟦<Tally as ProofTranscriptProcessor>⟧.shown tally
      | Failing faulty ↦ ⟦<Faulty as ProofTranscriptProcessor>⟧.shown faulty
      | Steps list ↦ ⟦<StepList as ProofTranscriptProcessor>⟧.shown list
    ] };

    fn process_step(&mut self, step: &ProofTranscriptStep) -> Result<(), Error> {
        match self {
            Transcript::Strokes(tally) => ProofTranscriptProcessor::process_step(tally, step),
            Transcript::Failing(faulty) => ProofTranscriptProcessor::process_step(faulty, step),
            Transcript::Steps(list) => ProofTranscriptProcessor::process_step(list, step),
        }
    }

    fn output(&self) -> &[u8] {
        match self {
            Transcript::Strokes(tally) => ProofTranscriptProcessor::output(tally),
            Transcript::Failing(faulty) => ProofTranscriptProcessor::output(faulty),
            Transcript::Steps(list) => ProofTranscriptProcessor::output(list),
        }
    }
}
