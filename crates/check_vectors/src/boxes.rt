//! Processors and transcripts of several kinds, for tests and as examples.
ghost use Rattle.std.specs.Prelude.{◌≡◌, ◌+◌, [], ◌++◌, codes, OnOk, OnErr};
ghost use Rattle.std.specs.String.{string_bytes};
ghost use Rattle.check_vectors.specs.Texts.{Appends};

use crate::lines::{name_line, step_line, transcript_line};
use anyhow::{Error, bail};
use checker_parts::processor::{CheckerData, ProofProcessor, ProofTranscriptProcessor};
use checker_parts::step::{CheckedProofStep, ProofTranscriptStep};
use std::alloc::Global;

/// Adds a stroke for each step; the output is the strokes.
#[derive(Drop)]
pub struct Tally {
    strokes: Vec<u8>,
}

impl Tally {
    /// Returns a tally without strokes. Allocates no memory.
    pub fn new(alloc: Global) -> Tally
        ensures { result.strokes.items ≡ [] }
    {
        Tally {
            strokes: Vec::new(alloc),
        }
    }

    /// Adds a stroke.
    ///
    /// # Errors
    ///
    /// If there is no memory; the strokes are as they were then.
    fn stroke(&mut self) -> Result<(), Error>
        ensures made { OnOk result (self.new.strokes.items ≡ self.old.strokes.items ++ codes "|") }
        ensures kept { OnErr result (self.new.strokes.items ≡ self.old.strokes.items) }
    {
        self.strokes.push(b'|')?;
        Ok(())
    }
}

impl ProofProcessor for Tally {
    ghost took = { λ old e new. new.strokes.items ≡ old.strokes.items ++ codes "|" };

    ghost faulted = { λ old e new. new.strokes.items ≡ old.strokes.items };

    ghost shown = { λ it. it.strokes.items };

    fn process_step(&mut self, _step: &CheckedProofStep, _names: CheckerData) -> Result<(), Error> {
        self.stroke()
    }

    fn output(&self) -> &[u8] {
        &self.strokes
    }
}

impl ProofTranscriptProcessor for Tally {
    ghost took = { λ old e new. new.strokes.items ≡ old.strokes.items ++ codes "|" };

    ghost faulted = { λ old e new. new.strokes.items ≡ old.strokes.items };

    ghost shown = { λ it. it.strokes.items };

    fn process_step(&mut self, _step: &ProofTranscriptStep) -> Result<(), Error> {
        self.stroke()
    }

    fn output(&self) -> &[u8] {
        &self.strokes
    }
}

/// Accepts this many steps, fails at each one after them, and has no output.
#[derive(Drop)]
pub struct Faulty {
    left: u64,
}

impl Faulty {
    /// Returns a processor that accepts `left` steps before the first fault.
    pub fn after(left: u64) -> Faulty
        ensures { result.left ≡ left }
    {
        Faulty { left }
    }

    /// Accepts a step.
    ///
    /// # Errors
    ///
    /// The planned fault, if no step is left.
    fn take(&mut self) -> Result<(), Error>
        ensures took { OnOk result (self.old.left ≡ self.new.left + 1) }
        ensures faulted { OnErr result ((self.old.left ≡ 0) × (self.new ≡ self.old)) }
    {
        if self.left == 0 {
            bail!("the planned fault");
        }
        self.left -= 1;
        Ok(())
    }
}

impl ProofProcessor for Faulty {
    ghost took = { λ old e new. old.left ≡ new.left + 1 };

    ghost faulted = { λ old e new. (old.left ≡ 0) × (new ≡ old) };

    ghost shown = { λ it. [] };

    fn process_step(&mut self, _step: &CheckedProofStep, _names: CheckerData) -> Result<(), Error> {
        self.take()
    }

    fn output(&self) -> &[u8] {
        &[]
    }
}

impl ProofTranscriptProcessor for Faulty {
    ghost took = { λ old e new. old.left ≡ new.left + 1 };

    ghost faulted = { λ old e new. (old.left ≡ 0) × (new ≡ old) };

    ghost shown = { λ it. [] };

    fn process_step(&mut self, _step: &ProofTranscriptStep) -> Result<(), Error> {
        self.take()
    }

    fn output(&self) -> &[u8] {
        &[]
    }
}

/// Lists steps as text, a line each.
#[derive(Drop)]
pub struct StepList {
    alloc: Global,
    text: String,
    names_alone: bool,
}

impl StepList {
    /// Returns an empty list. Each step gets a line. Allocates no memory.
    pub fn new(alloc: Global) -> StepList {
        StepList {
            alloc,
            text: String::new(alloc),
            names_alone: false,
        }
    }

    /// Returns an empty list. A processor gets a line for each variable that gets or loses a name
    /// or is deleted, with the user variable that is shown with the step. Allocates no memory.
    pub fn of_names(alloc: Global) -> StepList {
        StepList {
            names_alone: true,
            ..StepList::new(alloc)
        }
    }
}

impl ProofProcessor for StepList {
    ghost took = { λ old e new. Appends (string_bytes old.text) (string_bytes new.text) };

    ghost faulted = { λ old e new. string_bytes new.text ≡ string_bytes old.text };

    ghost shown = { λ it. string_bytes it.text };

    fn process_step(&mut self, step: &CheckedProofStep, names: CheckerData) -> Result<(), Error> {
        let line = if self.names_alone {
            name_line(self.alloc, step, names)?
        } else {
            step_line(self.alloc, step)?
        };
        self.text.push_str(&line)?;
        Ok(())
    }

    fn output(&self) -> &[u8] {
        self.text.as_bytes()
    }
}

impl ProofTranscriptProcessor for StepList {
    ghost took = { λ old e new. Appends (string_bytes old.text) (string_bytes new.text) };

    ghost faulted = { λ old e new. string_bytes new.text ≡ string_bytes old.text };

    ghost shown = { λ it. string_bytes it.text };

    fn process_step(&mut self, step: &ProofTranscriptStep) -> Result<(), Error> {
        let line = transcript_line(self.alloc, step)?;
        self.text.push_str(&line)?;
        Ok(())
    }

    fn output(&self) -> &[u8] {
        self.text.as_bytes()
    }
}
