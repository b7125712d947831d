//! Stimuli as they are read.
ghost use Rattle.std.specs.Prelude.{◌≡◌, OnOk};
ghost use Rattle.stimulus_text.specs.automaton.Items.{nothing_told, told_by, with_item};

use std::alloc::{AllocError, Global};
use std::mem::replace;

/// A step.
#[derive(Drop)]
pub struct Step {
    /// The value of each input.
    pub inputs: Vec<bool>,
}

/// The values by which a machine is run.
#[derive(Drop)]
pub struct Stimulus {
    /// The first value of each latch.
    pub first: Vec<bool>,
    pub steps: Vec<Step>,
}

/// What was read so far.
#[derive(Drop)]
pub(crate) struct Told {
    pub(crate) first: Vec<bool>,
    pub(crate) steps: Vec<Step>,
    /// The values of the line that is read.
    pub(crate) inputs: Vec<bool>,
}

/// What a byte says.
#[derive(Clone, Copy)]
pub(crate) enum Item {
    /// The first value of a latch.
    OfLatch(bool),
    /// The value of an input.
    OfInput(bool),
    /// The end of a step.
    OfStep,
}

impl Told {
    /// Before the first value.
    pub(crate) fn new(alloc: Global) -> Told
        ensures { told_by result ≡ nothing_told }
    {
        Told {
            first: Vec::new(alloc),
            steps: Vec::new(alloc),
            inputs: Vec::new(alloc),
        }
    }

    /// Adds an item behind those of its kind.
    pub(crate) fn add(&mut self, alloc: Global, item: Item) -> Result<(), AllocError>
        ensures { OnOk result (told_by self.new ≡ with_item (told_by self.old) item) }
    {
        match item {
            Item::OfLatch(value) => self.add_latch(value),
            Item::OfInput(value) => self.add_input(value),
            Item::OfStep => self.add_step(alloc),
        }
    }

    fn add_latch(&mut self, value: bool) -> Result<(), AllocError>
        ensures { OnOk result (told_by self.new ≡ with_item (told_by self.old)
            (Item.OfLatch value)) }
    {
        self.first.push(value)?;
        Ok(())
    }

    fn add_input(&mut self, value: bool) -> Result<(), AllocError>
        ensures { OnOk result (told_by self.new ≡ with_item (told_by self.old)
            (Item.OfInput value)) }
    {
        self.inputs.push(value)?;
        Ok(())
    }

    fn add_step(&mut self, alloc: Global) -> Result<(), AllocError>
        ensures { OnOk result (told_by self.new ≡ with_item (told_by self.old) Item.OfStep) }
    {
        let inputs = replace(&mut self.inputs, Vec::new(alloc));
        self.steps.push(Step { inputs })?;
        Ok(())
    }
}
