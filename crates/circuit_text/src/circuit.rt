//! Circuits as they are read.
ghost use Rattle.std.specs.Prelude.{◌≡◌, OnOk};
ghost use Rattle.circuit_text.specs.automaton.Items.{no_circuit, with_item};
ghost use Rattle.circuit_text.specs.Circuits.{circuit_of};

use sat_formula::Lit;
use std::alloc::{AllocError, Global};

/// An and gate: a variable that is the conjunction of two literals.
#[derive(Clone, Copy, Debug, PartialEq, Eq)]
pub struct Gate {
    /// The positive literal of its variable.
    pub output: Lit,
    pub left: Lit,
    pub right: Lit,
}

/// A latch: a variable that takes the value of a literal at each step.
#[derive(Clone, Copy, Debug, PartialEq, Eq)]
pub struct Latch {
    /// The positive literal of its variable.
    pub output: Lit,
    /// The literal whose value it takes at the next step.
    pub next: Lit,
    /// Its first value, unless that is free.
    pub reset: Option<bool>,
}

/// A circuit. Literals have the codes of the text, so that variable 0 is the constant false, and
/// the inputs are the variables from 1 on.
#[derive(Drop)]
pub struct Circuit {
    /// How many inputs there are.
    pub inputs: u32,
    pub latches: Vec<Latch>,
    pub outputs: Vec<Lit>,
    /// The outputs that a safe machine never makes true.
    pub bad: Vec<Lit>,
    /// The literals that are assumed to be true at each step.
    pub constraints: Vec<Lit>,
    /// The gates, each after those that it reads.
    pub gates: Vec<Gate>,
}

/// What a line of numbers, or a gate, says.
#[derive(Clone, Copy)]
pub(crate) enum Item {
    OfLatch(Latch),
    OfOutput(Lit),
    OfBad(Lit),
    OfConstraint(Lit),
    OfGate(Gate),
}

impl Circuit {
    /// The circuit without inputs, outputs and gates.
    pub(crate) fn new(alloc: Global) -> Circuit
        ensures { circuit_of result ≡ no_circuit }
    {
        Circuit {
            inputs: 0,
            latches: Vec::new(alloc),
            outputs: Vec::new(alloc),
            bad: Vec::new(alloc),
            constraints: Vec::new(alloc),
            gates: Vec::new(alloc),
        }
    }

    /// Adds an item behind those of its kind.
    pub(crate) fn add(&mut self, item: Item) -> Result<(), AllocError>
        ensures { OnOk result (circuit_of self.new ≡ with_item (circuit_of self.old) item) }
    {
        match item {
            Item::OfLatch(latch) => self.add_latch(latch),
            Item::OfOutput(lit) => self.add_output(lit),
            Item::OfBad(lit) => self.add_bad(lit),
            Item::OfConstraint(lit) => self.add_constraint(lit),
            Item::OfGate(gate) => self.add_gate(gate),
        }
    }

    fn add_latch(&mut self, latch: Latch) -> Result<(), AllocError>
        ensures { OnOk result (circuit_of self.new ≡ with_item (circuit_of self.old)
            (Item.OfLatch latch)) }
    {
        self.latches.push(latch)?;
        Ok(())
    }

    fn add_output(&mut self, lit: Lit) -> Result<(), AllocError>
        ensures { OnOk result (circuit_of self.new ≡ with_item (circuit_of self.old)
            (Item.OfOutput lit)) }
    {
        self.outputs.push(lit)?;
        Ok(())
    }

    fn add_bad(&mut self, lit: Lit) -> Result<(), AllocError>
        ensures { OnOk result (circuit_of self.new ≡ with_item (circuit_of self.old)
            (Item.OfBad lit)) }
    {
        self.bad.push(lit)?;
        Ok(())
    }

    fn add_constraint(&mut self, lit: Lit) -> Result<(), AllocError>
        ensures { OnOk result (circuit_of self.new ≡ with_item (circuit_of self.old)
            (Item.OfConstraint lit)) }
    {
        self.constraints.push(lit)?;
        Ok(())
    }

    fn add_gate(&mut self, gate: Gate) -> Result<(), AllocError>
        ensures { OnOk result (circuit_of self.new ≡ with_item (circuit_of self.old)
            (Item.OfGate gate)) }
    {
        self.gates.push(gate)?;
        Ok(())
    }
}
