//! The values of a circuit's variables, gate after gate.
ghost use Rattle.std.specs.Prelude.{◌≡◌, ℕ, ◌<◌, ◌^◌, ◌∷◌, false, map, IfOk, OnOk};
ghost use Rattle.sat_rules.specs.Clauses.{lit_true, var_of};
ghost use Rattle.circuit_rules.specs.Checks.{any_output};
ghost use Rattle.circuit_rules.specs.Circuits.{gate_value, simulated, with_value};
ghost use Rattle.circuit_rules.specs.Safety.{lits_true};
ghost use Rattle.circuit_text.specs.Circuits.{gate_of, latch_of};
ghost use Rattle.circuit_answers.specs.Reached.{nexts};
ghost use Rattle.circuit_answers.specs.Simulations.{assigned, values_of};

use circuit_text::{Gate, Latch};
use sat_formula::Lit;
use std::alloc::{AllocError, Global};

/// The values of all variables for an input.
#[derive(Drop)]
pub(crate) struct Simulation {
    /// By the variable's index. A variable behind the last one is false.
    values: Vec<bool>,
}

impl Simulation {
    /// Returns what gates compute, one after the other, for an input.
    ///
    /// # Errors
    ///
    /// `AllocError` if memory runs out.
    pub(crate) fn run(
        alloc: Global,
        input: &[bool],
        gates: &[Gate],
    ) -> Result<Simulation, AllocError>
        ensures { IfOk result (λ s. values_of s
            ≡ simulated (assigned input.now) (map gate_of gates.now)) }
    {
        let mut simulation = Simulation::start(alloc, input)?;
        for gate in gates {
            simulation.run_gate(*gate)?;
        }
        Ok(simulation)
    }

    /// Returns the values before the first gate: the constant is false, and the inputs follow it.
    fn start(alloc: Global, input: &[bool]) -> Result<Simulation, AllocError>
        ensures { IfOk result (λ s. s.values.items ≡ false ∷ input.now) }
    {
        let mut values = Vec::new(alloc);
        values.push(false)?;
        values.extend_from_slice(input)?;
        Ok(Simulation { values })
    }

    /// Computes a gate.
    fn run_gate(&mut self, gate: Gate) -> Result<(), AllocError>
        ensures { OnOk result ((x : ℕ) → values_of self.new x
            ≡ with_value (values_of self.old) (var_of gate.output)
            (gate_value (values_of self.old) (gate_of gate)) x) }
    {
        let value = self.is_true(gate.left) && self.is_true(gate.right);
        self.set(gate.output.index(), value)
    }

    /// Sets the value of a variable.
    fn set(&mut self, variable: usize, value: bool) -> Result<(), AllocError>
        requires { variable < 2 ^ 28 }
        ensures { OnOk result ((x : ℕ) → values_of self.new x
            ≡ with_value (values_of self.old) variable value x) }
    {
        if variable >= self.values.len() {
            self.values.resize(variable + 1, false)?;
        }
        self.values[variable] = value;
        Ok(())
    }

    /// Returns whether a literal is true.
    fn is_true(&self, lit: Lit) -> bool
        ensures { result ≡ lit_true (values_of self.now) lit }
    {
        let index = lit.index();
        let value = index < self.values.len() && self.values[index];
        if lit.is_negative() { !value } else { value }
    }

    /// Returns the values of literals.
    ///
    /// # Errors
    ///
    /// `AllocError` if memory runs out.
    pub(crate) fn values(&self, alloc: Global, lits: &[Lit]) -> Result<Vec<bool>, AllocError>
        ensures { IfOk result (λ values. values.items
            ≡ map (lit_true (values_of self.now)) lits.now) }
    {
        let mut values = Vec::new(alloc);
        for lit in lits {
            values.push(self.is_true(*lit))?;
        }
        Ok(values)
    }

    /// Returns whether all literals are true.
    pub(crate) fn are_true(&self, lits: &[Lit]) -> bool
        ensures { result ≡ lits_true (values_of self.now) lits.now }
    {
        lits.iter().all(|lit| self.is_true(*lit))
    }

    /// Returns whether some literal is true.
    pub(crate) fn is_any_true(&self, lits: &[Lit]) -> bool
        ensures { result ≡ any_output (values_of self.now) lits.now }
    {
        lits.iter().any(|lit| self.is_true(*lit))
    }

    /// Returns the values of latches at the next step.
    ///
    /// # Errors
    ///
    /// `AllocError` if memory runs out.
    pub(crate) fn nexts(&self, alloc: Global, latches: &[Latch]) -> Result<Vec<bool>, AllocError>
        ensures { IfOk result (λ states. states.items
            ≡ nexts (values_of self.now) (map latch_of latches.now)) }
    {
        let mut states = Vec::new(alloc);
        for latch in latches {
            states.push(self.is_true(latch.next))?;
        }
        Ok(states)
    }
}
