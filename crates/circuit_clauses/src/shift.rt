//! Circuits whose variables are further on in a formula.
ghost use Rattle.std.specs.Prelude.{◌≡◌, ◌+◌, ◌*◌, ◌<◌, ◌^◌, map, true, IfOk};
ghost use Rattle.circuit_rules.specs.Checks.{moved, moved_gate};
ghost use Rattle.circuit_clauses.specs.Causes.{gate_fits, gates_fit};
ghost use Rattle.circuit_text.specs.Circuits.{gate_of};
ghost use Rattle.sat_rules.specs.Clauses.{var_of};

use circuit_text::Gate;
use sat_formula::Lit;
use std::alloc::{AllocError, Global};

/// By how much the variables of a circuit are further on; the first ones stay.
#[derive(Clone, Copy)]
pub(crate) struct Shift {
    /// How many variables from 1 on stay.
    pub(crate) inputs: u32,
    pub(crate) distance: u32,
}

impl Shift {
    /// Returns a literal of the circuit in the formula.
    pub(crate) fn moved(self, lit: Lit) -> Lit
        requires { var_of lit + self.distance < 2 ^ 28 }
        ensures { result ≡ moved self.inputs self.distance lit }
    {
        if lit.index() <= self.inputs as usize {
            lit
        } else {
            self.far(lit)
        }
    }

    /// Returns the literal whose variable is further on.
    pub(crate) fn far(self, lit: Lit) -> Lit
        requires { var_of lit + self.distance < 2 ^ 28 }
        ensures { result ≡ lit + 2 * self.distance }
    {
        match Lit::from_code(lit.code() + 2 * self.distance as usize) {
            Some(far) => far,
            None => unreachable!(),
        }
    }

    /// Returns a gate of the circuit in the formula.
    pub(crate) fn moved_gate(self, gate: Gate) -> Gate
        requires { gate_fits self.distance (gate_of gate) ≡ true }
        ensures { gate_of result ≡ moved_gate self.inputs self.distance (gate_of gate) }
    {
        Gate {
            output: self.far(gate.output),
            left: self.moved(gate.left),
            right: self.moved(gate.right),
        }
    }

    /// Returns the gates of the circuit in the formula.
    pub(crate) fn moved_gates(self, alloc: Global, gates: &[Gate]) -> Result<Vec<Gate>, AllocError>
        requires { gates_fit self.distance (map gate_of gates.now) ≡ true }
        ensures { IfOk result (λ more. map gate_of more.items
            ≡ map (moved_gate self.inputs self.distance) (map gate_of gates.now)) }
    {
        let mut more = Vec::new(alloc);
        for gate in gates {
            more.push(self.moved_gate(*gate))?;
        }
        Ok(more)
    }
}
