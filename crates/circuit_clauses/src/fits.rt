//! Whether a formula can have variables that are further on.
ghost use Rattle.std.specs.Prelude.{◌≡◌, ◌<◌, ◌^◌, map};
ghost use Rattle.circuit_clauses.specs.Causes.{gate_fits, gates_fit, latches_fit, lit_fits};
ghost use Rattle.circuit_text.specs.Circuits.{gate_of, latch_of};

use circuit_text::{Gate, Latch};
use sat_formula::{Lit, Var};

/// Whether a formula can have the variables of gates, this much further on.
pub(crate) fn gates_fit(distance: usize, gates: &[Gate]) -> bool
    requires { distance < 2 ^ 32 }
    ensures { result ≡ gates_fit distance (map gate_of gates.now) }
{
    for gate in gates {
        if !gate_fits(distance, *gate) {
            return false;
        }
    }
    true
}

/// Whether this is so of one gate.
fn gate_fits(distance: usize, gate: Gate) -> bool
    requires { distance < 2 ^ 32 }
    ensures { result ≡ gate_fits distance (gate_of gate) }
{
    lit_fits(distance, gate.output)
        && lit_fits(distance, gate.left)
        && lit_fits(distance, gate.right)
}

/// Whether a formula can have the variables of latches, this much further on.
pub(crate) fn latches_fit(distance: usize, latches: &[Latch]) -> bool
    requires { distance < 2 ^ 32 }
    ensures { result ≡ latches_fit distance (map latch_of latches.now) }
{
    for latch in latches {
        if !lit_fits(distance, latch.output) {
            return false;
        }
    }
    true
}

/// Whether a formula can have the variable of a literal, this much further on.
pub(crate) fn lit_fits(distance: usize, lit: Lit) -> bool
    requires { distance < 2 ^ 32 }
    ensures { result ≡ lit_fits distance lit }
{
    lit.index() + distance < Var::MAX_COUNT
}
