//! Whether gates and literals have variables of their own.
ghost use Rattle.std.specs.Prelude.{◌≡◌, ◌<◌, ◌^◌, map};
ghost use Rattle.circuit_rules.specs.Checks.{gates_below, lits_below};
ghost use Rattle.circuit_rules.specs.Circuits.{are_ordered};
ghost use Rattle.circuit_rules.specs.Safety.{latches_below};
ghost use Rattle.circuit_clauses.specs.Formulas.{is_next};
ghost use Rattle.circuit_clauses.specs.Machines.{is_latch_below};
ghost use Rattle.circuit_text.specs.Circuits.{gate_of, latch_of};

use circuit_text::{Gate, Latch};
use sat_formula::Lit;

/// Whether each gate has a variable from `first` on, reads variables before its own, and comes
/// after the gates that it reads.
pub(crate) fn are_ordered(first: usize, gates: &[Gate]) -> bool
    ensures { result ≡ are_ordered first (map gate_of gates.now) }
{
    let mut next = first;
    for gate in gates {
        if !is_next(next, *gate) {
            return false;
        }
        next = gate.output.index() + 1;
    }
    true
}

/// Whether a gate reads variables below a number alone, and has one from that number on.
fn is_next(next: usize, gate: Gate) -> bool
    ensures { result ≡ is_next next (gate_of gate) }
{
    gate.left.index() < next && gate.right.index() < next && next <= gate.output.index()
}

/// Whether the variable of each gate, this much further on, is below a limit.
pub(crate) fn gates_below(shift: usize, limit: usize, gates: &[Gate]) -> bool
    requires { shift < 2 ^ 32 }
    ensures { result ≡ gates_below shift limit (map gate_of gates.now) }
{
    for gate in gates {
        if gate.output.index() + shift >= limit {
            return false;
        }
    }
    true
}

/// Whether the variable of each literal, this much further on, is below a limit.
pub(crate) fn lits_below(shift: usize, limit: usize, lits: &[Lit]) -> bool
    requires { shift < 2 ^ 32 }
    ensures { result ≡ lits_below shift limit lits.now }
{
    lits.iter().all(|lit| lit.index() + shift < limit)
}

/// Whether the variable of each latch is among the first ones, this many, and that of its next
/// literal below a limit.
pub(crate) fn latches_below(states: usize, limit: usize, latches: &[Latch]) -> bool
    ensures { result ≡ latches_below states limit (map latch_of latches.now) }
{
    for latch in latches {
        if !is_below(states, limit, *latch) {
            return false;
        }
    }
    true
}

/// Whether this is so of one latch.
fn is_below(states: usize, limit: usize, latch: Latch) -> bool
    ensures { result ≡ is_latch_below states limit (latch_of latch) }
{
    let place = latch.output.index();
    0 < place && place <= states && latch.next.index() < limit
}
