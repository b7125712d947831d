//! Whether a circuit has outputs and gates alone.
ghost use Rattle.std.specs.Prelude.{◌↔◌, IsTrue};
ghost use Rattle.circuit_text.specs.Circuits.{circuit_of};
ghost use Rattle.circuit_check.specs.Claims.{IsCombinational};

use circuit_text::Circuit;

/// Whether a circuit has no latches, bad state properties and invariant constraints.
pub(crate) fn is_combinational(circuit: &Circuit) -> bool
    ensures { IsTrue result ↔ IsCombinational (circuit_of circuit.now) }
{
    circuit.latches.is_empty() && circuit.bad.is_empty() && circuit.constraints.is_empty()
}
