//! Two circuits whose inputs and outputs are paired.
ghost use Rattle.std.specs.Prelude.{◌≡◌, ◌⊎◌, ◌↔◌, ◌<◌, ℕ, length, Some, IfErr, IfOk, IsTrue};
ghost use Rattle.circuit_names.specs.Names.{AreNames, NamesNone, count_in, name_in};
ghost use Rattle.circuit_names.specs.Pairs.{ArePlaces, AreNamed, HaveOneShape, FailsNames, IsPairFault, IsPaired, IsPairedByName, NamesNothing};
ghost use Rattle.circuit_text.specs.Circuits.{circuit_of};
ghost use Rattle.circuit_text.specs.Faults.{FailsBy};

use crate::arranged::arranged;
use crate::fault::PairFault;
use crate::names::{Names, Which};
use crate::place::Kind;
use crate::positions::Positions;
use circuit_text::{AigerFault, Circuit, read_circuit};
use sat_formula::Var;
use std::alloc::Global;

/// How the inputs and outputs of two circuits are paired.
#[derive(Clone, Copy, Debug, PartialEq, Eq)]
pub enum Pairing {
    /// By their names; by their positions, if neither circuit has a name.
    ByName,
    /// By their positions.
    ByPosition,
}

/// Returns the second circuit, with its inputs and outputs in the order of those of the first one
/// with which they are paired. The gates keep their variables; latches, bad outputs and constraints
/// stay as they are, so neither circuit should have any. If the circuits have other numbers of
/// inputs or outputs, it is returned as it is.
///
/// # Errors
///
/// `Unnamed`, `Repeated` and `Unmatched` for an input or output that can't be paired by its name;
/// `OutOfMemory`.
pub fn paired(
    alloc: Global,
    pairing: Pairing,
    circuit: &Circuit,
    text: &[u8],
    second: Circuit,
    other: &[u8],
) -> Result<Circuit, PairFault>
    ensures paired { IfOk result (λ made. IsPaired pairing text.now other.now
        (circuit_of circuit.now) (circuit_of second) (circuit_of made)) }
    ensures asked { IfErr result (λ fault. pairing ≡ Pairing.ByName) }
    ensures fault { IfErr result (IsPairFault text.now other.now
        (circuit_of circuit.now) (circuit_of second)) }
{
    match pairing {
        Pairing::ByPosition => Ok(second),
        Pairing::ByName => paired_by_name(alloc, circuit, text, second, other),
    }
}

/// Returns the second circuit, paired by names. An Err is as of [`paired`].
fn paired_by_name(
    alloc: Global,
    circuit: &Circuit,
    text: &[u8],
    second: Circuit,
    other: &[u8],
) -> Result<Circuit, PairFault>
    ensures paired { IfOk result (λ made. IsPairedByName text.now other.now
        (circuit_of circuit.now) (circuit_of second) (circuit_of made)) }
    ensures fault { IfErr result (IsPairFault text.now other.now
        (circuit_of circuit.now) (circuit_of second)) }
{
    if !have_one_shape(circuit, &second) {
        return Ok(second);
    }
    let one = Names::of(alloc, Which::First, circuit, text)?;
    let two = Names::of(alloc, Which::Second, &second, other)?;
    if are_unnamed(&one, &two) {
        return Ok(second);
    }
    let inputs = places(alloc, Kind::Input, &one, &two)?;
    let outputs = places(alloc, Kind::Output, &two, &one)?;
    Ok(arranged(alloc, second, &inputs, &outputs)?)
}

/// Whether neither of two circuits has a name.
fn are_unnamed(one: &Names<'_>, two: &Names<'_>) -> bool
    ensures { IsTrue result ↔ (NamesNone one.now × NamesNone two.now) }
{
    one.is_empty() && two.is_empty()
}

/// Returns where among the names of one circuit each name of the other one stands.
///
/// # Errors
///
/// The first that applies: `Unnamed` or `Repeated` of the first circuit or of the second one;
/// `Unmatched` of the second one; and `OutOfMemory`.
fn places(
    alloc: Global,
    kind: Kind,
    among: &Names<'_>,
    names: &Names<'_>,
) -> Result<Vec<usize>, PairFault>
    requires { count_in among.now kind ≡ count_in names.now kind }
    ensures places { IfOk result (λ places. ArePlaces (count_in names.now kind)
        (name_in among.now kind) (name_in names.now kind) places.items) }
    ensures among { IfOk result (λ places.
        AreNamed (count_in names.now kind) (name_in among.now kind)) }
    ensures names { IfOk result (λ places.
        AreNamed (count_in names.now kind) (name_in names.now kind)) }
    ensures fault { IfErr result (λ fault.
        FailsNames among.now.circuit kind (count_in names.now kind) (name_in among.now kind)
        (name_in names.now kind) fault
        ⊎ FailsNames names.now.circuit kind (count_in names.now kind) (name_in names.now kind)
        (name_in among.now kind) fault) }
{
    let positions = Positions::of(alloc, among, kind)?;
    Positions::of(alloc, names, kind)?;
    positions.places(alloc, names, kind)
}

/// Whether two circuits have as many inputs, for which there are literals, and as many outputs.
fn have_one_shape(one: &Circuit, other: &Circuit) -> bool
    ensures { IsTrue result ↔ HaveOneShape (circuit_of one.now) (circuit_of other.now) }
{
    one.inputs == other.inputs
        && (one.inputs as usize) < Var::MAX_COUNT
        && one.outputs.len() == other.outputs.len()
}

/// Returns whether the text of a circuit has no names.
///
/// # Errors
///
/// The first fault of the text, or `OutOfMemory`.
pub fn names_nothing(alloc: Global, text: &[u8]) -> Result<bool, AigerFault>
    ensures nothing { IfOk result (λ nothing. IsTrue nothing → NamesNothing text.now) }
    ensures fault { IfErr result (FailsBy (Some text.now)) }
{
    let circuit = match read_circuit(alloc, text) {
        Ok(circuit) => circuit,
        Err(fault) => return Err(fault),
    };
    match Names::of(alloc, Which::First, &circuit, text) {
        Ok(names) => Ok(names.is_empty()),
        Err(_) => Err(AigerFault::OutOfMemory),
    }
}
