//! The formulas of circuits' texts.
ghost use Rattle.std.specs.Prelude.{IfErr, IfOk, Some};
ghost use Rattle.circuit_check.specs.Claims.{IsGates, IsInductionText, IsNeverFormula, IsSameFormula, IsSecond};
ghost use Rattle.circuit_check.specs.Reads.{FailsBoth, FailsGates, FailsNever, FailsPaired, FailsRead, FailsSafe, FailsSame};
ghost use Rattle.circuit_text.specs.Reading.{IsRead};

use crate::fault::CircuitFault;
use crate::pair::PairTexts;
use crate::shape::is_combinational;
use circuit_clauses::{Induction, never_formula, same_formula};
use circuit_names::paired;
use circuit_text::{Circuit, read_circuit};
use sat_formula::CnfFormula;
use std::alloc::Global;
use std::io::Read;

/// Reads a circuit, and returns the formula that is refuted if the circuit is never true.
pub(crate) fn read_never<A: Read + Drop>(alloc: Global, text: A) -> Result<CnfFormula, CircuitFault>
    ensures formula { IfOk result (IsNeverFormula (A.remaining text)) }
    ensures fault { IfErr result (FailsNever (A.remaining text)) }
{
    let circuit = match read_gates(alloc, text) {
        Ok(circuit) => circuit,
        Err(fault) => return Err(fault),
    };
    match never_formula(alloc, &circuit) {
        Ok(formula) => Ok(formula),
        Err(fault) => Err(CircuitFault::NoFormula(fault)),
    }
}

/// Reads two circuits, and returns the formula that is refuted if they are the same.
pub(crate) fn read_same(alloc: Global, pair: PairTexts<'_>) -> Result<CnfFormula, CircuitFault>
    ensures formula { IfOk result (IsSameFormula pair.entry.pairing pair.entry.text.now
        pair.entry.other.now) }
    ensures fault { IfErr result (FailsSame pair.entry.pairing pair.entry.text.now
        pair.entry.other.now) }
{
    let (first, second) = match read_paired(alloc, pair) {
        Ok(circuits) => circuits,
        Err(fault) => return Err(fault),
    };
    match same_formula(alloc, &first, &second) {
        Ok(formula) => Ok(formula),
        Err(fault) => Err(CircuitFault::NoFormula(fault)),
    }
}

/// Reads a circuit of gates and outputs alone.
pub(crate) fn read_gates<A: Read + Drop>(alloc: Global, text: A) -> Result<Circuit, CircuitFault>
    ensures gates { IfOk result (IsGates (A.remaining text)) }
    ensures fault { IfErr result (FailsGates (A.remaining text)) }
{
    let circuit = match read_circuit(alloc, text) {
        Ok(circuit) => circuit,
        Err(fault) => return Err(CircuitFault::Unread(fault)),
    };
    if !is_combinational(&circuit) {
        return Err(CircuitFault::Sequential);
    }
    Ok(circuit)
}

/// Reads two such circuits, and returns the second one in the order of the first one.
pub(crate) fn read_paired(
    alloc: Global,
    pair: PairTexts<'_>,
) -> Result<(Circuit, Circuit), CircuitFault>
    ensures first { IfOk result (λ read. IsGates (Some pair.entry.text.now) read.0) }
    ensures second { IfOk result (λ read. IsSecond pair.entry.pairing pair.entry.text.now
        pair.entry.other.now read.0 read.1) }
    ensures fault { IfErr result (FailsPaired pair.entry.pairing pair.entry.text.now
        pair.entry.other.now) }
{
    let (first, second) = match read_both(alloc, pair.text, pair.other) {
        Ok(circuits) => circuits,
        Err(fault) => return Err(fault),
    };
    match paired(alloc, pair.pairing, &first, pair.text, second, pair.other) {
        Ok(second) => Ok((first, second)),
        Err(fault) => Err(CircuitFault::Unpaired(fault)),
    }
}

/// Reads two such circuits, the first one first.
fn read_both<A: Read + Drop, B: Read + Drop>(
    alloc: Global,
    text: A,
    other: B,
) -> Result<(Circuit, Circuit), CircuitFault>
    ensures first { IfOk result (λ read. IsGates (A.remaining text) read.0) }
    ensures second { IfOk result (λ read. IsGates (B.remaining other) read.1) }
    ensures fault { IfErr result (FailsBoth (A.remaining text) (B.remaining other)) }
{
    let (first, second) = match read_two(alloc, text, other) {
        Ok(circuits) => circuits,
        Err(fault) => return Err(fault),
    };
    if !is_combinational(&first) {
        return Err(CircuitFault::Sequential);
    }
    if !is_combinational(&second) {
        return Err(CircuitFault::Sequential);
    }
    Ok((first, second))
}

/// Reads a machine and an invariant.
pub(crate) fn read_safe<A: Read + Drop, B: Read + Drop>(
    alloc: Global,
    machine: A,
    invariant: B,
) -> Result<Induction, CircuitFault>
    ensures induction { IfOk result (IsInductionText (A.remaining machine) (B.remaining invariant)) }
    ensures fault { IfErr result (FailsSafe (A.remaining machine) (B.remaining invariant)) }
{
    let (machine, invariant) = match read_two(alloc, machine, invariant) {
        Ok(circuits) => circuits,
        Err(fault) => return Err(fault),
    };
    match Induction::of(alloc, machine, &invariant) {
        Ok(induction) => Ok(induction),
        Err(fault) => Err(CircuitFault::NoFormula(fault)),
    }
}

/// Reads two circuits, the first one first.
fn read_two<A: Read + Drop, B: Read + Drop>(
    alloc: Global,
    text: A,
    other: B,
) -> Result<(Circuit, Circuit), CircuitFault>
    ensures first { IfOk result (λ read. IsRead (A.remaining text) read.0) }
    ensures second { IfOk result (λ read. IsRead (B.remaining other) read.1) }
    ensures fault { IfErr result (FailsRead (A.remaining text) (B.remaining other)) }
{
    let first = match read_circuit(alloc, text) {
        Ok(circuit) => circuit,
        Err(fault) => return Err(CircuitFault::Unread(fault)),
    };
    match read_circuit(alloc, other) {
        Ok(second) => Ok((first, second)),
        Err(fault) => Err(CircuitFault::OtherUnread(fault)),
    }
}
