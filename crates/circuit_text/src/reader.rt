//! Circuits from a reader's bytes.
ghost use Rattle.std.specs.Prelude.{IfErr, IfOk};
ghost use Rattle.circuit_text.specs.automaton.Aigers.{at_end, step};
ghost use Rattle.circuit_text.specs.automaton.Taking.{Ends, IsTaken};
ghost use Rattle.circuit_text.specs.Circuits.{circuit_of};
ghost use Rattle.circuit_text.specs.Faults.{FailsBy};
ghost use Rattle.circuit_text.specs.Reading.{IsRead};

use crate::circuit::Circuit;
use crate::fault::{AigerFault, AigerKind, Location};
use crate::spot::{After, Spot};
use sat_formula::read_fault::UntakenByte;
use sat_formula::source::{NoByte, Source};
use std::alloc::Global;
use std::io::Read;

/// Reads a circuit in AIGER whole, or returns its first fault. The first word tells the form: `aig`
/// is the binary one, and `aag` the text form, with variables numbered as in the binary one.
///
/// The header counts the maximal variable, inputs, latches, outputs and gates, and then bad
/// outputs and constraints, which may be left out. The words of a line have one space between
/// them, and each line ends with a line feed. Names of symbols are skipped.
///
/// # Errors
///
/// A read that fails is not tried again. Of a text at most `u64::MAX` bytes are taken; where more
/// would be, it is as if a read had failed.
pub fn read_circuit<R: Read + Drop>(alloc: Global, text: R) -> Result<Circuit, AigerFault>
    ensures reads { IfOk result (IsRead (R.remaining text)) }
    ensures fault { IfErr result (FailsBy (R.remaining text)) }
{
    let mut source = Source::limited(alloc, text, u64::MAX);
    let mut circuit = Circuit::new(alloc);
    let mut spot = Spot::start();
    'bytes: loop {
        match source.next_byte() {
            Ok(byte) => spot = take(&mut circuit, spot, byte)?,
            Err(NoByte::End) => return Ok(end(circuit, spot)?),
            Err(NoByte::Read) => return Err(AigerFault::Read(source.error())),
            Err(NoByte::OutOfMemory) => return Err(AigerFault::OutOfMemory),
        }
    }
}

/// Takes a byte: where the reading is after it.
#[inline(always)]
fn take(
    circuit: &mut Circuit,
    spot: Spot,
    byte: u8,
) -> Result<Spot, UntakenByte<Location, AigerKind>>
    ensures { IsTaken (step (circuit_of circuit.old) spot byte) circuit.new result }
{
    let at = spot.location();
    match spot.after(byte) {
        After::Next(next) => Ok(next),
        After::Gives(item, next) => {
            circuit.add(item)?;
            Ok(next)
        }
        After::Stops(kind) => Err(UntakenByte::Wrong { at, kind }),
    }
}

/// Ends the text.
fn end(mut circuit: Circuit, spot: Spot) -> Result<Circuit, UntakenByte<Location, AigerKind>>
    ensures { Ends (at_end (circuit_of circuit) spot) result }
{
    if !spot.is_done() {
        return Err(UntakenByte::Wrong {
            at: spot.location(),
            kind: AigerKind::Unfinished,
        });
    }
    circuit.inputs = spot.header.inputs;
    Ok(circuit)
}
