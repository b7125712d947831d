//! Stimuli from a reader's bytes.
ghost use Rattle.std.specs.Prelude.{IfErr, IfOk};
ghost use Rattle.stimulus_text.specs.automaton.Taking.{Ends, IsTaken};
ghost use Rattle.stimulus_text.specs.Faults.{FailsBy};
ghost use Rattle.stimulus_text.specs.Reading.{IsRead};
ghost use Rattle.stimulus_text.specs.automaton.Items.{told_by};
ghost use Rattle.stimulus_text.specs.automaton.Texts.{at_end, step};

use crate::fault::{StimulusFault, StimulusKind};
use crate::spot::{After, Shape, Spot};
use crate::stimulus::{Stimulus, Told};
use sat_formula::read_fault::{LineNumber, UntakenByte};
use sat_formula::source::{NoByte, Source};
use std::alloc::Global;
use std::io::Read;

/// Reads a stimulus whole, for a machine of this shape.
///
/// The first line is `1`; lines that begin with `b` name properties, whose numbers are skipped.
/// Then comes a line with a value for each latch, and for each step a line with a value for each
/// input. A value is `0`, `1` or `x`; an `x` may be anything, and is 0 here. The line `.` ends the
/// steps, and comments that begin with `c` may follow it.
///
/// # Errors
///
/// `Wrong` with the first fault of the text, `Read` if a read failed, which is not retried, or the
/// text has more than `u64::MAX` bytes, or `OutOfMemory`.
pub fn read_stimulus<R: Read + Drop>(
    alloc: Global,
    text: R,
    shape: Shape,
) -> Result<Stimulus, StimulusFault>
    ensures reads { IfOk result (IsRead shape (R.remaining text)) }
    ensures fault { IfErr result (FailsBy shape (R.remaining text)) }
{
    let mut source = Source::limited(alloc, text, u64::MAX);
    let mut told = Told::new(alloc);
    let mut spot = Spot::start(shape);
    'bytes: loop {
        match source.next_byte() {
            Ok(byte) => spot = take(alloc, &mut told, spot, byte)?,
            Err(NoByte::End) => return Ok(end(told, spot)?),
            Err(NoByte::Read) => return Err(StimulusFault::Read(source.error())),
            Err(NoByte::OutOfMemory) => return Err(StimulusFault::OutOfMemory),
        }
    }
}

/// Takes a byte and returns the state after it.
fn take(
    alloc: Global,
    told: &mut Told,
    spot: Spot,
    byte: u8,
) -> Result<Spot, UntakenByte<LineNumber, StimulusKind>>
    ensures { IsTaken (step (told_by told.old) spot byte) told.new result }
{
    match spot.after(byte) {
        After::Next(next) => Ok(next),
        After::Gives(item, next) => {
            told.add(alloc, item)?;
            Ok(next)
        }
        After::Stops(kind) => Err(UntakenByte::Wrong {
            at: LineNumber(spot.line),
            kind,
        }),
    }
}

/// Ends the text.
fn end(told: Told, spot: Spot) -> Result<Stimulus, UntakenByte<LineNumber, StimulusKind>>
    ensures { Ends (at_end (told_by told) spot) result }
{
    if !spot.is_done() {
        return Err(UntakenByte::Wrong {
            at: LineNumber(spot.line),
            kind: StimulusKind::Unfinished,
        });
    }
    Ok(Stimulus {
        first: told.first,
        steps: told.steps,
    })
}
