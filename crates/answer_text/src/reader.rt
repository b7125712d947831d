//! Answers from a reader's bytes.
ghost use Rattle.std.specs.Prelude.{◌≡◌, ℕ, List, [], IfErr, IfOk};
ghost use Rattle.answer_text.specs.automaton.Answers.{at_end, finish, step};
ghost use Rattle.answer_text.specs.Literals.{HasThe};
ghost use Rattle.answer_text.specs.automaton.Taking.{Ends, IsTaken};
ghost use Rattle.answer_text.specs.Reading.{FailsBy, ListsThe};

use crate::fault::{AnswerFault, AnswerKind};
use crate::literals::Literals;
use crate::spot::{After, Spot};
use sat_formula::read_fault::{LineNumber, UntakenByte};
use sat_formula::source::{NoByte, Source};
use std::alloc::Global;
use std::io::Read;

/// Reads a whole answer of a solver and returns the literals that it lists.
///
/// A line that begins with `c` is a comment. Other lines are a status, `s` and `SATISFIABLE`, or
/// have numbers, after a `v` or not; the literals end with the first 0, and no number follows it.
/// If a line begins with `v`, there is one status line. Space, tab and CR are blanks. No two
/// literals may be opposite.
///
/// # Errors
///
/// `Wrong` with the first fault of the text, `Read` if a read failed, which is not retried, or the
/// answer has more than `u64::MAX` bytes, or `OutOfMemory`.
pub fn read_answer<R: Read + Drop>(alloc: Global, answer: R) -> Result<Literals, AnswerFault>
    ensures lists { IfOk result (ListsThe (R.remaining answer)) }
    ensures fault { IfErr result (FailsBy (R.remaining answer)) }
{
    let mut source = Source::limited(alloc, answer, u64::MAX);
    let mut literals = Literals::new(alloc);
    let mut spot = Spot::start();
    'bytes: loop {
        match source.next_byte() {
            Ok(byte) => spot = take(&mut literals, spot, byte)?,
            Err(NoByte::End) => return Ok(end(literals, spot)?),
            Err(NoByte::Read) => return Err(AnswerFault::Read(source.error())),
            Err(NoByte::OutOfMemory) => return Err(AnswerFault::OutOfMemory),
        }
    }
}

/// Takes a byte and returns the state after it.
#[inline(always)]
fn take(
    literals: &mut Literals,
    spot: Spot,
    byte: u8,
) -> Result<Spot, UntakenByte<LineNumber, AnswerKind>>
    ensures { (lits : List ℕ) → HasThe lits literals.old
        → IsTaken (step lits spot byte) literals.new result }
{
    match spot.after(byte) {
        After::Goes(next) => Ok(next),
        After::Gives(lit, next) => {
            if literals.contains(!lit) {
                return Err(wrong(spot, AnswerKind::BothSigns));
            }
            literals.add(lit)?;
            Ok(next)
        }
        After::Stops(kind) => Err(wrong(spot, kind)),
    }
}

/// Ends the text.
fn end(mut literals: Literals, spot: Spot) -> Result<Literals, UntakenByte<LineNumber, AnswerKind>>
    ensures { (lits : List ℕ) → HasThe lits literals
        → Ends (at_end spot.line (step lits spot 10)) result }
{
    let last = take(&mut literals, spot, b'\n')?;
    if !last.listed {
        return Err(wrong(spot, AnswerKind::Unfinished));
    }
    if last.marked && !last.told {
        return Err(wrong(spot, AnswerKind::NoStatus));
    }
    Ok(literals)
}

/// Returns a fault on the present line.
fn wrong(spot: Spot, kind: AnswerKind) -> UntakenByte<LineNumber, AnswerKind>
    ensures { result ≡ UntakenByte.Wrong (record { 0 = spot.line }) kind }
{
    UntakenByte::Wrong {
        at: LineNumber(spot.line),
        kind,
    }
}
