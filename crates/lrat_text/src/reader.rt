//! Lines from a reader's bytes.
ghost use Rattle.std.specs.Prelude.{◌≡◌, ◌-◌, ◌^◌, ◌<◌, Ok, None, true, false, IsOk};
ghost use Rattle.std.specs.Io.BufRead.{Rests};
ghost use types.Logic.{sem};

use crate::fault::{LineKind, LratTextFault};
use crate::line::LratLine;
use crate::lines::Lines;
use crate::row::{Head, Row};
use sat_formula::read_fault::LineNumber;
use sat_formula::stop::Stop;
use std::alloc::Global;
use std::io::Read;

/// A reader of the lines of an LRAT proof, one after the other.
///
/// A line is `id lits 0 hints 0` or `id d ids 0`, in decimal numbers between blanks: space, tab and
/// CR. Lines end at LF, which the last one may lack. Lines that begin with `c` and lines of blanks
/// are passed over. Ids go from 1 to 2^64 - 1, but the one before a `d` may be 0 and says nothing;
/// variables go up to `Var::MAX_COUNT`.
///
/// It keeps the bytes read ahead and one line. Of a text it takes at most `u64::MAX - 1` bytes, so
/// that its lines can be counted; where it would take more, it is as if a read had failed.
#[derive(Drop)]
pub struct LineReader<R> {
    lines: Lines<R>,
    row: Row,
    number: u64,
    ended: bool,
}

impl<R: Read> LineReader<R> {
    ghost use Rattle.sat_formula.specs.Outcome.{next_line};
    ghost use Rattle.sat_formula.specs.Source.{IsStopped};
    ghost use Rattle.lrat_text.specs.Faults.{line_fault};
    ghost use Rattle.lrat_text.specs.NextLine.{bytes_left, room_left, has_ended, line_number, work_left, view, Gives, Answers, Counts, CountsLine, JudgesLine, Explains};
    ghost use Rattle.lrat_text.specs.Reading.{line_of};
    ghost use Rattle.lrat_text.specs.contracts.reader.LineReader.{the_row};

    /// Returns a reader at the start of a text. It takes no memory and reads nothing yet.
    pub fn new(alloc: Global, inner: R) -> LineReader<R>
        ensures bytes { bytes_left R.remaining result ≡ R.remaining inner }
        ensures room { room_left result ≡ 2 ^ 64 - 2 }
        ensures line { line_number result ≡ 0 }
        ensures ended { has_ended result ≡ false }
    {
        LineReader {
            lines: Lines::new(alloc, inner),
            row: Row::new(alloc),
            number: 0,
            ended: false,
        }
    }

    /// Returns the number of the line that was given last, or in which the text ended or had its
    /// fault; lines count from 1. It is 0 before the first, and stays at `u64::MAX`.
    pub fn line(&self) -> u64
        ensures { result ≡ line_number self.now }
    {
        self.number
    }

    /// Reads the next line and returns it, or `None` at the end of the text. Its lists are in the
    /// reader and are valid until the next call.
    ///
    /// # Errors
    ///
    /// `Wrong` for a line that is malformed, `Read` if a read failed, which is not retried, or
    /// `OutOfMemory`. A line that was cut by a failed read is not judged. After the end or an error
    /// every call returns `Ok(None)` and reads nothing more.
    pub fn next_line(&mut self) -> Result<Option<LratLine<'_>>, LratTextFault>
        ensures after_end { has_ended self.old ≡ true → result ≡ Ok None }
        ensures* after_borrow { sem 𝓛 (Rests (the_row R.row) self.entry
            (λ new. Gives R.remaining self.old new result)) }
    {
        match self.begin()? {
            Some(head) => Ok(Some(self.row.shown(head))),
            None => Ok(None),
        }
    }

    /// Reads to the end of a line that says something, or ends.
    fn begin(&mut self) -> Result<Option<Head>, LratTextFault>
        ensures reads { has_ended self.old ≡ false
            → Answers R.remaining (line_of self.new.row) self.old self.new result }
        ensures counts { has_ended self.old ≡ false → Counts self.old self.new result }
        ensures stays { has_ended self.old ≡ true → (result ≡ Ok None) × (self.new ≡ self.old) }
    {
        'lines: while !self.ended {
            match self.one_line() {
                Ok(None) => {}
                Ok(Some(head)) => return Ok(Some(head)),
                Err(stop) => return Err(self.stopped(stop)),
            }
        }
        Ok(None)
    }

    /// Reads one line.
    fn one_line(&mut self) -> Result<Option<Head>, Stop<LineKind>>
        ensures judged { JudgesLine R.remaining self.old self.new result }
        ensures counts { CountsLine self.old self.new result }
        ensures nearer { has_ended self.old ≡ false → IsOk result
            → work_left self.new < work_left self.old }
    {
        let Some(line) = self.lines.whole_ahead() else {
            return self.held_line();
        };
        let said = self.row.read(line, LineKind::Malformed);
        let len = line.len();
        self.lines.take_line(len);
        self.end_line(false);
        said
    }

    /// Reads a line that was not read ahead whole.
    fn held_line(&mut self) -> Result<Option<Head>, Stop<LineKind>>
        ensures judged { JudgesLine R.remaining self.old self.new result }
        ensures counts { CountsLine self.old self.new result }
        ensures nearer { has_ended self.old ≡ false → IsOk result
            → work_left self.new < work_left self.old }
    {
        let whole = self.lines.hold()?;
        self.end_line(!whole);
        let short = if whole {
            LineKind::Malformed
        } else {
            LineKind::Unfinished
        };
        self.lines.end_held()?;
        self.row.read(self.lines.held(), short)
    }

    /// A line was taken, with which the text ended or not.
    fn end_line(&mut self, ended: bool)
        ensures { self.new ≡ record self.old {
          number = next_line self.old.number;
          ended = ended;
        } }
    {
        self.number = self.number.saturating_add(1);
        self.ended = ended;
    }

    /// Ends, and returns the fault of a stop.
    fn stopped(&mut self, stop: Stop<LineKind>) -> LratTextFault
        requires { stop ≡ Stop.Read → IsStopped self.old.lines.source }
        ensures fault { Explains self.old.lines.source self.old.number stop result }
        ensures new { self.new ≡ record self.old { ended = true } }
    {
        self.ended = true;
        match stop {
            Stop::End => self.faulty(LineKind::Unfinished),
            Stop::Read => LratTextFault::Read(self.lines.error()),
            Stop::Wrong(kind) => self.faulty(kind),
            Stop::OutOfMemory => LratTextFault::OutOfMemory,
        }
    }

    fn faulty(&self, kind: LineKind) -> LratTextFault
        ensures { result ≡ line_fault self.now.number kind }
    {
        LratTextFault::Wrong {
            at: LineNumber(self.number),
            kind,
        }
    }
}
