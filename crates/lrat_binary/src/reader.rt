//! Binary lines from a reader's bytes.
ghost use Rattle.std.specs.Prelude.{◌≡◌, ◌-◌, ◌^◌, Ok, None, true, false};
ghost use Rattle.std.specs.Io.BufRead.{Rests};
ghost use types.Logic.{sem};

use crate::binary::read_line;
use crate::draft::Draft;
use crate::fault::line_kind;
use crate::ids::Ids;
use drat_text::DratKind;
use drat_text::bytes::Bytes;
use lrat_text::row::Head;
use lrat_text::{LratLine, LratTextFault};
use sat_formula::read_fault::LineNumber;
use sat_formula::stop::Stop;
use std::alloc::Global;
use std::io::Read;

/// The most bytes of a proof that are read, so that its lines can be counted.
const MOST_BYTES: u64 = u64::MAX - 1;

/// A reader of the lines of a binary LRAT proof, one after the other.
///
/// A line is `a`, an id, literals up to 0 and hints up to 0; or `d` and ids up to 0. Numbers are
/// encoded with seven bits a byte, the low ones first, at most nine bytes each. A literal is
/// encoded as twice its variable, and 1 more if it is negative; a hint likewise as twice its id;
/// other ids as `Ids` says. Ids go from 1 up, and variables to `Var::MAX_COUNT`. Lines count from
/// 1.
///
/// It keeps the bytes read ahead and one line. It reads at most `u64::MAX - 1` bytes of a proof, so
/// that its lines can be counted; a longer proof ends as by a failed read.
#[derive(Drop)]
pub struct BinaryReader<R> {
    bytes: Bytes<R>,
    draft: Draft,
    ids: Ids,
    number: u64,
    ended: bool,
}

impl<R: Read> BinaryReader<R> {
    ghost use Rattle.sat_formula.specs.Source.{IsStopped};
    ghost use Rattle.drat_text.specs.Taking.{source_of};
    ghost use Rattle.lrat_binary.specs.Drafts.{line_of};
    ghost use Rattle.lrat_binary.specs.NextLine.{bytes_left, room_left, has_ended, ids_of, line_number, Gives, Answers, Numbers, Explains};
    ghost use Rattle.lrat_binary.specs.contracts.reader.BinaryReader.{the_row};

    /// Returns a reader at the start of a proof. Allocates and reads nothing.
    pub fn new(alloc: Global, input: R, ids: Ids) -> BinaryReader<R>
        ensures bytes { bytes_left R.remaining result ≡ R.remaining input }
        ensures room { room_left result ≡ 2 ^ 64 - 2 }
        ensures ids { ids_of result ≡ ids }
        ensures line { line_number result ≡ 0 }
        ensures ended { has_ended result ≡ false }
    {
        BinaryReader {
            bytes: Bytes::limited(alloc, input, MOST_BYTES),
            draft: Draft::new(alloc),
            ids,
            number: 0,
            ended: false,
        }
    }

    /// Returns the encoding of ids in the lines.
    pub fn ids(&self) -> Ids
        ensures { result ≡ ids_of self.now }
    {
        self.ids
    }

    /// Returns the number of the line that was returned last, or that had the proof's fault; lines
    /// count from 1. It is 0 before the first, and saturates at `u64::MAX`.
    pub fn line(&self) -> u64
        ensures { result ≡ line_number self.now }
    {
        self.number
    }

    /// Returns the next line, or `None` at the end of the proof. The line borrows lists of the
    /// reader.
    ///
    /// # Errors
    ///
    /// The first fault of the proof, a failed read, which is not retried, or `OutOfMemory`. A line
    /// that was cut by a failed read is not judged. After the end or an error every call returns
    /// `None`, and nothing more is read.
    pub fn next_line(&mut self) -> Result<Option<LratLine<'_>>, LratTextFault>
        ensures after_end { has_ended self.old ≡ true → result ≡ Ok None }
        ensures* after_borrow { sem 𝓛 (Rests (the_row R.row) self.entry
            (λ new. Gives R.remaining self.old new result)) }
    {
        match self.begin()? {
            Some(head) => Ok(Some(self.draft.line(head))),
            None => Ok(None),
        }
    }

    /// Reads a line into the draft, or ends. Returns its head, if there is one.
    fn begin(&mut self) -> Result<Option<Head>, LratTextFault>
        ensures reads { has_ended self.old ≡ false
            → Answers R.remaining (line_of self.new.draft) self.old self.new result }
        ensures numbers { has_ended self.old ≡ false → Numbers self.old self.new result }
        ensures ids { ids_of self.new ≡ ids_of self.old }
        ensures stays { has_ended self.old ≡ true → (result ≡ Ok None) × (self.new ≡ self.old) }
    {
        if self.ended {
            return Ok(None);
        }
        match read_line(&mut self.bytes, self.ids, &mut self.draft) {
            Ok(head) => {
                self.number = self.number.saturating_add(1);
                Ok(Some(head))
            }
            Err(stop) => self.stopped(stop),
        }
    }

    /// Ends the reader, and returns the fault of a stop, or `None` for the end.
    fn stopped(&mut self, stop: Stop<DratKind>) -> Result<Option<Head>, LratTextFault>
        requires { stop ≡ Stop.Read → IsStopped (source_of self.old.bytes) }
        ensures explains { Explains (source_of self.old.bytes) (line_number self.old) stop result }
        ensures bytes { self.new.bytes ≡ self.old.bytes }
        ensures draft { self.new.draft ≡ self.old.draft }
        ensures ids { ids_of self.new ≡ ids_of self.old }
        ensures numbers { Numbers self.old self.new result }
        ensures ended { has_ended self.new ≡ true }
    {
        self.ended = true;
        match stop {
            Stop::End => Ok(None),
            Stop::Read => Err(LratTextFault::Read(self.bytes.error())),
            Stop::Wrong(kind) => {
                self.number = self.number.saturating_add(1);
                Err(LratTextFault::Wrong {
                    at: LineNumber(self.number),
                    kind: line_kind(kind),
                })
            }
            Stop::OutOfMemory => Err(LratTextFault::OutOfMemory),
        }
    }
}
