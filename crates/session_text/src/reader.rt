//! Lines from a reader's bytes.
ghost use Rattle.std.specs.Prelude.{◌≡◌, ◌-◌, ◌^◌, ◌≤◌};
ghost use Rattle.session_text.specs.Content.{content_of, with_lits};
ghost use Rattle.session_text.specs.automaton.Reading.{Ends, IsTaken};
ghost use Rattle.session_text.specs.automaton.Texts.{ending_at, step};

use crate::fault::{SessionTextFault, TextKind};
use crate::format::Format;
use crate::line::{LineKind, Lists};
use crate::spot::{After, Spot};
use drat_text::bytes::Bytes;
use sat_formula::read_fault::{LineNumber, UntakenByte};
use sat_formula::stop::Stop;
use std::alloc::Global;
use std::io::Read;
use std::mem::swap;

/// A reader of the lines of a session's text, one after the other.
///
/// The first line is `p icnf`, or `p lidrup`, which a proof may lack. The others are `s` and a
/// status, `U` and a number, or a letter and lists of numbers between blanks (space, tab and CR),
/// each up to a 0. In LIDRUP: `i ID LITS 0`, `l ID LITS 0 HINTS 0`, `d IDS 0`, `w IDS 0`,
/// `r IDS 0`, `q LITS 0`, `m LITS 0`, `u LITS 0 HINTS 0`, `e LITS 0`. In ICNF: `i`, `q`, `v`, `m`,
/// `f` or `u`, each with `LITS 0`. Each line ends with an LF. Lines of blanks and those that begin
/// with `c`, which need none, are passed over. Ids, and the numbers of `U`, go from 1 to 2^60 - 1,
/// variables up to `Var::MAX_COUNT`.
///
/// LIDRUP may be binary behind its header: then a line is its letter and lists of numbers as in
/// binary DRAT, where ids, hints and the number of `U` are encoded as themselves, or an `s` with
/// its status. The proof is text if a space follows the letter of its first line.
///
/// It keeps the bytes read ahead and one line. Of a text it takes at most `u64::MAX` bytes; where
/// it would take more, it is as if a read had failed.
#[derive(Drop)]
pub struct SessionReader<R> {
    bytes: Bytes<R>,
    lists: Lists,
    spot: Spot,
}

impl<R: Read> SessionReader<R> {
    ghost use Rattle.session_text.specs.NextLine.{Answers, bytes_left, content_read, line_number, room_left, spot_of};
    ghost use Rattle.session_text.specs.automaton.Places.{start};

    /// Returns a reader at the start of a text. It takes no memory and reads nothing yet.
    pub fn new(alloc: Global, inner: R, format: Format) -> SessionReader<R>
        ensures bytes { bytes_left R.remaining result ≡ R.remaining inner }
        ensures room { room_left result ≡ 2 ^ 64 - 1 }
        ensures spot { spot_of result ≡ start format }
    {
        SessionReader {
            bytes: Bytes::new(alloc, inner),
            lists: Lists::new(alloc),
            spot: Spot::start(format),
        }
    }

    /// Returns the number of the line that was read last; lines count from 1.
    pub fn line(&self) -> u64
        ensures { result ≡ line_number self.now }
    {
        self.spot.line.saturating_sub(1)
    }

    /// Returns what stands in the line that was read last.
    pub fn lists(&self) -> &Lists
        ensures { content_of result.now ≡ content_read self.now }
    {
        &self.lists
    }

    /// Exchanges the literals of the line that was read last and those of another text's line.
    pub fn swap_lits<Q: Read>(&mut self, other: &mut SessionReader<Q>)
        ensures content { content_read self.new ≡ with_lits (content_read self.old)
            (content_read other.old).lits }
        ensures bytes { bytes_left R.remaining self.new ≡ bytes_left R.remaining self.old }
        ensures room { room_left self.new ≡ room_left self.old }
        ensures spot { spot_of self.new ≡ spot_of self.old }
        ensures other_bytes { bytes_left Q.remaining other.new ≡ bytes_left Q.remaining other.old }
        ensures other_room { room_left other.new ≡ room_left other.old }
        ensures other_spot { spot_of other.new ≡ spot_of other.old }
    {
        swap(&mut self.lists.lits, &mut other.lists.lits);
    }

    /// Exchanges all that stands in the line that was read last and in another text's line.
    pub fn swap_lists<Q: Read>(&mut self, other: &mut SessionReader<Q>)
        ensures content { content_read self.new ≡ content_read other.old }
        ensures bytes { bytes_left R.remaining self.new ≡ bytes_left R.remaining self.old }
        ensures room { room_left self.new ≡ room_left self.old }
        ensures spot { spot_of self.new ≡ spot_of self.old }
        ensures other_bytes { bytes_left Q.remaining other.new ≡ bytes_left Q.remaining other.old }
        ensures other_room { room_left other.new ≡ room_left other.old }
        ensures other_spot { spot_of other.new ≡ spot_of other.old }
    {
        swap(&mut self.lists, &mut other.lists);
    }

    /// Reads the next line and returns its kind, or `None` at the end of the text. What stands in
    /// the line is in `lists`.
    ///
    /// # Errors
    ///
    /// `Wrong` for the first fault of the text, `Read` if a read failed, or `OutOfMemory`. After an
    /// error the reader is of no use.
    pub fn next_line(&mut self) -> Result<Option<LineKind>, SessionTextFault>
        ensures reads { Answers R.remaining self.old self.new result }
        ensures room { room_left self.new ≤ room_left self.old }
    {
        self.lists.clear();
        'bytes: loop {
            match self.bytes.next_byte() {
                Ok(byte) => {
                    if let Some(kind) = take(&mut self.lists, &mut self.spot, byte)? {
                        return Ok(Some(kind));
                    }
                }
                Err(Stop::End) => return end(self.spot),
                Err(Stop::Read) => return Err(SessionTextFault::Read(self.bytes.error())),
                Err(_) => return Err(SessionTextFault::OutOfMemory),
            }
        }
    }
}

/// Takes a byte. Returns the kind of the line that it ends, if it ends one.
#[inline(always)]
fn take(
    lists: &mut Lists,
    spot: &mut Spot,
    byte: u8,
) -> Result<Option<LineKind>, UntakenByte<LineNumber, TextKind>>
    ensures { IsTaken (step (content_of lists.old) spot.old byte) (content_of lists.new) spot.new
        result }
{
    match spot.after(byte) {
        After::Goes(next) => {
            *spot = next;
            Ok(None)
        }
        After::Gives(item, next) => {
            lists.add(item)?;
            *spot = next;
            Ok(None)
        }
        After::Ends(kind, next) => {
            *spot = next;
            Ok(Some(kind))
        }
        After::Stops(kind) => Err(UntakenByte::Wrong {
            at: LineNumber(spot.line),
            kind,
        }),
    }
}

/// Ends the text.
fn end(spot: Spot) -> Result<Option<LineKind>, SessionTextFault>
    ensures { Ends (ending_at spot) result }
{
    match spot.at_end() {
        None => Ok(None),
        Some(kind) => Err(SessionTextFault::Wrong {
            at: LineNumber(spot.line),
            kind,
        }),
    }
}
