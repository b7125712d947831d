//! The lines of a text, one after the other.
ghost use Rattle.std.specs.Prelude.{◌≡◌, ◌<◌, ◌≤◌, ◌+◌, ◌-◌, ◌^◌, ◌++◌, ◌∷◌, [], Ok, IfErr, IfSome, OnOk, true, IsTrue, length, take};
ghost use Rattle.std.specs.Io.KnownBytes.{Consumes};
ghost use Rattle.sat_formula.specs.Source.{is_limited};
ghost use Rattle.lrat_text.specs.Bytes.{IsLine};

use crate::fault::LineKind;
use memchr::memchr;
use sat_formula::source::{NoByte, Source};
use sat_formula::stop::Stop;
use std::alloc::Global;
use std::io;
use std::io::Read;

/// How many bytes of a text are taken at most, so that its lines can be counted.
const MOST_BYTES: u64 = u64::MAX - 1;

/// A text with the last line that was taken.
#[derive(Drop)]
pub(crate) struct Lines<R> {
    source: Source<R>,
    held: Vec<u8>,
    ghost limited: { IsTrue (is_limited source) },
}

impl<R: Read> Lines<R> {
    ghost use Rattle.sat_formula.specs.Source.{ahead_of, IsStopped, IsErrorOf};
    ghost use Rattle.lrat_text.specs.Holding.{unread_lines, room_in, HoldsLine};

    /// Returns the lines of a reader. Reads nothing yet.
    pub(crate) fn new(alloc: Global, inner: R) -> Lines<R>
        ensures bytes { unread_lines R.remaining result ≡ R.remaining inner }
        ensures room { room_in result ≡ 2 ^ 64 - 2 }
    {
        Lines {
            source: Source::limited(alloc, inner, MOST_BYTES),
            held: Vec::new(alloc),
        }
    }

    /// Returns the error of a stop by the source.
    pub(crate) fn error(&self) -> io::Error
        requires { IsStopped self.now.source }
        ensures { IsErrorOf self.now.source result }
    {
        self.source.error()
    }

    /// Returns the last line that was taken.
    pub(crate) fn held(&self) -> &[u8]
        ensures { result.now ≡ self.now.held.items }
    {
        &self.held
    }

    /// Returns the next line with its LF, if all of it was read ahead.
    pub(crate) fn whole_ahead(&self) -> Option<&[u8]>
        ensures line { IfSome result (λ line. IsLine line.now) }
        ensures ahead { IfSome result (λ line.
            take (length line.now) (ahead_of self.now.source) ≡ line.now) }
        ensures len { IfSome result (λ line. length line.now ≤ length (ahead_of self.now.source)) }
    {
        let ahead = self.source.ahead();
        let len = memchr(b'\n', ahead)?;
        Some(&ahead[..len + 1])
    }

    /// Takes a line of this length, which was read ahead.
    pub(crate) fn take_line(&mut self, len: usize)
        requires some { 0 < len }
        requires ahead { len ≤ length (ahead_of self.old.source) }
        ensures bytes { let taken = take len (ahead_of self.old.source) in
            let old = unread_lines R.remaining self.old in
            Consumes old (unread_lines R.remaining self.new) taken }
        ensures nearer { room_in self.new < room_in self.old }
    {
        self.source.take_ahead(len);
    }

    /// Takes the next line, keeps it without its LF, and returns whether an LF ended it.
    pub(crate) fn hold(&mut self) -> Result<bool, Stop<LineKind>>
        ensures line { let old = unread_lines R.remaining self.old in
            let new = unread_lines R.remaining self.new in
            HoldsLine old new self.new.source self.new.held.items result }
        ensures room { room_in self.new ≤ room_in self.old }
        ensures taken { OnOk result
            (room_in self.new + length self.new.held.items ≤ room_in self.old) }
        ensures nearer { result ≡ Ok true → room_in self.new < room_in self.old }
    {
        self.held.clear();
        'bytes: loop {
            match self.source.next_byte() {
                Ok(b'\n') => return Ok(true),
                Ok(byte) => self.held.push(byte)?,
                Err(NoByte::End) => return Ok(false),
                Err(NoByte::Read) => return Err(Stop::Read),
                Err(NoByte::OutOfMemory) => return Err(Stop::OutOfMemory),
            }
        }
    }

    /// Appends an LF to the last line that was taken, whether it had one or not.
    pub(crate) fn end_held(&mut self) -> Result<(), Stop<LineKind>>
        ensures source { self.new.source ≡ self.old.source }
        ensures ok { OnOk result (self.new.held.items ≡ self.old.held.items ++ 10 ∷ []) }
        ensures err { IfErr result (λ stop. stop ≡ Stop.OutOfMemory) }
    {
        self.held.push(b'\n')?;
        Ok(())
    }
}
