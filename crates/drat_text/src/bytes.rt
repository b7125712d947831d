//! The bytes of a proof, the first of which show whether it is text.
ghost use Rattle.std.specs.Prelude.{◌≡◌, ◌<◌, ◌≤◌, ◌+◌, ◌-◌, ◌^◌, [], IfOk, IsSome, IsTrue, length, take, vec_len};
ghost use Rattle.std.specs.Io.KnownBytes.{Consumes};
ghost use Rattle.sat_formula.specs.Source.{is_limited};

use crate::fault::DratKind;
use crate::number::is_text_byte;
use sat_formula::source::{NoByte, Source};
use sat_formula::stop::Stop;
use std::alloc::Global;
use std::io;
use std::io::Read;

/// This many bytes are looked at before a proof counts as text.
pub const LOOKED_AT: usize = 4096;

/// How steps are written: as text or binary.
#[derive(Clone, Copy, Debug, PartialEq, Eq)]
pub enum Format {
    Text,
    Binary,
}

/// A source, and in front of it the bytes that were looked at and not taken yet.
#[derive(Drop)]
pub struct Bytes<R> {
    source: Source<R>,
    front: Vec<u8>,
    taken: usize,
    ghost limited: { IsTrue (is_limited source) },
    ghost within: { taken ≤ vec_len front },
}

impl<R: Read> Bytes<R> {
    ghost use Rattle.sat_formula.specs.Source.{IsStopped, IsErrorOf};
    ghost use Rattle.drat_text.specs.Bytes.{by_text_bytes};
    ghost use Rattle.drat_text.specs.Taking.{ahead_in, front_of, unread_bytes, room_in, Takes, TakesWithin, Looks, Peeks};

    /// Returns all bytes of a reader, up to `u64::MAX` of them. Reads nothing yet.
    pub fn new(alloc: Global, inner: R) -> Bytes<R>
        ensures bytes { unread_bytes R.remaining result ≡ R.remaining inner }
        ensures front { result.front.items ≡ [] }
        ensures room { room_in result ≡ 2 ^ 64 - 1 }
    {
        Bytes::limited(alloc, inner, u64::MAX)
    }

    /// Returns all bytes of a reader, up to this many of them. Reads nothing yet.
    pub fn limited(alloc: Global, inner: R, limit: u64) -> Bytes<R>
        ensures bytes { unread_bytes R.remaining result ≡ R.remaining inner }
        ensures front { result.front.items ≡ [] }
        ensures room { room_in result ≡ limit }
    {
        Bytes {
            source: Source::limited(alloc, inner, limit),
            front: Vec::new(alloc),
            taken: 0,
        }
    }

    /// Returns the error of a stop by the source.
    pub fn error(&self) -> io::Error
        requires { IsStopped self.now.source }
        ensures { IsErrorOf self.now.source result }
    {
        self.source.error()
    }

    /// Takes the next byte and returns it.
    ///
    /// # Errors
    ///
    /// Why there is none: the end of the input, a failed read or out of memory.
    #[inline(always)]
    pub fn next_byte(&mut self) -> Result<u8, Stop<DratKind>>
        ensures byte { Takes (unread_bytes R.remaining self.old)
            (unread_bytes R.remaining self.new) self.new.source result }
        ensures nearer { IfOk result (λ _. room_in self.new < room_in self.old) }
        ensures room { room_in self.new ≤ room_in self.old }
    {
        if self.taken < self.front.len() {
            let byte = self.front[self.taken];
            self.taken += 1;
            return Ok(byte);
        }
        match self.source.next_byte() {
            Ok(byte) => Ok(byte),
            Err(reason) => Err(Stop::from(reason)),
        }
    }

    /// Takes the next byte of a step that was begun, and returns it.
    ///
    /// # Errors
    ///
    /// As for `next_byte`, but the end of the input is the fault `Unfinished`.
    #[inline(always)]
    pub fn next_within(&mut self) -> Result<u8, Stop<DratKind>>
        ensures byte { TakesWithin (unread_bytes R.remaining self.old)
            (unread_bytes R.remaining self.new) self.new.source result }
        ensures nearer { IfOk result (λ _. room_in self.new < room_in self.old) }
        ensures room { room_in self.new ≤ room_in self.old }
    {
        match self.next_byte() {
            Err(Stop::End) => Err(Stop::Wrong(DratKind::Unfinished)),
            answer => answer,
        }
    }

    /// Returns the bytes that are read ahead, unless others precede them.
    #[inline(always)]
    pub fn ahead(&self) -> &[u8]
        ensures { result.now ≡ ahead_in self.now }
    {
        if self.taken < self.front.len() {
            return &[];
        }
        self.source.ahead()
    }

    /// Takes this many of the bytes that are read ahead.
    #[inline(always)]
    pub fn take_ahead(&mut self, count: usize)
        requires { count ≤ length (ahead_in self.old) }
        ensures bytes { let taken = take count (ahead_in self.old) in
            Consumes (unread_bytes R.remaining self.old) (unread_bytes R.remaining self.new) taken }
        ensures room { room_in self.old ≡ count + room_in self.new }
    {
        self.source.take_ahead(count);
    }

    /// Returns whether the proof is text or binary, by whether each of the next bytes is one that a
    /// text can have. Takes no byte.
    ///
    /// # Errors
    ///
    /// A failed read or out of memory.
    pub fn look_on(&mut self) -> Result<Format, Stop<DratKind>>
        ensures format { Looks (λ bytes. by_text_bytes (take 4096 bytes))
            (unread_bytes R.remaining self.old) (unread_bytes R.remaining self.new)
            self.new.source result }
        ensures room { room_in self.new ≤ room_in self.old }
    {
        let mut place = 0;
        'bytes: while place < LOOKED_AT {
            let Some(byte) = self.peek(place)? else {
                return Ok(Format::Text);
            };
            if !is_text_byte(byte) {
                return Ok(Format::Binary);
            }
            place += 1;
        }
        Ok(Format::Text)
    }

    /// Returns the byte at a position of those to come, or `None` if the input ends before it.
    /// Takes no byte.
    ///
    /// # Errors
    ///
    /// A failed read or out of memory.
    pub fn peek(&mut self, place: usize) -> Result<Option<u8>, Stop<DratKind>>
        requires { place ≤ length (front_of self.old) }
        ensures peek { Peeks (unread_bytes R.remaining self.old)
            (unread_bytes R.remaining self.new) place self.new.source result }
        ensures front { IfOk result (λ byte. IsSome byte → place < length (front_of self.new)) }
        ensures room { room_in self.new ≤ room_in self.old }
    {
        if place < self.front.len() - self.taken {
            return Ok(Some(self.front[self.taken + place]));
        }
        self.pull()
    }

    /// Returns the next byte of the source, if there is one. It is in front from then on, as the
    /// last.
    fn pull(&mut self) -> Result<Option<u8>, Stop<DratKind>>
        ensures peek { Peeks (unread_bytes R.remaining self.old)
            (unread_bytes R.remaining self.new) (length (front_of self.old)) self.new.source
            result }
        ensures front { IfOk result (λ byte. IsSome byte
            → length (front_of self.old) < length (front_of self.new)) }
        ensures room { room_in self.new ≤ room_in self.old }
    {
        match self.source.next_byte() {
            Ok(byte) => {
                self.front.push(byte)?;
                Ok(Some(byte))
            }
            Err(NoByte::End) => Ok(None),
            Err(reason) => Err(Stop::from(reason)),
        }
    }
}
