//! The bytes of a formula, which end where its text can only be wrong.
//!
//! Its reader judges a word at its end, and of a line that never ends no word may have one.
use sat_formula::bytes::{is_blank, is_digit};
use std::io;
use std::io::Read;

/// What the line is at which a read ends.
#[derive(Clone, Copy)]
enum Line {
    /// Nothing but blanks so far.
    Blank,
    /// A comment, or what stands behind the formula: these have any bytes.
    Free,
    Header,
    Numbers,
}

impl Line {
    /// Returns what a line is that begins with these bytes.
    fn of(bytes: &[u8]) -> Line {
        match bytes.iter().find(|byte| !is_blank(**byte)) {
            None => Line::Blank,
            Some(b'c' | b'%') => Line::Free,
            Some(b'p') => Line::Header,
            Some(_) => Line::Numbers,
        }
    }

    /// Returns whether such a line can have the byte.
    fn has(self, byte: u8) -> bool {
        match self {
            Line::Blank | Line::Free => true,
            Line::Header => is_digit(byte) || is_blank(byte) || b"pcnf".contains(&byte),
            Line::Numbers => is_digit(byte) || is_blank(byte) || byte == b'-',
        }
    }
}

/// A reader of a formula. Where a read meets no LF, it ends behind the first byte that its line
/// can't have.
#[derive(Drop)]
pub struct FormulaBytes<F> {
    inner: F,
    line: Line,
    has_ended: bool,
}

impl<F: Read> FormulaBytes<F> {
    /// Returns a reader at the start of a formula. Nothing is read yet.
    pub fn new(inner: F) -> FormulaBytes<F> {
        FormulaBytes {
            inner,
            line: Line::Blank,
            has_ended: false,
        }
    }
}

impl<F: Read> Read for FormulaBytes<F> {
    fn read(&mut self, buf: &mut [u8]) -> io::Result<usize> {
        if self.has_ended {
            return Ok(0);
        }
        let count = self.inner.read(buf)?;
        let bytes = &buf[..count];
        if let Some(place) = bytes.iter().rposition(|byte| *byte == b'\n') {
            self.line = Line::of(&bytes[place..][1..]);
            return Ok(count);
        }
        if let Line::Blank = self.line {
            self.line = Line::of(bytes);
        }
        let line = self.line;
        match bytes.iter().position(|byte| !line.has(*byte)) {
            Some(place) => {
                self.has_ended = true;
                Ok(place + 1)
            }
            None => Ok(count),
        }
    }
}
