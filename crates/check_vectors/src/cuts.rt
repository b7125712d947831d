//! Readers that give few bytes a read, or fail.
use std::io;
use std::io::{ErrorKind, Read};

/// How a text is read.
#[derive(Clone, Copy, Debug)]
pub struct Reads {
    /// How many bytes a read returns.
    pub size: usize,
    /// The number of the read that fails, from 1 on; 0 if none does.
    pub failing: u32,
    /// The kind of its fault.
    pub kind: ErrorKind,
}

/// A text that is read so.
#[derive(Clone, Copy, Debug)]
pub struct Cuts<'a> {
    rest: &'a [u8],
    reads: Reads,
}

impl Cuts<'_> {
    /// Returns a reader of a text that is read so.
    pub fn new(text: &[u8], reads: Reads) -> Cuts<'_> {
        Cuts { rest: text, reads }
    }
}

impl Read for Cuts<'_> {
    fn read(&mut self, buf: &mut [u8]) -> io::Result<usize> {
        if self.reads.failing == 1 {
            self.reads.failing = 0;
            return Err(io::Error::from(self.reads.kind));
        }
        self.reads.failing = self.reads.failing.saturating_sub(1);
        let count = self.reads.size.min(buf.len()).min(self.rest.len());
        buf[..count].copy_from_slice(&self.rest[..count]);
        self.rest = &self.rest[count..];
        Ok(count)
    }
}
