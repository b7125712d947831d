//! Readers that return few bytes a read.
use std::io;
use std::io::Read;

/// A reader of this many bytes a read.
#[derive(Clone, Copy, Debug)]
pub struct Pieces<'a> {
    rest: &'a [u8],
    size: usize,
}

impl Pieces<'_> {
    /// Returns a reader of this many bytes a read.
    pub fn of_size(bytes: &[u8], size: usize) -> Pieces<'_> {
        Pieces { rest: bytes, size }
    }
}

impl Read for Pieces<'_> {
    fn read(&mut self, buf: &mut [u8]) -> io::Result<usize> {
        let count = self.size.min(buf.len()).min(self.rest.len());
        buf[..count].copy_from_slice(&self.rest[..count]);
        self.rest = &self.rest[count..];
        Ok(count)
    }
}
