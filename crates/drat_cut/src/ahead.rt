//! Bytes that are read ahead.
ghost use Rattle.std.specs.Prelude.{◌≤◌, vec_len};

use drat_text::DratFault;
use std::alloc::{AllocError, Global};
use std::io::{Chain, Cursor, Read};

const CAPACITY: usize = 1 << 15;

/// More bytes are not held at once.
const MOST: usize = 1 << 20;

/// A reader, and the bytes that are read ahead of it.
#[derive(Drop)]
pub(crate) struct Ahead<R> {
    inner: R,
    buffer: Vec<u8>,
    start: usize,
    end: usize,
    ghost ordered: { start ≤ end },
    ghost in_bounds: { end ≤ vec_len buffer },
}

impl<R: Read + Drop> Ahead<R> {
    /// Returns a reader ahead of which nothing is read yet.
    pub(crate) fn new(alloc: Global, inner: R) -> Ahead<R> {
        Ahead {
            inner,
            buffer: Vec::new(alloc),
            start: 0,
            end: 0,
        }
    }

    /// Returns the bytes that are read ahead.
    #[inline(always)]
    pub(crate) fn bytes(&self) -> &[u8] {
        &self.buffer.as_slice()[self.start..self.end]
    }

    /// Takes this many of them, or all.
    #[inline(always)]
    pub(crate) fn take(&mut self, count: usize) {
        self.start += count.min(self.end - self.start);
    }

    /// Reads once. Returns whether more bytes are ahead: not at the end, and not where too many are
    /// ahead already.
    pub(crate) fn more(&mut self) -> Result<bool, DratFault> {
        if self.make_room().is_err() {
            return Err(DratFault::OutOfMemory);
        }
        let end = self.end;
        match self.inner.read(&mut self.buffer.as_mut_slice()[end..]) {
            Ok(count) => {
                self.end = end.saturating_add(count).min(self.buffer.len());
                Ok(count > 0)
            }
            Err(fault) => Err(DratFault::Read(fault)),
        }
    }

    /// Moves the bytes to the front of the buffer, which grows where it is full.
    fn make_room(&mut self) -> Result<(), AllocError> {
        let count = self.end - self.start;
        self.buffer.copy_within(self.start..self.end, 0);
        self.start = 0;
        self.end = count;
        let size = self.buffer.len();
        if count == size && size < MOST {
            self.buffer.resize(size.saturating_mul(2).max(CAPACITY), 0)?;
        }
        Ok(())
    }

    /// Returns a reader of these bytes, then of those ahead and of all that follow.
    pub(crate) fn behind(self, alloc: Global, first: &[u8]) -> Result<Rest<R>, AllocError> {
        let mut bytes = Vec::from_slice(alloc, first)?;
        bytes.extend_from_slice(self.bytes())?;
        Ok(Cursor::new(bytes).chain(self.inner))
    }
}

/// The rest of what is read, the bytes ahead first.
pub(crate) type Rest<R> = Chain<Cursor<Vec<u8>>, R>;
