//! The first bytes of a proof, from which its form is detected.
ghost use Rattle.std.specs.Prelude.{◌≡◌, ◌≤◌, vec_len};
ghost use Rattle.std.specs.Io.{ReadsAtMost};
ghost use Rattle.std.specs.Io.KnownBytes.{ReadConsumes, prepend_known};

use std::io;
use std::io::Read;

/// A reader whose first bytes were read ahead.
#[derive(Drop)]
pub struct FirstBytes<R> {
    first: Vec<u8>,
    /// How many of them were returned.
    given: usize,
    inner: R,
    ghost within: { given ≤ vec_len first },
}

impl<R: Read> FirstBytes<R> {
    ghost use Rattle.lrat_binary.specs.First.{bytes_in};

    /// Returns a reader of these bytes, and then of those of `inner`.
    pub(crate) fn new(first: Vec<u8>, inner: R) -> FirstBytes<R>
        ensures { bytes_in R.remaining result ≡ prepend_known first.items (R.remaining inner) }
    {
        FirstBytes {
            first,
            given: 0,
            inner,
        }
    }
}

impl<R: Read> Read for FirstBytes<R> {
    ghost use Rattle.lrat_binary.specs.First.{bytes_in};

    ghost remaining = { bytes_in R.remaining };

    fn read(&mut self, buf: &mut [u8]) -> io::Result<usize>
        ensures bound { ReadsAtMost result buf.new }
        ensures bytes { ReadConsumes (bytes_in R.remaining self.old)
            (bytes_in R.remaining self.new) result buf.new }
    {
        let left = self.first.len() - self.given;
        if left == 0 {
            return self.inner.read(buf);
        }
        let mut rest = &self.first.as_slice()[self.given..];
        let count = rest.read(buf)?;
        self.given += count;
        Ok(count)
    }
}
