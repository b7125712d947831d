//! Files that are read whole.
ghost use Rattle.std.specs.Prelude.{◌≡◌, ◌≤◌, length, vec_len, IfOk, IfSome, Some};
ghost use Rattle.std.specs.Io.{ReadsAtMost};
ghost use Rattle.std.specs.Io.KnownBytes.{ReadConsumes};

use std::alloc::Global;
use std::io;
use std::io::{ErrorKind, Read};

/// Bytes that were read, to be read again. They are freed once the last one is read.
#[derive(Drop)]
pub struct HeldBytes {
    alloc: Global,
    bytes: Vec<u8>,
    /// How many of them were read again.
    given: usize,
    ghost within: { given ≤ vec_len bytes },
}

impl HeldBytes {
    ghost use Rattle.command.specs.Held.{held_in};

    /// Returns all bytes of a reader. Memory is reserved for `expected` bytes.
    ///
    /// # Errors
    ///
    /// `FileTooLarge` if there are more than `most`, `OutOfMemory` if there is no memory for them,
    /// or the error of a read.
    pub fn of_reader<R: Read + Drop>(
        alloc: Global,
        from: R,
        expected: usize,
        most: u64,
    ) -> io::Result<HeldBytes>
        ensures bytes { IfOk result (λ held. IfSome (R.remaining from)
            (λ bytes. held_in held ≡ bytes)) }
        ensures most { IfOk result (λ held. length (held_in held) ≤ most) }
    {
        let mut bytes = Vec::new(alloc);
        if bytes.reserve_exact(expected).is_err() {
            return Err(io::Error::from(ErrorKind::OutOfMemory));
        }
        // One byte more, so that a longer input is noticed.
        from.take(most.saturating_add(1)).read_to_end(&mut bytes)?;
        if bytes.len() as u64 > most {
            return Err(io::Error::from(ErrorKind::FileTooLarge));
        }
        Ok(HeldBytes {
            alloc,
            bytes,
            given: 0,
        })
    }
}

impl Read for HeldBytes {
    ghost use Rattle.std.specs.Prelude.{Some};
    ghost use Rattle.command.specs.Held.{held_in};

    ghost remaining = { λ held. Some (held_in held) };

    fn read(&mut self, buf: &mut [u8]) -> io::Result<usize>
        ensures bound { ReadsAtMost result buf.new }
        ensures bytes { ReadConsumes (Some (held_in self.old)) (Some (held_in self.new)) result
            buf.new }
    {
        let mut rest = &self.bytes.as_slice()[self.given..];
        let count = rest.read(buf)?;
        self.given += count;
        if self.given == self.bytes.len() {
            self.bytes = Vec::new(self.alloc);
            self.given = 0;
        }
        Ok(count)
    }
}
