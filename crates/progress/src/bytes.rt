//! A reader that reports how many bytes it has returned.
ghost use Rattle.std.specs.Prelude.{◌≡◌};
ghost use Rattle.std.specs.Io.{ReadsAtMost};
ghost use Rattle.std.specs.Io.KnownBytes.{ReadConsumes};

use crate::told::Progress;
use log::{Log, info};
use std::fmt::{Display, Formatter};
use std::io::{Eprint, Read};
use std::rt::Clock;
use std::{fmt, io};

/// A read takes no more bytes than this, so that progress is reported often, even if each byte
/// takes long.
const MOST_A_READ: usize = 4096;

/// A reader of a proof, which returns its bytes as they are and reports how many it has returned.
/// Once it is dropped, a line that is overwritten in place is cleared.
pub struct ToldBytes<'a, R, H: Eprint + Clock> {
    inner: R,
    progress: &'a Progress<H>,
    is_heard: bool,
    given: u64,
    /// How many there are, if that is known.
    all: Option<u64>,
}

impl<'a, R: Read, H: Eprint + Clock> ToldBytes<'a, R, H> {
    ghost use Rattle.progress.specs.Bytes.{unread_of};

    /// Returns a reader at the start of a proof, of this many bytes if that is known. Nothing is
    /// read yet.
    pub fn new(progress: &'a Progress<H>, inner: R, all: Option<u64>) -> ToldBytes<'a, R, H>
        ensures { unread_of R.remaining result ≡ R.remaining inner }
    {
        ToldBytes {
            inner,
            progress,
            is_heard: progress.is_heard(),
            given: 0,
            all,
        }
    }
}

impl<R: Read, H: Eprint + Clock> Read for ToldBytes<'_, R, H> {
    ghost use Rattle.progress.specs.Bytes.{unread_of};

    ghost remaining = { unread_of R.remaining };

    fn read(&mut self, buf: &mut [u8]) -> io::Result<usize> {
        if !self.is_heard {
            return self.inner.read(buf);
        }
        let count = read_some(&mut self.inner, buf)?;
        self.given = self.given.saturating_add(count as u64);
        let (given, all) = (self.given, self.all);
        info!(*self.progress; "{}", BytesRead { given, all });
        Ok(count)
    }
}

/// Reads into the first bytes of a buffer alone.
fn read_some<R: Read>(inner: &mut R, buf: &mut [u8]) -> io::Result<usize>
    ensures bound { ReadsAtMost result buf.new }
    ensures bytes { ReadConsumes (R.remaining inner.old) (R.remaining inner.new) result buf.new }
{
    let most = buf.len().min(MOST_A_READ);
    inner.read(&mut buf[..most])
}

impl<R: Drop, H: Eprint + Clock> Drop for ToldBytes<'_, R, H> {
    fn drop(self) {
        let ToldBytes {
            inner: _,
            progress,
            is_heard: _,
            given: _,
            all: _,
        } = self;
        progress.flush();
    }
}

/// How many bytes of a proof were read, and of how many, if that is known.
#[derive(Clone, Copy)]
struct BytesRead {
    given: u64,
    all: Option<u64>,
}

impl Display for BytesRead {
    fn fmt<F: fmt::Write>(&self, f: &mut Formatter<F>) -> fmt::Result {
        let given = Megabytes(self.given);
        match self.all {
            Some(all) => {
                let hundredths = (self.given.saturating_mul(100) / all.max(1)).min(100);
                let all = Megabytes(all);
                write!(f, "proof: {given} of {all} MB read, {hundredths} %")
            }
            None => write!(f, "proof: {given} MB read"),
        }
    }
}

/// Bytes, as millions of them with one digit after the point.
#[derive(Clone, Copy)]
struct Megabytes(u64);

impl Display for Megabytes {
    fn fmt<F: fmt::Write>(&self, f: &mut Formatter<F>) -> fmt::Result {
        let (whole, tenths) = (self.0 / 1_000_000, self.0 / 100_000 % 10);
        write!(f, "{whole}.{tenths}")
    }
}
