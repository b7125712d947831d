//! Verdicts that are shown by their lines.
ghost use Rattle.verdicts.specs.Statuses.{ShowsLine};

use crate::status::Claims;
use std::fmt::Display;
use std::io;
use std::io::Write;
use thiserror::Error;

/// A verdict that has a line.
pub trait Shown: Claims {
    ghost use Rattle.std.specs.Prelude.{List, ℕ, OnErr, OnOk};
    ghost use Rattle.std.specs.Io.KnownBytes.{Appends};
    ghost use Rattle.whole_writes.specs.Beginnings.{AppendsBeginning};

    /// The bytes of its line, with the line feed.
    ghost line: { Self → List ℕ };

    /// Writes its line and flushes the writer.
    ///
    /// # Errors
    ///
    /// That of the writer. A prefix of the line is written then: all of it, if only the flush
    /// failed.
    fn write_line<W: Write>(&self, out: &mut W) -> io::Result<()>
        ensures whole { OnOk result
            (Appends (W.contents out.old) (W.contents out.new) (line self.now)) }
        ensures beginning { OnErr result
            (AppendsBeginning (W.contents out.old) (W.contents out.new) (line self.now)) };
}

/// Why no verdict was shown.
#[derive(Debug, Drop, Error)]
#[error_bound(E: Display)]
pub enum Unshown<E> {
    /// There is none.
    #[error("{0}")]
    Fault(E),
    /// It was reached, but its line or a file that goes with it could not be written.
    #[error("error writing: {0}")]
    Write(io::Error),
}

/// Writes the line of the verdict that was reached, if there is one.
///
/// # Errors
///
/// That of the run, with nothing written; or `Write` with the write that failed, after a prefix of
/// the line.
pub fn show_line<V: Shown, E: Drop, W: Write>(
    checked: Result<V, Unshown<E>>,
    out: &mut W,
) -> Result<V, Unshown<E>>
    ensures { ShowsLine V.line checked (W.contents out.old) (W.contents out.new) result }
{
    let verdict = checked?;
    match verdict.write_line(out) {
        Ok(()) => Ok(verdict),
        Err(fault) => Err(Unshown::Write(fault)),
    }
}
