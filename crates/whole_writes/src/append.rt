//! Bytes that are written whole, or up to the first fault.
ghost use Rattle.std.specs.Prelude.{◌≡◌, ◌≢◌, ◌≤◌, length, take, IfErr, IfOk, OnErr, OnOk};
ghost use Rattle.std.specs.IoError.{error_kind};
ghost use Rattle.std.specs.Io.{WritesAtMost};
ghost use Rattle.std.specs.Io.KnownBytes.{Appends, Keeps};
ghost use Rattle.whole_writes.specs.Beginnings.{AppendsBeginning};

use std::io;
use std::io::{ErrorKind, Write};

/// Writes all bytes and flushes the writer.
///
/// # Errors
///
/// That of the writer; `WriteZero` for a writer that takes no byte at a write, and `Other` for one
/// that is always interrupted. A beginning of the bytes is written then: all of them, if only the
/// flush failed.
pub fn write_whole<W: Write>(out: &mut W, bytes: &[u8]) -> io::Result<()>
    ensures whole { OnOk result (Appends (W.contents out.old) (W.contents out.new) bytes.now) }
    ensures beginning { OnErr result
        (AppendsBeginning (W.contents out.old) (W.contents out.new) bytes.now) }
{
    append_whole(out, bytes)?;
    out.flush()
}

/// Writes all bytes. A buffered writer may keep some of them back.
///
/// # Errors
///
/// As for `write_whole`.
pub fn append_whole<W: Write>(out: &mut W, bytes: &[u8]) -> io::Result<()>
    ensures whole { OnOk result (Appends (W.contents out.old) (W.contents out.new) bytes.now) }
    ensures beginning { OnErr result
        (AppendsBeginning (W.contents out.old) (W.contents out.new) bytes.now) }
{
    let mut written = 0;
    while written < bytes.len() {
        match append_some(out, &bytes[written..])? {
            0 => return Err(io::Error::from(ErrorKind::WriteZero)),
            count => written += count,
        }
    }
    Ok(())
}

/// One write, made again where a signal interrupts it: how many bytes of the front are written.
fn append_some<W: Write>(out: &mut W, bytes: &[u8]) -> io::Result<usize>
    ensures bound { WritesAtMost result bytes.now }
    ensures front { IfOk result (λ count.
        Appends (W.contents out.old) (W.contents out.new) (take count bytes.now)) }
    ensures none { OnErr result (Keeps (W.contents out.old) (W.contents out.new)) }
    ensures retried { IfErr result (λ fault. error_kind fault ≢ ErrorKind.Interrupted) }
{
    for _ in 0..u64::MAX {
        match out.write(bytes) {
            Err(fault) if fault.kind() == ErrorKind::Interrupted => {}
            answer => return answer,
        }
    }
    Err(io::Error::from(ErrorKind::Other))
}
