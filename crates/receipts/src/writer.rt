//! Receipts that are written, and the texts that they are of.
ghost use Rattle.std.specs.Prelude.{◌≡◌, IfOk, IfSome, OnErr, OnOk};
ghost use Rattle.std.specs.Io.KnownBytes.{Appends};
ghost use Rattle.sha2.specs.Sha256.{sha256};
ghost use Rattle.whole_writes.specs.Beginnings.{AppendsBeginning};
ghost use Rattle.receipts.specs.Lines.{receipt_line};

use crate::receipt::Receipt;
use sha2::{Digest, Sha256};
use std::alloc::Global;
use std::io;
use std::io::{Read, Write};
use whole_writes::write_whole;

/// Writes a receipt's line and flushes the writer.
///
/// # Errors
///
/// That of the writer, or out of memory. A beginning of the line is written then.
pub fn write_receipt<W: Write>(alloc: Global, out: &mut W, receipt: Receipt) -> io::Result<()>
    ensures whole { OnOk result
        (Appends (W.contents out.old) (W.contents out.new) (receipt_line receipt)) }
    ensures beginning { OnErr result
        (AppendsBeginning (W.contents out.old) (W.contents out.new) (receipt_line receipt)) }
{
    let line = receipt.line(alloc)?;
    write_whole(out, &line)
}

/// Returns all bytes that a reader gives, and their digest.
///
/// # Errors
///
/// That of the reader, or out of memory.
pub fn read_digested<R: Read + Drop>(alloc: Global, from: R) -> io::Result<(Vec<u8>, [u8; 32])>
    ensures bytes { IfOk result (λ read. IfSome (R.remaining from)
        (λ text. read.0.items ≡ text)) }
    ensures digest { IfOk result (λ read. read.1 ≡ sha256 read.0.items) }
{
    let mut from = from;
    let mut text = Vec::new(alloc);
    from.read_to_end(&mut text)?;
    let digest = Sha256::digest(text.as_slice());
    Ok((text, digest))
}
