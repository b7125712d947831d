//! Reads the first bytes of a proof.
ghost use Rattle.std.specs.Prelude.{◌≡◌, IfErr, OnOk};
ghost use Rattle.std.specs.Io.KnownBytes.{Keeps, prepend_known};
ghost use Rattle.lrat_binary.specs.First.{IsSeen, SeesFirst};
ghost use Rattle.lrat_binary.specs.Proofs.{IsNoLine};

use crate::telling::{LOOKED_AT, begins_as_binary};
use lrat_text::LratTextFault;
use std::io::Read;

/// How many bytes one read asks for.
const CHUNK: usize = 4096;

/// Reads until there is a byte, and if a binary line may begin with it, until there are all bytes
/// that are examined; or until the input ends.
///
/// # Errors
///
/// `Read` if a read failed, or `OutOfMemory`.
pub(crate) fn see_first<R: Read>(input: &mut R, seen: &mut Vec<u8>) -> Result<(), LratTextFault>
    ensures seen { OnOk result (SeesFirst seen.new.items (R.remaining input.new)) }
    ensures kept { OnOk result (Keeps (prepend_known seen.old.items (R.remaining input.old))
        (prepend_known seen.new.items (R.remaining input.new))) }
    ensures no_line { IfErr result IsNoLine }
{
    match see(input, 1, seen) {
        Ok(()) => {
            if begins_as_binary(seen) {
                return see(input, LOOKED_AT, seen);
            }
            Ok(())
        }
        Err(fault) => Err(fault),
    }
}

/// Reads until there are this many bytes, or the input ends.
fn see<R: Read>(input: &mut R, wanted: usize, seen: &mut Vec<u8>) -> Result<(), LratTextFault>
    ensures seen { OnOk result (IsSeen wanted seen.new.items (R.remaining input.new)) }
    ensures kept { OnOk result (Keeps (prepend_known seen.old.items (R.remaining input.old))
        (prepend_known seen.new.items (R.remaining input.new))) }
    ensures no_line { IfErr result IsNoLine }
{
    let mut chunk = [0; CHUNK];
    'reads: while seen.len() < wanted {
        match input.read(&mut chunk) {
            Ok(0) => return Ok(()),
            Ok(count) => {
                if seen.extend_from_slice(&chunk[..count]).is_err() {
                    return Err(LratTextFault::OutOfMemory);
                }
            }
            Err(cause) => return Err(LratTextFault::Read(cause)),
        }
    }
    Ok(())
}
