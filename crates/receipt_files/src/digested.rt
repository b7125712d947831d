//! Files that are read whole, and the digests of their bytes.
ghost use Rattle.std.specs.Prelude.{◌≡◌, IfErr, IfOk, IfSome, is_some, true};
ghost use Rattle.command.specs.Held.{held_in};
ghost use Rattle.command.specs.Inputs.{input_bytes_left};
ghost use Rattle.receipt_files.specs.Named.{IsDigestOf};
ghost use Rattle.verdicts.specs.declared.status.Refusal.TheVariants.{Failed};

use command::{FaultPlace, HeldBytes, InputNames, InputOf, Refusal, System, hold_file, say_fault};
use receipts::read_digested;
use std::alloc::Global;
use std::fmt::Display;
use std::io;

/// Bytes that are held, and their SHA-256 digest, if it was asked for.
#[derive(Drop)]
pub struct Digested {
    pub held: HeldBytes,
    pub digest: Option<[u8; 32]>,
}

/// Returns the bytes of a file of a run as [`hold_file`], and their digest, if it is wanted.
///
/// # Errors
///
/// `Failed` as `hold_file`, and if there is no memory for the bytes twice, which are copied where a
/// digest is wanted.
pub fn hold_digested<S: System, D: Display + Drop, F: FnOnce(io::Error) -> D + Copy>(
    rt: &S,
    names: InputNames<'_>,
    file: InputOf<'_, S>,
    place: FaultPlace<'_>,
    fault_of: F,
    is_wanted: bool,
) -> Result<Digested, Refusal>
    requires { F.IsAlwaysCallable fault_of }
    ensures err { IfErr result (λ refusal. refusal ≡ Failed) }
    ensures bytes { IfOk result (λ read. IfSome
        (input_bytes_left S.File.remaining S.Input.remaining file.entry) (λ bytes. held_in read.held ≡ bytes)) }
    ensures digest { IfOk result (λ read. IsDigestOf read.digest (held_in read.held)) }
    ensures wanted { IfOk result (λ read. is_some read.digest ≡ is_wanted) }
{
    let held = hold_file(rt, names, file, place, fault_of)?;
    if !is_wanted {
        return Ok(Digested { held, digest: None });
    }
    match with_digest(rt.alloc(), held) {
        Ok(read) => Ok(read),
        Err(fault) => {
            say_fault(rt, names, &fault_of(fault), place);
            Err(Refusal::Failed)
        }
    }
}

/// Returns the same bytes with their digest.
fn with_digest(alloc: Global, held: HeldBytes) -> io::Result<Digested>
    ensures bytes { IfOk result (λ read. held_in read.held ≡ held_in held) }
    ensures digest { IfOk result (λ read. IsDigestOf read.digest (held_in held)) }
    ensures wanted { IfOk result (λ read. is_some read.digest ≡ true) }
{
    let (text, digest) = read_digested(alloc, held)?;
    let held = HeldBytes::of_reader(alloc, text.as_slice(), text.len(), u64::MAX)?;
    Ok(Digested {
        held,
        digest: Some(digest),
    })
}
