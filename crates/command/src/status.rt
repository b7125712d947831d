//! The calls `--help` and `--version`.
ghost use Rattle.std.specs.Prelude.{◌≡◌, ◌≢◌, Err, IfErr, IsOk, OnOk};
ghost use Rattle.std.specs.IoError.{error_kind};
ghost use Rattle.std.specs.declared.io.ErrorKind.TheVariants.{BrokenPipe};
ghost use Rattle.verdicts.specs.declared.status.Refusal.TheVariants.{Failed};

use crate::about::About;
use std::io;
use std::io::{Eprint, ErrorKind, Print};
use verdicts::Refusal;

/// The version of all programs, and what they are built from. For `dist/`, `tools/dist.sh` writes
/// over the words in brackets, byte for byte: `commit` and the first eleven digits of the commit.
const VERSION: &str = "0.4.0 (built from sources)";

/// Prints a program's help, also if the reader closed the pipe.
///
/// # Errors
///
/// `Failed` if it can't be written.
pub fn help<R: Print + Eprint>(rt: &R, about: &About<'_>) -> Result<(), Refusal>
    ensures { IfErr result (λ refusal. refusal ≡ Failed) }
{
    told(rt, print!(rt; "{about}"))
}

/// Prints the version of the program of this name.
///
/// # Errors
///
/// As for `help`.
pub fn version<R: Print + Eprint>(rt: &R, name: &str) -> Result<(), Refusal>
    ensures { IfErr result (λ refusal. refusal ≡ Failed) }
{
    told(rt, println!(rt; "{name} {VERSION}"))
}

/// Returns whether a call that only writes has done so. A fault is printed to standard error,
/// except for a closed pipe, which is none.
fn told<R: Eprint>(rt: &R, written: io::Result<()>) -> Result<(), Refusal>
    ensures written { OnOk written (IsOk result) }
    ensures unread { IfErr written (λ fault. error_kind fault ≡ BrokenPipe → IsOk result) }
    ensures failed { IfErr written (λ fault. error_kind fault ≢ BrokenPipe → result ≡ Err Failed) }
{
    let Err(fault) = written else {
        return Ok(());
    };
    match fault.kind() {
        ErrorKind::BrokenPipe => Ok(()),
        _ => {
            let _ = eprintln!(rt; "error writing: {fault}");
            Err(Refusal::Failed)
        }
    }
}
