//! Files of receipts that are whole.
ghost use Rattle.std.specs.Prelude.{◌≡◌, ◌≢◌, [], None, Ok, Some, IfErr, IfOk, IfSome};
ghost use Rattle.command.specs.Calls.{choices_of};
ghost use Rattle.command.specs.Outputs.{begun, written_in};
ghost use Rattle.verdicts.specs.declared.status.Refusal.TheVariants.{Failed};
ghost use Rattle.receipt_files.specs.Named.{held_by, receipt_in, receipt_name};
ghost use Rattle.receipts.specs.Lines.{receipt_line};
ghost use Rattle.receipts.specs.declared.receipt.Receipt.{Receipt};
ghost use Rattle.verdicts.specs.Statuses.{status_of};

use command::{Call, Entry, OutputSystem, Refusal};
use receipts::{Receipt, write_receipt};
use std::alloc::Global;
use std::io;
use std::io::{BufWriter, ErrorKind, Write};
use verdicts::{Claims, exit_status};

/// The option for a file that gets a receipt.
pub const RECEIPT: Entry<'static> = Entry {
    name: "--receipt FILE",
    text: "write a receipt for join_check: what was shown, of the SHA-256 of the formula",
};

/// Writes the receipt of a verdict to the file that was made for it, if the verdict shows what it
/// is asked for and the call asks for a receipt. Returns this file, whole and still without its
/// name.
///
/// # Errors
///
/// `Failed` if that fails; standard error has the fault and the name.
pub fn whole_receipt<S: OutputSystem, V: Claims, E>(
    system: &S,
    call: &Call<'_>,
    file: Option<BufWriter<S::Output>>,
    receipt: Option<Receipt>,
    checked: &Result<V, E>,
) -> Result<Option<S::Output>, Refusal>
    ensures err { IfErr result (λ refusal. refusal ≡ Failed) }
    ensures written { (shown : Receipt) → IfSome receipt (λ receipt. receipt ≡ shown)
        → written_in S.Output.contents file ≡ begun (receipt_name (choices_of call.now))
        → status_of V.claimed checked.now ≡ 0
        → IfOk result (λ whole. held_by S.Output.contents whole
        ≡ receipt_in (choices_of call.now) shown) }
    ensures unshown { status_of V.claimed checked.now ≢ 0 → result ≡ Ok None }
{
    if exit_status(checked) != 0 {
        return Ok(None);
    }
    let Some(name) = call.value("--receipt") else {
        return Ok(None);
    };
    match written(system.alloc(), file, receipt) {
        Ok(whole) => Ok(Some(whole)),
        Err(fault) => {
            let _ = eprintln!(system; "error writing: {fault}");
            let _ = eprintln!(system; "in {name}");
            Err(Refusal::Failed)
        }
    }
}

/// Writes a receipt to a file, and what the buffer holds of it.
///
/// # Errors
///
/// That of the write, or `NotFound` if there is no file or no receipt.
fn written<W: Write + Drop>(
    alloc: Global,
    file: Option<BufWriter<W>>,
    receipt: Option<Receipt>,
) -> io::Result<W>
    ensures { (shown : Receipt) → IfSome receipt (λ receipt. receipt ≡ shown)
        → written_in W.contents file ≡ Some []
        → IfOk result (λ whole. W.contents whole ≡ Some (receipt_line shown)) }
{
    match (file, receipt) {
        (Some(file), Some(receipt)) => {
            let mut file = file;
            write_receipt(alloc, &mut file, receipt)?;
            Ok(file.into_inner()?)
        }
        _ => Err(io::Error::from(ErrorKind::NotFound)),
    }
}
