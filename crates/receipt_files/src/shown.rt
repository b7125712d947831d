//! Receipts that get their names, before the lines of their verdicts are written.
ghost use Rattle.std.specs.Prelude.{◌≡◌, IfOk, IsErr, IsOk, Ok, OnErr, OnOk};
ghost use Rattle.command.specs.Calls.{choices_of};
ghost use Rattle.receipt_files.specs.Named.{NamesReceipt};

use command::{Call, OutputSystem, WrittenFiles};
use std::io;
use verdicts::{Claims, Unshown};

/// Gives the whole file of a receipt, if there is one, its name, once a verdict was reached.
///
/// # Errors
///
/// That of the run, or `Write` with the rename that failed. No name is given then.
pub fn keep_receipt<S: OutputSystem, V: Claims, E: Drop>(
    files: &WrittenFiles<'_, S>,
    call: &Call<'_>,
    receipt: Option<S::Output>,
    checked: Result<V, Unshown<E>>,
    given: &mut S::Names,
) -> Result<V, Unshown<E>>
    ensures verdict { IfOk result (λ verdict. checked ≡ Ok verdict) }
    ensures named { IsOk result → NamesReceipt (S.place files.now.system.now)
        (choices_of call.now) S.Output.contents receipt (S.renamed given.old) (S.renamed given.new) }
    ensures kept { IsErr result → S.renamed given.new ≡ S.renamed given.old }
{
    let verdict = checked?;
    match name_receipt(files, call, receipt, given) {
        Ok(()) => Ok(verdict),
        Err(fault) => Err(Unshown::Write(fault)),
    }
}

/// Gives the whole file of a receipt, if there is one, its name.
///
/// # Errors
///
/// That of the rename; no name is given then.
fn name_receipt<S: OutputSystem>(
    files: &WrittenFiles<'_, S>,
    call: &Call<'_>,
    receipt: Option<S::Output>,
    given: &mut S::Names,
) -> io::Result<()>
    ensures named { OnOk result (NamesReceipt (S.place files.now.system.now)
        (choices_of call.now) S.Output.contents receipt (S.renamed given.old) (S.renamed given.new)) }
    ensures kept { OnErr result (S.renamed given.new ≡ S.renamed given.old) }
{
    match (call.value("--receipt"), receipt) {
        (Some(name), Some(file)) => files.name_file(given, name, file),
        _ => Ok(()),
    }
}
