//! Verdicts that are shown: the outputs get their names, the receipt gets its own, and then the
//! line is written.
ghost use Rattle.std.specs.Prelude.{◌≡◌, IfOk, IsErr, IsOk, Ok};
ghost use Rattle.command.specs.Calls.{choices_of};
ghost use Rattle.drat_check_main.specs.Named.{GivesAll, LeavesReached, NamesReached, bytes_of};
ghost use Rattle.drat_check_main.specs.Pieces.{piece_of};
ghost use Rattle.verdicts.specs.Pieces.{piece_line, shows_wanted};
ghost use Rattle.verdicts.specs.Statuses.{Ends, ended_of, status_shown};

use crate::outputs::{FileOutputs, name_outputs};
use command::{Call, OutputSystem, WrittenFiles};
use drat_check::{PieceFault, RunFault};
use receipt_files::keep_receipt;
use std::io::Write;
use verdicts::{PieceVerdict, Unshown, Verdict, show_line};

/// Returns the result of a run over a whole proof as that over a piece whose only target clause is
/// the empty one.
pub(crate) fn as_piece(checked: Result<Verdict, RunFault>) -> Result<PieceVerdict, PieceFault>
    ensures { result ≡ piece_of checked }
{
    match checked {
        Ok(Verdict::Verified) => Ok(PieceVerdict::Refuted),
        Ok(Verdict::NotVerified) => Ok(PieceVerdict::NotCarried),
        Err(fault) => Err(PieceFault::Run(fault)),
    }
}

/// Gives the outputs of a run that has a verdict their names, and the receipt its own, and then
/// writes the verdict's line.
///
/// # Errors
///
/// That of the run, after which nothing has its name and nothing is written; or `Write` with the
/// rename or the write that failed. Nothing of the line is written then unless all have their
/// names.
pub(crate) fn show<S: OutputSystem, W: Write>(
    files: &WrittenFiles<'_, S>,
    call: &Call<'_>,
    outputs: FileOutputs<S>,
    receipt: Option<S::Output>,
    checked: Result<PieceVerdict, PieceFault>,
    given: &mut S::Names,
    out: &mut W,
) -> Result<PieceVerdict, Unshown<PieceFault>>
    ensures verdict { IfOk result (λ verdict. checked ≡ Ok verdict) }
    ensures ends { Ends piece_line (status_shown shows_wanted)
        (NamesReached (S.place files.now.system.now) (choices_of call.now) S.Output.contents
        (bytes_of S.Output.contents outputs) receipt checked (S.renamed given.old) (S.renamed given.new))
        (LeavesReached (S.place files.now.system.now) (choices_of call.now)
        (bytes_of S.Output.contents outputs) checked (S.renamed given.old) (S.renamed given.new))
        (W.contents out.old) (W.contents out.new) (ended_of shows_wanted result) }
{
    let named = keep_outputs(files, call, outputs, checked, given);
    let kept = keep_receipt(files, call, receipt, named, given);
    show_line(kept, out)
}

/// Gives the outputs of a run their names, once a verdict was reached.
///
/// # Errors
///
/// That of the run, or `Write` with the first write or rename that failed. The outputs before it
/// have their names then, and no other one.
fn keep_outputs<S: OutputSystem>(
    files: &WrittenFiles<'_, S>,
    call: &Call<'_>,
    outputs: FileOutputs<S>,
    checked: Result<PieceVerdict, PieceFault>,
    given: &mut S::Names,
) -> Result<PieceVerdict, Unshown<PieceFault>>
    ensures verdict { IfOk result (λ verdict. checked ≡ Ok verdict) }
    ensures named { IsOk result → GivesAll (S.place files.now.system.now) (choices_of call.now)
        (bytes_of S.Output.contents outputs) (S.renamed given.old) (S.renamed given.new) }
    ensures left { IsErr result → LeavesReached (S.place files.now.system.now) (choices_of call.now)
        (bytes_of S.Output.contents outputs) checked (S.renamed given.old) (S.renamed given.new) }
{
    let verdict = match checked {
        Ok(verdict) => verdict,
        Err(fault) => return Err(Unshown::Fault(fault)),
    };
    match name_outputs(files, call, outputs, given) {
        Ok(()) => Ok(verdict),
        Err(fault) => Err(Unshown::Write(fault)),
    }
}
