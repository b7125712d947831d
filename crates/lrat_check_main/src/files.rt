//! A whole proof, in a file.
ghost use Rattle.std.specs.Prelude.{◌≡◌, None};
ghost use Rattle.command.specs.Calls.{choices_of};
ghost use Rattle.lrat_check_main.specs.Meaning.{Means, piece_of};
ghost use Rattle.receipt_files.specs.Named.{Keeps};
ghost use Rattle.verdicts.specs.Pieces.{piece_line, shows_wanted};
ghost use Rattle.verdicts.specs.Statuses.{Ends, status_shown};

use crate::about::ABOUT;
use crate::fault::{place_of, say_cost, unread_formula};
use command::{
    Call, Cost, FaultPlace, OutputSystem, ReadFile, Refusal, WrittenFiles, ids_of, input_names,
    open_inputs, progress_of, say_end,
};
use lrat_check::{Ids, PieceFault, PieceVerdict, RunFault, Verdict, run_check};
use receipt_files::{hold_digested, keep_receipt, piece_receipt, whole_receipt};
use std::io::Write;
use verdicts::{Unshown, ended, show_line};

/// Checks a proof. All files are open before anything is read. The formula is read whole, and let
/// go once its clauses are taken. A receipt is whole and has its name before the verdict's line is
/// written. Returns the exit status.
pub(crate) fn check_files<S: OutputSystem, W: Write>(
    system: &S,
    call: &Call<'_>,
    given: &mut S::Names,
    out: &mut W,
) -> Result<u8, Refusal>
    ensures ends { Ends piece_line (status_shown shows_wanted)
        (Means (S.file_bytes system.now) (S.input_bytes system.now) call.now None
        (Keeps (S.unwritten system.now) (S.place system.now) (choices_of call.now)
        (S.renamed given.old) (S.renamed given.new)) (S.renamed given.new ≡ S.renamed given.old))
        (S.renamed given.new ≡ S.renamed given.old)
        (W.contents out.old) (W.contents out.new) result }
{
    let cost = Cost::from_now(system);
    let ids = ids_of(system, &ABOUT, call, Ids::Plain, Ids::Doubled)?;
    let names = input_names(system, &ABOUT, call)?;
    let (cnf, proof) = open_inputs(system, names.cnf, names.other).ok_or(Refusal::NotRun)?;
    let mut files = WrittenFiles::new(system);
    let inputs = [ReadFile::of(system, &cnf), ReadFile::of(system, &proof)];
    let receipt = files.create_wanted(call.value("--receipt"), &inputs)?;
    let is_kept = receipt.is_some();
    let unread = FaultPlace::Formula(None);
    let cnf = hold_digested(system, names, cnf, unread, unread_formula, is_kept)?;
    let progress = progress_of(system, &ABOUT, call);
    let proof = proof.told(system, &progress);
    let mut lie = None;
    let checked = as_piece(run_check(system.alloc(), cnf.held, proof, ids, &mut lie));
    let said = piece_receipt((cnf.digest, None), &checked);
    let receipt = whole_receipt(system, call, receipt, said, &checked)?;
    let named = keep_receipt(&files, call, receipt, checked, given);
    let outcome = show_line(named, out);
    // No file has target clauses.
    let place = place_of(&outcome, "");
    say_end(system, names, &outcome, place, &lie);
    say_cost(system, call, &outcome, cost);
    ended(&outcome)
}

/// Returns the result of a run over a whole proof as one over a piece, whose only target clause is
/// the empty one.
pub(crate) fn as_piece(
    checked: Result<Verdict, RunFault>,
) -> Result<PieceVerdict, Unshown<PieceFault>>
    ensures { result ≡ piece_of checked }
{
    match checked {
        Ok(Verdict::Verified) => Ok(PieceVerdict::Refuted),
        Ok(Verdict::NotVerified) => Ok(PieceVerdict::NotCarried),
        Err(fault) => Err(Unshown::Fault(PieceFault::Run(fault))),
    }
}
