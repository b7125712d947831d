//! A piece of a proof, which must derive the target clauses of a file.
ghost use Rattle.std.specs.Prelude.{◌≡◌, Some};
ghost use Rattle.command.specs.Calls.{choices_of};
ghost use Rattle.lrat_check_main.specs.Meaning.{Means};
ghost use Rattle.receipt_files.specs.Named.{Keeps};
ghost use Rattle.verdicts.specs.Pieces.{piece_line, shows_wanted};
ghost use Rattle.verdicts.specs.Statuses.{Ends, status_shown};

use crate::about::ABOUT;
use crate::fault::{place_of, say_cost, unread_formula, unread_wanted};
use command::{
    Call, Cost, FaultPlace, InputNames, OutputSystem, ReadFile, Refusal, WrittenFiles, ids_of,
    input_names, open_file, open_inputs, progress_of, say_fault, say_missing, warn_of_header,
};
use lrat_check::{Ids, PieceFault, PieceTold, PieceVerdict, run_piece};
use receipt_files::{hold_digested, keep_receipt, piece_receipt, whole_receipt};
use std::io::Write;
use verdicts::{Unshown, ended, show_line};

/// Checks a piece of a proof. All files are open before anything is read, and both formulas are
/// read whole. A receipt is whole and has its name before the verdict's line is written. Returns
/// the exit status.
pub(crate) fn check_piece<S: OutputSystem, W: Write>(
    system: &S,
    holds_name: &str,
    call: &Call<'_>,
    given: &mut S::Names,
    out: &mut W,
) -> Result<u8, Refusal>
    ensures ends { Ends piece_line (status_shown shows_wanted)
        (Means (S.file_bytes system.now) (S.input_bytes system.now) call.now (Some holds_name.now)
        (Keeps (S.unwritten system.now) (S.place system.now) (choices_of call.now)
        (S.renamed given.old) (S.renamed given.new)) (S.renamed given.new ≡ S.renamed given.old))
        (S.renamed given.new ≡ S.renamed given.old)
        (W.contents out.old) (W.contents out.new) result }
{
    let cost = Cost::from_now(system);
    let ids = ids_of(system, &ABOUT, call, Ids::Plain, Ids::Doubled)?;
    let names = input_names(system, &ABOUT, call)?;
    let (cnf, piece) = open_inputs(system, names.cnf, names.other).ok_or(Refusal::NotRun)?;
    let holds = open_file(system, holds_name).ok_or(Refusal::NotRun)?;
    let mut files = WrittenFiles::new(system);
    let inputs = [
        ReadFile::of(system, &cnf),
        ReadFile::of(system, &piece),
        ReadFile::of(system, &holds),
    ];
    // A device, as /dev/null, may be both read and written.
    let count = if holds.length(system).is_some() { 3 } else { 2 };
    let receipt = files.create_wanted(call.value("--receipt"), &inputs[..count])?;
    let is_kept = receipt.is_some();
    let unread = FaultPlace::Formula(None);
    let cnf = hold_digested(system, names, cnf, unread, unread_formula, is_kept)?;
    let unread = FaultPlace::Wanted(holds_name, None);
    let holds = hold_digested(system, names, holds, unread, unread_wanted, is_kept)?;
    let digests = (cnf.digest, holds.digest);
    let progress = progress_of(system, &ABOUT, call);
    let piece = piece.told(system, &progress);
    let mut told = PieceTold {
        missing: None,
        lie: None,
        wanted_lie: None,
    };
    let checked = run_piece(system.alloc(), cnf.held, holds.held, piece, ids, &mut told).map_err(
        Unshown::Fault,
    );
    let said = piece_receipt(digests, &checked);
    let receipt = whole_receipt(system, call, receipt, said, &checked)?;
    let named = keep_receipt(&files, call, receipt, checked, given);
    let outcome = show_line(named, out);
    say_outcome(system, names, holds_name, &outcome, &told);
    say_cost(system, call, &outcome, cost);
    ended(&outcome)
}

/// Says why a run has no verdict, which target clause is missing, and which headers do not match.
fn say_outcome<S: OutputSystem>(
    system: &S,
    names: InputNames<'_>,
    holds_name: &str,
    outcome: &Result<PieceVerdict, Unshown<PieceFault>>,
    told: &PieceTold,
) {
    if let Err(fault) = outcome {
        say_fault(system, names, fault, place_of(outcome, holds_name));
    }
    say_missing(system, holds_name, &told.missing);
    warn_of_header(system, names.cnf, &told.lie);
    warn_of_header(system, holds_name, &told.wanted_lie);
}
