//! A piece of a proof, which must derive the target clauses of a file.
ghost use Rattle.std.specs.Prelude.{◌≡◌, IfErr, None};
ghost use Rattle.command.specs.Calls.{choices_of};
ghost use Rattle.command.specs.Inputs.{bytes_named};
ghost use Rattle.drat_check_main.specs.Named.{trim_name};
ghost use Rattle.drat_check_main.specs.Shown.{Leaves, ShowsPiece};
ghost use Rattle.verdicts.specs.Pieces.{piece_line, shows_wanted};
ghost use Rattle.verdicts.specs.Statuses.{Ends, status_shown};

use crate::about::ABOUT;
use crate::fault::{say_outcome, say_told, say_wanted_stats, unread_formula, unread_wanted};
use crate::outputs::{create_outputs, of_piece, of_whole};
use crate::shown::show;
use command::{
    Call, Cost, FaultPlace, InputNames, OutputSystem, ReadFile, Refusal, WrittenFiles, open_file,
    open_inputs, progress_of,
};
use drat_check::{ProofFormat, run_piece};
use receipt_files::{hold_digested, piece_receipt, whole_receipt};
use std::io::Write;
use verdicts::ended;

/// Checks a piece of a proof. All files are open before anything is read, and both formulas are
/// read whole. Returns the exit status.
#[tactic(auto, using(crate::proofs::Showing::refused))]
pub(crate) fn check_piece<'a, S: OutputSystem, W: Write>(
    system: &'a S,
    names: InputNames<'a>,
    holds_name: &'a str,
    format: ProofFormat,
    call: &'a Call<'_>,
    given: &mut S::Names,
    out: &mut W,
) -> Result<u8, Refusal>
    ensures ends { trim_name (choices_of call.now) ≡ None → Ends piece_line (status_shown shows_wanted)
        (ShowsPiece (S.unwritten system.now) (S.place system.now) call.now
        (S.renamed given.old) (S.renamed given.new)
        (bytes_named (S.file_bytes system.now) (S.input_bytes system.now) names.entry.cnf.now)
        (S.file_bytes system.now holds_name.now))
        (IfErr result (Leaves (S.unwritten system.now) (S.place system.now) call.now
        (S.renamed given.old) (S.renamed given.new)))
        (W.contents out.old) (W.contents out.new) result }
{
    let cost = Cost::from_now(system);
    let (cnf, piece) = open_inputs(system, names.cnf, names.other).ok_or(Refusal::NotRun)?;
    let holds = open_file(system, holds_name).ok_or(Refusal::NotRun)?;
    let mut files = WrittenFiles::new(system);
    let (cnf_file, piece_file) = (ReadFile::of(system, &cnf), ReadFile::of(system, &piece));
    let inputs = [cnf_file, piece_file, ReadFile::of(system, &holds)];
    // A device, as /dev/null, may be both read and written.
    let count = if holds.length(system).is_some() { 3 } else { 2 };
    let mut outputs = of_piece(create_outputs(&mut files, call, &inputs[..count])?);
    let receipt = files.create_wanted(call.value("--receipt"), &inputs[..count])?;
    let is_kept = receipt.is_some();
    let unread = FaultPlace::Formula(None);
    let cnf = hold_digested(system, names, cnf, unread, unread_formula, is_kept)?;
    let unread = FaultPlace::Wanted(holds_name, None);
    let holds = hold_digested(system, names, holds, unread, unread_wanted, is_kept)?;
    let digests = (cnf.digest, holds.digest);
    let progress = &progress_of(system, &ABOUT, call);
    let piece = piece.told(system, progress);
    let checked = run_piece(
        progress,
        system.alloc(),
        cnf.held,
        holds.held,
        piece,
        format,
        &mut outputs,
    );
    let said = piece_receipt(digests, &checked);
    let receipt = whole_receipt(system, call, receipt, said, &checked)?;
    let counts = outputs.counts.get();
    let (outputs, told) = of_whole(outputs);
    let outcome = show(&files, call, outputs, receipt, checked, given, out);
    say_outcome(system, names, format, call, &outcome);
    say_told(system, names, holds_name, &told);
    say_wanted_stats(system, call, &outcome, counts, cost);
    ended(&outcome)
}
