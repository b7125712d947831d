//! A whole proof, in a file.
ghost use Rattle.std.specs.Prelude.{IfErr};
ghost use Rattle.command.specs.Inputs.{bytes_named};
ghost use Rattle.drat_check_main.specs.Shown.{Leaves, ShowsProof};
ghost use Rattle.verdicts.specs.Pieces.{piece_line, shows_wanted};
ghost use Rattle.verdicts.specs.Statuses.{Ends, status_shown};

use crate::about::ABOUT;
use crate::fault::{say_outcome, say_wanted_stats, unread_formula};
use crate::outputs::create_outputs;
use crate::shown::{as_piece, show};
use command::{
    Call, Cost, FaultPlace, InputNames, OutputSystem, ReadFile, Refusal, WrittenFiles, open_inputs,
    progress_of, warn_of_header,
};
use drat_check::{ProofFormat, run_check};
use receipt_files::{hold_digested, piece_receipt, whole_receipt};
use std::io::Write;
use verdicts::ended;

/// Checks a proof. The files that are written are made once both others are open, and before
/// anything is read. They are whole before one of them gets its name, and have their names before
/// the verdict's line is written. The formula is read whole, and let go once its clauses are taken.
#[tactic(auto, using(crate::proofs::Showing::refused))]
pub(crate) fn check_files<'a, S: OutputSystem, W: Write>(
    system: &'a S,
    names: InputNames<'a>,
    format: ProofFormat,
    call: &'a Call<'_>,
    given: &mut S::Names,
    out: &mut W,
) -> Result<u8, Refusal>
    ensures ends { Ends piece_line (status_shown shows_wanted)
        (ShowsProof (S.unwritten system.now) (S.place system.now) call.now
        (S.renamed given.old) (S.renamed given.new)
        (bytes_named (S.file_bytes system.now) (S.input_bytes system.now) names.entry.cnf.now))
        (IfErr result (Leaves (S.unwritten system.now) (S.place system.now) call.now
        (S.renamed given.old) (S.renamed given.new)))
        (W.contents out.old) (W.contents out.new) result }
{
    let cost = Cost::from_now(system);
    let (cnf, proof) = open_inputs(system, names.cnf, names.other).ok_or(Refusal::NotRun)?;
    let mut files = WrittenFiles::new(system);
    let inputs = [ReadFile::of(system, &cnf), ReadFile::of(system, &proof)];
    let mut outputs = create_outputs(&mut files, call, &inputs)?;
    let receipt = files.create_wanted(call.value("--receipt"), &inputs)?;
    let unread = FaultPlace::Formula(None);
    let is_kept = receipt.is_some();
    let cnf = hold_digested(system, names, cnf, unread, unread_formula, is_kept)?;
    let progress = &progress_of(system, &ABOUT, call);
    let proof = proof.told(system, progress);
    let mut lie = None;
    let checked = run_check(
        progress,
        system.alloc(),
        cnf.held,
        proof,
        format,
        &mut outputs,
        &mut lie,
    );
    let checked = as_piece(checked);
    let said = piece_receipt((cnf.digest, None), &checked);
    let receipt = whole_receipt(system, call, receipt, said, &checked)?;
    let counts = outputs.counts.get();
    let outcome = show(&files, call, outputs, receipt, checked, given, out);
    say_outcome(system, names, format, call, &outcome);
    warn_of_header(system, names.cnf, &lie);
    say_wanted_stats(system, call, &outcome, counts, cost);
    ended(&outcome)
}
