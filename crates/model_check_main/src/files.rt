//! A formula and an answer, in files.
ghost use Rattle.std.specs.Prelude.{◌≡◌};
ghost use Rattle.command.specs.Calls.{choices_of};
ghost use Rattle.model_check.specs.Verdicts.{shown_line, shows_sat};
ghost use Rattle.model_check_main.specs.Meaning.{Means};
ghost use Rattle.receipt_files.specs.Named.{Keeps};
ghost use Rattle.verdicts.specs.Statuses.{Ends, status_shown};

use crate::about::ABOUT;
use answer_text::AnswerFault;
use command::{
    Call, FaultPlace, InputNames, OutputSystem, ReadFile, Refusal, WrittenFiles, hold_file,
    input_names, open_inputs, say_fault, warn_of_header,
};
use model_check::{RunFault, Verdict, run_check};
use receipt_files::{hold_digested, keep_receipt, satisfied_by, whole_receipt};
use sat_formula::{DimacsFault, LyingHeader};
use std::io;
use std::io::{Eprint, Write};
use verdicts::{Unshown, ended, show_line};

/// Checks an answer. All files are open before anything is read, and both others are read whole. A
/// receipt is whole and has its name before the verdict's line is written. Returns the exit status.
pub(crate) fn check_files<S: OutputSystem, W: Write>(
    system: &S,
    call: &Call<'_>,
    given: &mut S::Names,
    out: &mut W,
) -> Result<u8, Refusal>
    ensures ends { Ends shown_line (status_shown shows_sat)
        (Means (S.file_bytes system.now) (S.input_bytes system.now) call.now
        (Keeps (S.unwritten system.now) (S.place system.now) (choices_of call.now)
        (S.renamed given.old) (S.renamed given.new)) (S.renamed given.new ≡ S.renamed given.old))
        (S.renamed given.new ≡ S.renamed given.old)
        (W.contents out.old) (W.contents out.new) result }
{
    let names = input_names(system, &ABOUT, call)?;
    let (cnf, answer) = open_inputs(system, names.cnf, names.other).ok_or(Refusal::NotRun)?;
    let mut files = WrittenFiles::new(system);
    let inputs = [ReadFile::of(system, &cnf), ReadFile::of(system, &answer)];
    let receipt = files.create_wanted(call.value("--receipt"), &inputs)?;
    let is_kept = receipt.is_some();
    let answer = hold_file(system, names, answer, FaultPlace::Answer, unread_answer)?;
    let unread = FaultPlace::Formula(None);
    let cnf = hold_digested(system, names, cnf, unread, unread_formula, is_kept)?;
    let mut lie = None;
    let checked = run_check(system.alloc(), cnf.held, answer, &mut lie).map_err(Unshown::Fault);
    let said = satisfied_by(cnf.digest);
    let receipt = whole_receipt(system, call, receipt, said, &checked)?;
    let named = keep_receipt(&files, call, receipt, checked, given);
    let outcome = show_line(named, out);
    say_outcome(system, names, &outcome, &lie);
    ended(&outcome)
}

/// Says which clause is not met or why a run has no verdict, and of a header that does not match.
fn say_outcome<S: OutputSystem>(
    system: &S,
    names: InputNames<'_>,
    outcome: &Result<Verdict, Unshown<RunFault>>,
    lie: &Option<LyingHeader>,
) {
    match outcome {
        Ok(Verdict::Verified) => {}
        Ok(Verdict::NotVerified { clause, line }) => say_unmet(system, *clause, *line),
        Err(fault) => say_fault(system, names, fault, place_of(fault)),
    }
    if !matches!(outcome, Err(Unshown::Fault(RunFault::Cut(_)))) {
        warn_of_header(system, names.cnf, lie);
    }
}

fn unread_answer(fault: io::Error) -> RunFault {
    RunFault::Answer(AnswerFault::of_error(fault))
}

fn unread_formula(fault: io::Error) -> RunFault {
    RunFault::Formula(DimacsFault::of_error(fault))
}

fn place_of(fault: &Unshown<RunFault>) -> FaultPlace<'static> {
    match fault {
        Unshown::Fault(RunFault::Answer(_)) => FaultPlace::Answer,
        Unshown::Fault(RunFault::Formula(fault)) => FaultPlace::in_formula(fault),
        Unshown::Fault(RunFault::Cut(_)) => FaultPlace::Formula(None),
        Unshown::Write(_) => FaultPlace::Elsewhere,
    }
}

/// Says which clause has no literal of the answer, and on which line it ends.
fn say_unmet<R: Eprint>(rt: &R, clause: u64, line: u64) {
    let _ = eprintln!(rt; "formula: line {line}: clause {clause} has no literal of the answer");
}
