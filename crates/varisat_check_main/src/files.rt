//! A proof, in a file.
ghost use Rattle.std.specs.Prelude.{◌≡◌};
ghost use Rattle.command.specs.Inputs.{bytes_named};
ghost use Rattle.varisat_check.specs.Verdicts.{shown_line, shows_unsat};
ghost use Rattle.varisat_check_main.specs.Meaning.{MeansOf};
ghost use Rattle.verdicts.specs.Statuses.{Ends, ended_of, status_shown};

use crate::about::ABOUT;
use command::{
    Call, FaultLine, FaultPlace, InputNames, Refusal, System, open_and_hold, progress_of, say_end,
};
use sat_formula::{DimacsFault, LyingHeader};
use std::io;
use std::io::Write;
use varisat_check::{RunFault, Verdict, run_check};
use varisat_checker::DimacsError;
use verdicts::{Unshown, ended, show_line};

/// Checks a proof. Both files are opened before anything is read. The formula is read whole, and
/// let go once its clauses are taken. Returns the exit status.
///
/// # Errors
///
/// `NotRun` if a file can't be opened; `Failed` if the formula can't be read, the proof is
/// rejected, or the verdict's line can't be written. Standard error has the reason.
pub(crate) fn check_files<S: System, W: Write>(
    system: &S,
    names: InputNames<'_>,
    call: &Call<'_>,
    out: &mut W,
) -> Result<u8, Refusal>
    ensures ends { Ends shown_line (status_shown shows_unsat)
        (MeansOf (bytes_named (S.file_bytes system.now) (S.input_bytes system.now) names.entry.cnf.now))
        (Unit {0}) (W.contents out.old) (W.contents out.new) result }
{
    let (cnf, proof) = open_and_hold(system, names, unread_formula)?;
    let progress = progress_of(system, &ABOUT, call);
    let proof = proof.told(system, &progress);
    let log = progress.asked_log();
    let (mut silent, mut lie) = (io::sink(), None);
    let checked = run_check(&log, system.alloc(), cnf, proof, &mut silent, &mut lie);
    let outcome = show_line(checked.map_err(Unshown::Fault), out);
    report(system, names, &outcome, &lie)
}

pub(crate) fn unread_formula(fault: io::Error) -> RunFault {
    RunFault::Formula(DimacsFault::of_error(fault).into())
}

/// Says why there is no verdict and of which file that is, warns of a header that lies, and gives
/// the exit status.
///
/// # Errors
///
/// `Failed` if there is no verdict.
pub(crate) fn report<S: System>(
    system: &S,
    names: InputNames<'_>,
    outcome: &Result<Verdict, Unshown<RunFault>>,
    lie: &Option<LyingHeader>,
) -> Result<u8, Refusal>
    ensures { result ≡ ended_of shows_unsat outcome.now }
{
    say_end(system, names, outcome, place_of(outcome), lie);
    ended(outcome)
}

fn place_of(outcome: &Result<Verdict, Unshown<RunFault>>) -> FaultPlace<'static> {
    match outcome {
        Err(Unshown::Fault(RunFault::Formula(fault))) => FaultPlace::Formula(line_of(fault)),
        Err(Unshown::Fault(RunFault::Proof(_))) => FaultPlace::Proof,
        Ok(_) | Err(Unshown::Fault(RunFault::Write(_)) | Unshown::Write(_)) => {
            FaultPlace::Elsewhere
        }
    }
}

/// Returns the line of a malformed formula.
fn line_of(fault: &DimacsError) -> Option<FaultLine> {
    match fault {
        DimacsError::Malformed { line, kind } => Some(FaultLine {
            line: *line,
            kind: *kind,
        }),
        DimacsError::Read(_) | DimacsError::Checker(_) => None,
    }
}
