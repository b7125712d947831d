//! Lines of hints, in a file.
ghost use Rattle.hint_check_main.specs.Meaning.{Means};
ghost use Rattle.verdicts.specs.Statuses.{Ends, status_shown};
ghost use Rattle.verdicts.specs.Verdicts.{shown_line, shows_unsat};

use crate::about::ABOUT;
use command::{
    Call, FaultPlace, Refusal, System, ids_of, input_names, open_and_hold, progress_of, say_end,
};
use hint_check::{Ids, RunFault, Verdict, run_check};
use sat_formula::DimacsFault;
use std::io;
use std::io::Write;
use verdicts::{Unshown, ended, show_line};

/// Checks them. Both files are opened before anything is read. The formula is read whole, and let
/// go once its clauses are taken. Returns the exit status.
pub(crate) fn check_files<S: System, W: Write>(
    system: &S,
    call: &Call<'_>,
    out: &mut W,
) -> Result<u8, Refusal>
    ensures ends { Ends shown_line (status_shown shows_unsat)
        (Means (S.file_bytes system.now) (S.input_bytes system.now) call.now) (Unit {0})
        (W.contents out.old) (W.contents out.new) result }
{
    let ids = ids_of(system, &ABOUT, call, Ids::Plain, Ids::Doubled)?;
    let names = input_names(system, &ABOUT, call)?;
    let (cnf, lrat) = open_and_hold(system, names, unread_formula)?;
    let progress = progress_of(system, &ABOUT, call);
    let lrat = lrat.told(system, &progress);
    let mut lie = None;
    let checked = run_check(system.alloc(), cnf, lrat, ids, &mut lie).map_err(Unshown::Fault);
    let outcome = show_line(checked, out);
    say_end(system, names, &outcome, place_of(&outcome), &lie);
    ended(&outcome)
}

fn unread_formula(fault: io::Error) -> RunFault {
    RunFault::Formula(DimacsFault::of_error(fault))
}

fn place_of(outcome: &Result<Verdict, Unshown<RunFault>>) -> FaultPlace<'static> {
    match outcome {
        Err(Unshown::Fault(RunFault::Formula(fault))) => FaultPlace::in_formula(fault),
        Err(Unshown::Fault(RunFault::Read(_) | RunFault::Hints(_))) => FaultPlace::LratProof,
        Ok(_) | Err(Unshown::Write(_)) => FaultPlace::Elsewhere,
    }
}
