//! A formula, receipts, and perhaps cubes, in files.
ghost use Rattle.join_check.specs.Verdicts.{shown_line, shows_unsat};
ghost use Rattle.join_check_main.specs.Meaning.{MeansByParts, MeansByReceipts};
ghost use Rattle.verdicts.specs.Statuses.{Ends, status_shown};

use command::{
    FaultPlace, InputNames, Refusal, System, hold_file, open_file, open_inputs, say_fault,
};
use join_check::{RunFault, Verdict, run_cubes, run_pieces};
use receipts::ReceiptFault;
use sat_formula::DimacsFault;
use std::io;
use std::io::{Eprint, Write};
use verdicts::{Unshown, ended, show_line};

/// Checks whether receipts lead from a formula to one that is refuted. Both files are opened before
/// anything is read, and each is read whole. Returns the exit status.
pub(crate) fn check_formula<S: System, W: Write>(
    system: &S,
    names: InputNames<'_>,
    out: &mut W,
) -> Result<u8, Refusal>
    ensures ends { Ends shown_line (status_shown shows_unsat)
        (MeansByReceipts (S.file_bytes system.now) (S.input_bytes system.now)
        names.entry.cnf.now names.entry.other.now) (Unit {0})
        (W.contents out.old) (W.contents out.new) result }
{
    let (cnf, receipts) = open_inputs(system, names.cnf, names.other).ok_or(Refusal::NotRun)?;
    let receipts = hold_file(system, names, receipts, FaultPlace::Answer, unread_receipts)?;
    let unread = FaultPlace::Formula(None);
    let cnf = hold_file(system, names, cnf, unread, unread_formula)?;
    let checked = run_pieces(system.alloc(), cnf, receipts).map_err(Unshown::Fault);
    let outcome = show_line(checked, out);
    say_outcome(system, names, None, &outcome);
    ended(&outcome)
}

/// Checks whether receipts show the parts of a formula that is split into the cubes of a file. All
/// files are opened before anything is read, and each is read whole. Returns the exit status.
pub(crate) fn check_parts<S: System, W: Write>(
    system: &S,
    names: InputNames<'_>,
    cubes_name: &str,
    out: &mut W,
) -> Result<u8, Refusal>
    ensures ends { Ends shown_line (status_shown shows_unsat)
        (MeansByParts (S.file_bytes system.now) (S.input_bytes system.now)
        names.entry.cnf.now names.entry.other.now cubes_name.now) (Unit {0})
        (W.contents out.old) (W.contents out.new) result }
{
    let (cnf, receipts) = open_inputs(system, names.cnf, names.other).ok_or(Refusal::NotRun)?;
    let cubes = open_file(system, cubes_name).ok_or(Refusal::NotRun)?;
    let receipts = hold_file(system, names, receipts, FaultPlace::Answer, unread_receipts)?;
    let unread = FaultPlace::Formula(None);
    let cnf = hold_file(system, names, cnf, unread, unread_formula)?;
    let unread = FaultPlace::Output(Some(cubes_name));
    let cubes = hold_file(system, names, cubes, unread, unread_cubes)?;
    let checked = run_cubes(system.alloc(), cnf, cubes, receipts).map_err(Unshown::Fault);
    let outcome = show_line(checked, out);
    say_outcome(system, names, Some(cubes_name), &outcome);
    ended(&outcome)
}

fn unread_receipts(fault: io::Error) -> RunFault {
    RunFault::Receipts(ReceiptFault::Read(fault))
}

fn unread_formula(fault: io::Error) -> RunFault {
    RunFault::Formula(DimacsFault::of_error(fault))
}

fn unread_cubes(fault: io::Error) -> RunFault {
    RunFault::Cubes(DimacsFault::of_error(fault))
}

/// Says on standard error what is not shown, or why there is no verdict.
fn say_outcome<S: System>(
    system: &S,
    names: InputNames<'_>,
    cubes_name: Option<&str>,
    outcome: &Result<Verdict, Unshown<RunFault>>,
) {
    match outcome {
        Ok(Verdict::Verified { .. }) => {}
        Ok(Verdict::NotVerified(unshown)) => {
            let _ = eprintln!(system; "{unshown}");
        }
        Err(fault) => say_fault(system, names, fault, place_of(fault, cubes_name)),
    }
}

fn place_of<'a>(fault: &Unshown<RunFault>, cubes_name: Option<&'a str>) -> FaultPlace<'a> {
    match fault {
        Unshown::Fault(RunFault::Receipts(_)) => FaultPlace::Answer,
        Unshown::Fault(RunFault::Formula(fault)) => FaultPlace::in_formula(fault),
        Unshown::Fault(RunFault::Cubes(_)) => FaultPlace::Output(cubes_name),
        Unshown::Fault(RunFault::OutOfMemory) | Unshown::Write(_) => FaultPlace::Elsewhere,
    }
}
