//! What is said of a run that has no verdict, and what was counted.
use crate::outputs::PieceTold;
use command::{
    Call, Cost, FaultPlace, InputNames, StatsForm, System, say_fault, say_missing, warn_of_header,
};
use drat_check::{PieceFault, ProofFormat, RunCounts, RunFault};
use sat_formula::DimacsFault;
use std::io;
use verdicts::{PieceVerdict, Unshown};

pub(crate) fn unread_formula(fault: io::Error) -> RunFault {
    RunFault::Formula(DimacsFault::of_error(fault))
}

pub(crate) fn unread_wanted(fault: io::Error) -> PieceFault {
    PieceFault::Wanted(DimacsFault::of_error(fault))
}

/// Says on standard error why a run has no verdict, and of which file that is.
pub(crate) fn say_outcome<S: System>(
    system: &S,
    names: InputNames<'_>,
    format: ProofFormat,
    call: &Call<'_>,
    outcome: &Result<PieceVerdict, Unshown<PieceFault>>,
) {
    if let Err(fault) = outcome {
        say_fault(system, names, fault, place_of(fault, format, call));
    }
}

/// Says which target clause is missing, and which headers do not match.
pub(crate) fn say_told<S: System>(
    system: &S,
    names: InputNames<'_>,
    holds_name: &str,
    told: &PieceTold,
) {
    say_missing(system, holds_name, &told.missing);
    warn_of_header(system, names.cnf, &told.lie);
    warn_of_header(system, holds_name, &told.wanted_lie);
}

/// Returns the place of a run's fault. Target clauses have the name that `--holds` gives.
fn place_of<'a>(
    fault: &Unshown<PieceFault>,
    format: ProofFormat,
    call: &'a Call<'_>,
) -> FaultPlace<'a> {
    match fault {
        Unshown::Fault(PieceFault::Run(fault)) => place_in_run(fault, format, call),
        Unshown::Fault(PieceFault::Wanted(fault)) => match call.value("--holds") {
            Some(holds) => FaultPlace::in_wanted(holds, fault),
            None => FaultPlace::Elsewhere,
        },
        Unshown::Fault(PieceFault::Lost) | Unshown::Write(_) => FaultPlace::Elsewhere,
    }
}

fn place_in_run<'a>(fault: &RunFault, format: ProofFormat, call: &'a Call<'_>) -> FaultPlace<'a> {
    match fault {
        RunFault::Formula(fault) => FaultPlace::in_formula(fault),
        RunFault::Proof(_) if format == ProofFormat::Lpr => FaultPlace::LratProof,
        RunFault::Proof(_) => FaultPlace::DratProof,
        RunFault::Lrat(_) => FaultPlace::Output(call.value("--lrat")),
        RunFault::Trim(_) => FaultPlace::Output(call.value("--trim")),
        RunFault::Core(_) => FaultPlace::Output(call.value("--core")),
    }
}

/// Whether a formula was not read whole.
fn is_unread(fault: &Unshown<PieceFault>) -> bool {
    matches!(
        fault,
        Unshown::Fault(PieceFault::Wanted(_) | PieceFault::Run(RunFault::Formula(_)))
    )
}

/// Prints what a run counted, up to where it ended, and what it cost, if the call asks for it and
/// each formula was read whole.
pub(crate) fn say_wanted_stats<S: System>(
    system: &S,
    call: &Call<'_>,
    outcome: &Result<PieceVerdict, Unshown<PieceFault>>,
    counts: RunCounts,
    cost: Cost,
) {
    if let Some(form) = StatsForm::of(call)
        && !outcome.as_ref().is_err_and(is_unread)
    {
        say_stats(system, form, counts, cost);
    }
}

/// Prints what a run counted, and what it cost.
fn say_stats<S: System>(system: &S, form: StatsForm, counts: RunCounts, cost: Cost) {
    let counts = [
        ("steps", counts.steps),
        ("lemmas", counts.lemmas),
        ("rat_lemmas", counts.redundant),
        ("hints", counts.hints),
        ("core_clauses", counts.core),
    ];
    cost.say(system, form, &counts);
}
