//! Why a run has no verdict, and what it cost.
use command::{Call, Cost, FaultPlace, OutputSystem, StatsForm};
use lrat_check::{PieceFault, PieceVerdict, RunFault};
use sat_formula::DimacsFault;
use std::io;
use verdicts::Unshown;

pub(crate) fn unread_formula(fault: io::Error) -> PieceFault {
    PieceFault::Run(RunFault::Formula(DimacsFault::of_error(fault)))
}

pub(crate) fn unread_wanted(fault: io::Error) -> PieceFault {
    PieceFault::Wanted(DimacsFault::of_error(fault))
}

/// Returns the file in which the fault of a run is, which has its target clauses in a file of this
/// name.
pub(crate) fn place_of<'a>(
    outcome: &Result<PieceVerdict, Unshown<PieceFault>>,
    holds: &'a str,
) -> FaultPlace<'a> {
    match outcome {
        Err(Unshown::Fault(PieceFault::Run(RunFault::Formula(fault)))) => {
            FaultPlace::in_formula(fault)
        }
        Err(Unshown::Fault(PieceFault::Run(RunFault::Proof(_)))) => FaultPlace::LratProof,
        Err(Unshown::Fault(PieceFault::Wanted(fault))) => FaultPlace::in_wanted(holds, fault),
        Ok(_) | Err(Unshown::Write(_)) => FaultPlace::Elsewhere,
    }
}

/// Prints what a run cost, if the call asks for it and each formula was read whole.
pub(crate) fn say_cost<S: OutputSystem>(
    system: &S,
    call: &Call<'_>,
    outcome: &Result<PieceVerdict, Unshown<PieceFault>>,
    cost: Cost,
) {
    if let Some(form) = StatsForm::of(call)
        && !is_unread(outcome)
    {
        cost.say(system, form, &[]);
    }
}

/// Whether one of the formulas was not read whole.
fn is_unread(outcome: &Result<PieceVerdict, Unshown<PieceFault>>) -> bool {
    matches!(
        outcome,
        Err(Unshown::Fault(PieceFault::Wanted(_) | PieceFault::Run(RunFault::Formula(_))))
    )
}
