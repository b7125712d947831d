//! A machine and a stimulus, in files.
ghost use Rattle.std.specs.Prelude.{◌≡◌, true};
ghost use Rattle.circuit_check_main.specs.Asked.{writes_formula};
ghost use Rattle.circuit_check_main.specs.Meaning.{ReachMeans, Runs, shown_status, shown_text};
ghost use Rattle.command.specs.Calls.{choices_of};
ghost use Rattle.verdicts.specs.Statuses.{Ends};

use crate::about::ABOUT;
use crate::files::open;
use crate::options::{Files, files_of};
use circuit_check::{Reach, run_reached};
use command::{Call, Refusal, System, misused, say_cause};
use std::io::{Eprint, Write};
use verdicts::ended;

/// Runs a call with a machine alone, and returns the exit status.
///
/// # Errors
///
/// `NotRun` if the options are wrong or a file can't be opened; `Failed` if there is no verdict, or
/// its line can't be written. Standard error says why.
pub(crate) fn run_of_reached<S: System, W: Write>(
    system: &S,
    call: &Call<'_>,
    machine: &str,
    out: &mut W,
) -> Result<u8, Refusal>
    ensures ends { Ends shown_text shown_status (Runs (ReachMeans (S.file_bytes system.now machine.now)))
        (Unit {0}) (W.contents out.old) (W.contents out.new) result }
    ensures silent { writes_formula (choices_of call.now) ≡ true → out.new ≡ out.old }
{
    match files_of(call) {
        Files::Stimulus(stimulus) => prove_reached(system, machine, stimulus, out),
        _ => {
            let why = "safe MACHINE INVARIANT, or --stimulus alone";
            Err(misused(system, &ABOUT, why))
        }
    }
}

/// Runs a machine by a stimulus, and returns the exit status; standard error says why no bad output
/// is reached. An Err is as of `run_of_reached`.
fn prove_reached<S: System, W: Write>(
    system: &S,
    machine: &str,
    stimulus: &str,
    out: &mut W,
) -> Result<u8, Refusal>
    ensures ends { Ends shown_text shown_status (Runs (ReachMeans (S.file_bytes system.now machine.now)))
        (Unit {0}) (W.contents out.old) (W.contents out.new) result }
{
    let machine = open(system, machine)?;
    let stimulus = open(system, stimulus)?;
    let outcome = run_reached(system.alloc(), machine.file, stimulus.file, out);
    say_cause(system, &outcome);
    if let Ok(reach) = &outcome {
        say_reach(system, *reach);
    }
    ended(&outcome)
}

/// Says why no bad output is reached.
fn say_reach<R: Eprint>(rt: &R, reach: Reach) {
    let _ = match reach {
        Reach::At(_) => Ok(()),
        Reach::OtherStart(latch) => {
            eprintln!(rt; "the first value of latch {latch} is not its reset")
        }
        Reach::Broken(step) => eprintln!(rt; "a constraint is false at step {step}"),
        Reach::Nowhere => eprintln!(rt; "no bad state is reached"),
    };
}
