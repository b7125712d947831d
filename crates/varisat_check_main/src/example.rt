//! A small fixed example.
ghost use Rattle.varisat_check.specs.Verdicts.{shown_line, shows_unsat};
ghost use Rattle.verdicts.specs.Statuses.{Ends, status_shown};

use crate::about::ABOUT;
use command::{Call, Refusal, System, progress_of, say_cause};
use sat_formula::Lit;
use std::io;
use std::io::Write;
use varisat_check::{RunFault, Verdict, run_proof};
use varisat_checker::Checker;
use verdicts::{Unshown, ended, show_line};

/// A proof of one step, which ends it.
const END_ALONE: [u8; 1] = [0x0D];

/// Checks a variable that must be true and false, and a proof that has nothing to add. Returns the
/// exit status.
///
/// # Errors
///
/// `Failed` if memory runs out or the verdict's line can't be written; standard error has the
/// reason.
pub(crate) fn check_example<S: System, W: Write>(
    system: &S,
    call: &Call<'_>,
    out: &mut W,
) -> Result<u8, Refusal>
    ensures ends { Ends shown_line (status_shown shows_unsat) (λ verdict. Unit {0}) (Unit {0})
        (W.contents out.old) (W.contents out.new) result }
{
    let outcome = show_line(run_example(system, call).map_err(Unshown::Fault), out);
    say_cause(system, &outcome);
    ended(&outcome)
}

fn run_example<S: System>(system: &S, call: &Call<'_>) -> Result<Verdict, RunFault> {
    let mut checker = Checker::new(system.alloc());
    for number in [1, -1] {
        if let Some(lit) = Lit::from_dimacs(number)
            && let Err(fault) = checker.add_clause(&[lit])
        {
            return Err(RunFault::Proof(fault));
        }
    }
    let progress = progress_of(system, &ABOUT, call);
    run_proof(
        &progress.asked_log(),
        &mut checker,
        END_ALONE.as_slice(),
        &mut io::sink(),
    )
}
