//! A small fixed example.
ghost use Rattle.follows_check.specs.Minimal.{minimal_line, shows_minimal};
ghost use Rattle.verdicts.specs.Statuses.{Ends, status_shown};

use command::{EXAMPLE_FORMULA, Refusal, System, say_cause};
use follows_check::{ProofFormat, run_minimal};
use log::sink::Discard;
use std::io::Write;
use verdicts::{Unshown, ended, show_line};

/// 1 follows from the first two clauses of the example's formula, and with it the others are
/// against each other.
const PROOF: &[u8] = b"1 0\n0\n";

/// Of the four clauses, one against each pair of values of two variables, each pair fails one.
const MODELS: &[u8] = b"-1 -2 0\n-1 2 0\n1 -2 0\n1 2 0\n";

/// Checks the example, and returns the exit status.
pub(crate) fn check_example<S: System, W: Write>(system: &S, out: &mut W) -> Result<u8, Refusal>
    ensures ends { Ends minimal_line (status_shown shows_minimal) (λ verdict. Unit {0})
        (Unit {0}) (W.contents out.old) (W.contents out.new) result }
{
    let checked = run_minimal(
        &Discard,
        system.alloc(),
        EXAMPLE_FORMULA,
        PROOF,
        MODELS,
        ProofFormat::Told,
        &mut None,
    );
    let outcome = show_line(checked.map_err(Unshown::Fault), out);
    say_cause(system, &outcome);
    ended(&outcome)
}
