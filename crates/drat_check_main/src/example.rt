//! A small fixed example.
ghost use Rattle.drat_check_main.specs.Shown.{IsOfWhole};
ghost use Rattle.verdicts.specs.Pieces.{piece_line, shows_wanted};
ghost use Rattle.verdicts.specs.Statuses.{Ends, status_shown};

use crate::shown::as_piece;
use command::{Refusal, System, say_cause};
use drat_check::{Outputs, ProofFormat, run_check};
use log::sink::Discard;
use std::io::Write;
use verdicts::{Unshown, ended, show_line};

/// Four clauses, one against each pair of values of two variables.
const FORMULA: &[u8] = b"p cnf 2 4\n1 2 0\n1 -2 0\n-1 2 0\n-1 -2 0\n";

/// 1 follows from the first two clauses, and with it the others are against each other.
const PROOF: &[u8] = b"1 0\nd 1 2 0\n0\n";

/// Checks the example, and returns the exit status of its verdict.
pub(crate) fn check_example<S: System, W: Write>(system: &S, out: &mut W) -> Result<u8, Refusal>
    ensures ends { Ends piece_line (status_shown shows_wanted) IsOfWhole (Unit {0})
        (W.contents out.old) (W.contents out.new) result }
{
    let checked = run_check(
        &Discard,
        system.alloc(),
        FORMULA,
        PROOF,
        ProofFormat::Told,
        &mut Outputs::none(),
        &mut None,
    );
    let outcome = show_line(as_piece(checked).map_err(Unshown::Fault), out);
    say_cause(system, &outcome);
    ended(&outcome)
}
