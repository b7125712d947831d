//! A small fixed example.
ghost use Rattle.follows_check.specs.Verdicts.{shown_line, status_of};
ghost use Rattle.verdicts.specs.Statuses.{Ends};

use command::{Refusal, System, say_cause};
use follows_check::{HeaderLies, ProofFormat, ended, run_proof};
use log::sink::Discard;
use std::io::Write;
use verdicts::{Unshown, show_line};

/// 1 or 2, and not 1 or 2.
const FORMULA: &[u8] = b"p cnf 2 2\n1 2 0\n-1 2 0\n";

/// 2.
const CLAIMS: &[u8] = b"p cnf 2 1\n2 0\n";

/// The selector is 3: it is true, so 2 is false, and then the clauses of the formula are against
/// each other.
const PROOF: &[u8] = b"0\n";

/// Checks the example, and returns the exit status.
pub(crate) fn check_example<S: System, W: Write>(system: &S, out: &mut W) -> Result<u8, Refusal>
    ensures ends { Ends shown_line status_of (λ verdict. Unit {0}) (Unit {0})
        (W.contents out.old) (W.contents out.new) result }
{
    let checked = run_proof(
        &Discard,
        system.alloc(),
        FORMULA,
        CLAIMS,
        PROOF,
        ProofFormat::Told,
        &mut HeaderLies::none(),
    );
    let outcome = show_line(checked.map_err(Unshown::Fault), out);
    say_cause(system, &outcome);
    ended(&outcome)
}
