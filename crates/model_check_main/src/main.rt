//! The command `model_check CNF ANSWER [--receipt FILE]`: checks that the literals of a solver's
//! answer satisfy a formula, and prints the verdict.
//!
//! With `--receipt` a file gets a receipt of what was shown. `--example` checks a small fixed
//! example. The name `-` is standard input.
#![tactic(auto)]

ghost use Rattle.std.specs.Prelude.{◌≡◌};
ghost use Rattle.command.specs.Calls.{choices_of};
ghost use Rattle.model_check.specs.Verdicts.{shown_line, shows_sat};
ghost use Rattle.model_check_main.specs.Meaning.{Means};
ghost use Rattle.receipt_files.specs.Named.{Keeps};
ghost use Rattle.verdicts.specs.Statuses.{Ends, status_shown};

mod about;
mod files;

use crate::about::ABOUT;
use crate::files::check_files;
use command::{Call, Host, HostNames, OutputSystem, Refusal, System, run_program, say_cause};
use model_check::run_check;
use std::io;
use std::io::Write;
use std::process::ExitCode;
use verdicts::{Unshown, ended, show_line};

/// 1 or 2, not 1 or 3, not 2 or not 3.
const EXAMPLE_FORMULA: &[u8] = b"p cnf 3 3\n1 2 0\n-1 3 0\n-2 -3 0\n";

/// Each clause has one of the literals.
const EXAMPLE_ANSWER: &[u8] = b"s SATISFIABLE\nv 1 -2 3 0\n";

fn main(rt: HostRuntime) -> ExitCode {
    let host = Host::new(&rt);
    run_program(&rt, &ABOUT, |call| {
        run(
            &host,
            call,
            &mut HostNames::new(&host),
            &mut io::writer(&rt),
        )
    })
}

/// Runs a call in a system. The verdict's line is written to `out`, and so is that of the example.
fn run<S: OutputSystem, W: Write>(
    system: &S,
    call: &Call<'_>,
    given: &mut S::Names,
    out: &mut W,
) -> Result<u8, Refusal>
    ensures ends { Ends shown_line (status_shown shows_sat)
        (Means (S.file_bytes system.now) (S.input_bytes system.now) call.now
        (Keeps (S.unwritten system.now) (S.place system.now) (choices_of call.now)
        (S.renamed given.old) (S.renamed given.new)) (S.renamed given.new ≡ S.renamed given.old))
        (S.renamed given.new ≡ S.renamed given.old)
        (W.contents out.old) (W.contents out.new) result }
{
    if call.has("--example") {
        check_example(system, out)
    } else {
        check_files(system, call, given, out)
    }
}

fn check_example<S: System, W: Write>(system: &S, out: &mut W) -> Result<u8, Refusal>
    ensures ends { Ends shown_line (status_shown shows_sat) (λ verdict. Unit {0}) (Unit {0})
        (W.contents out.old) (W.contents out.new) result }
{
    let (cnf, answer) = (EXAMPLE_FORMULA, EXAMPLE_ANSWER);
    let checked = run_check(system.alloc(), cnf, answer, &mut None).map_err(Unshown::Fault);
    let outcome = show_line(checked, out);
    say_cause(system, &outcome);
    ended(&outcome)
}
