//! The command `hint_check CNF LRAT [--ids WAY]`: checks lines of hints over a formula, and prints
//! the verdict.
//!
//! `--example` checks a small fixed example. The name `-` is standard input.
#![tactic(auto)]

ghost use Rattle.hint_check_main.specs.Meaning.{Means};
ghost use Rattle.verdicts.specs.Statuses.{Ends, status_shown};
ghost use Rattle.verdicts.specs.Verdicts.{shown_line, shows_unsat};

mod about;
mod files;

use crate::about::ABOUT;
use crate::files::check_files;
use command::{Call, EXAMPLE_FORMULA, EXAMPLE_LRAT, Host, Refusal, System, run_program, say_cause};
use hint_check::run_check;
use std::io;
use std::io::Write;
use std::process::ExitCode;
use verdicts::{Unshown, ended, show_line};

fn main(rt: HostRuntime) -> ExitCode {
    let host = Host::new(&rt);
    run_program(&rt, &ABOUT, |call| run(&host, call, &mut io::writer(&rt)))
}

/// Runs a call in a system, with `out` as its standard output.
fn run<S: System, W: Write>(system: &S, call: &Call<'_>, out: &mut W) -> Result<u8, Refusal>
    ensures ends { Ends shown_line (status_shown shows_unsat)
        (Means (S.file_bytes system.now) (S.input_bytes system.now) call.now) (Unit {0})
        (W.contents out.old) (W.contents out.new) result }
{
    if call.has("--example") {
        check_example(system, out)
    } else {
        check_files(system, call, out)
    }
}

fn check_example<S: System, W: Write>(system: &S, out: &mut W) -> Result<u8, Refusal>
    ensures ends { Ends shown_line (status_shown shows_unsat) (λ verdict. Unit {0}) (Unit {0})
        (W.contents out.old) (W.contents out.new) result }
{
    let (cnf, lrat) = (EXAMPLE_FORMULA, EXAMPLE_LRAT);
    let checked = run_check(system.alloc(), cnf, lrat, None, &mut None).map_err(Unshown::Fault);
    let outcome = show_line(checked, out);
    say_cause(system, &outcome);
    ended(&outcome)
}
