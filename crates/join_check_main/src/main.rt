//! The command `join_check CNF RECEIPTS [--cubes FILE]`: checks that receipts show together that no
//! assignment satisfies a formula, and prints the verdict.
//!
//! With `--cubes` the receipts are those of the parts of the formula, which is split into the cubes
//! of a file. `--example` checks a small fixed example. The name `-` is standard input.
#![tactic(auto)]

ghost use Rattle.join_check.specs.Verdicts.{shown_line, shows_unsat};
ghost use Rattle.join_check_main.specs.Meaning.{Means};
ghost use Rattle.verdicts.specs.Statuses.{Ends, status_shown};

mod about;
mod files;

use crate::about::ABOUT;
use crate::files::{check_formula, check_parts};
use command::{Call, EXAMPLE_FORMULA, Host, Refusal, System, input_names, run_program, say_cause};
use join_check::run_pieces;
use std::io;
use std::io::Write;
use std::process::ExitCode;
use verdicts::{Unshown, ended, show_line};

/// The formula carries to three clauses, which are refuted: 1, not 1 or 2, not 1 or not 2.
const EXAMPLE_RECEIPTS: &[u8] =
    b"carries sha256 bdcfed14408fb3f368fe82437336d283a9dedc953677460e9c7317724c5e1e58 sha256 5b9a41d874a0fe67c37a54d9363f7f582bd27bd7c12e48416edd0a10d736da32\nrefuted sha256 5b9a41d874a0fe67c37a54d9363f7f582bd27bd7c12e48416edd0a10d736da32\n";

fn main(rt: HostRuntime) -> ExitCode {
    let host = Host::new(&rt);
    run_program(&rt, &ABOUT, |call| run(&host, call, &mut io::writer(&rt)))
}

/// Runs a call in a system, with `out` as its standard output.
fn run<S: System, W: Write>(system: &S, call: &Call<'_>, out: &mut W) -> Result<u8, Refusal>
    ensures ends { Ends shown_line (status_shown shows_unsat)
        (Means (S.file_bytes system.now) (S.input_bytes system.now) call.now) (Unit {0})
        (W.contents out.old) (W.contents out.new) result }
{
    if call.has("--example") {
        return check_example(system, out);
    }
    let names = input_names(system, &ABOUT, call)?;
    match call.value("--cubes") {
        Some(cubes) => check_parts(system, names, cubes, out),
        None => check_formula(system, names, out),
    }
}

fn check_example<S: System, W: Write>(system: &S, out: &mut W) -> Result<u8, Refusal>
    ensures ends { Ends shown_line (status_shown shows_unsat) (λ verdict. Unit {0}) (Unit {0})
        (W.contents out.old) (W.contents out.new) result }
{
    let (cnf, receipts) = (EXAMPLE_FORMULA, EXAMPLE_RECEIPTS);
    let checked = run_pieces(system.alloc(), cnf, receipts).map_err(Unshown::Fault);
    let outcome = show_line(checked, out);
    say_cause(system, &outcome);
    ended(&outcome)
}
