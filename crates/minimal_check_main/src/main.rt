//! The command `minimal_check CORE PROOF MODELS [--drat] [--frat] [--lpr]`: checks that no
//! assignment satisfies a formula and that each of its clauses is needed for that, and says it in
//! one line.
//!
//! `--example` checks a small fixed example, `--help` says how the program is called, and
//! `--version` of which version it is. The name `-` of the core or of the proof stands for standard
//! input. What `RUST_LOG` asks for, as `RUST_LOG=info`, is logged to standard error; else nothing
//! is.
#![tactic(auto)]

ghost use Rattle.follows_check.specs.Minimal.{minimal_line, shows_minimal};
ghost use Rattle.minimal_check_main.specs.Meaning.{Means};
ghost use Rattle.verdicts.specs.Statuses.{Ends, status_shown};

mod about;
mod example;
mod files;

use crate::about::ABOUT;
use crate::example::check_example;
use crate::files::check_files;
use command::{Call, Host, InputNames, Refusal, System, misused, run_program, unnamed};
use follows_check::ProofFormat;
use std::io;
use std::io::Write;
use std::process::ExitCode;

fn main(rt: HostRuntime) -> ExitCode {
    let host = Host::new(&rt);
    run_program(&rt, &ABOUT, |call| run(&host, call, &mut io::writer(&rt)))
}

/// Runs a call in a system, with `out` as its standard output.
fn run<S: System, W: Write>(system: &S, call: &Call<'_>, out: &mut W) -> Result<u8, Refusal>
    ensures ends { Ends minimal_line (status_shown shows_minimal)
        (Means (S.file_bytes system.now) (S.input_bytes system.now) call.now)
        (Unit {0}) (W.contents out.old) (W.contents out.new) result }
{
    if call.has("--example") {
        return check_example(system, out);
    }
    let format = match (call.has("--drat"), call.has("--frat"), call.has("--lpr")) {
        (false, false, false) => ProofFormat::Told,
        (true, false, false) => ProofFormat::Drat,
        (false, true, false) => ProofFormat::Frat,
        (false, false, true) => ProofFormat::Lpr,
        _ => {
            let why = "--drat, --frat and --lpr exclude each other";
            return Err(misused(system, &ABOUT, why));
        }
    };
    match call.operands.as_slice() {
        [core, proof, models] => {
            let (cnf, other) = (core.as_str(), proof.as_str());
            let names = InputNames { cnf, other };
            check_files(system, names, models.as_str(), format, call, out)
        }
        operands => Err(unnamed(system, &ABOUT, operands.len())),
    }
}
