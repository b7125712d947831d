//! The command `varisat_check CNF PROOF [LRAT]`: checks a proof against a formula, and prints the
//! verdict.
//!
//! With a third file the checked steps are written to it as lines of hints. Without arguments it
//! checks a small fixed example. The name `-` of an input is standard input.
//! What `RUST_LOG` asks for, as `RUST_LOG=info`, is logged to standard error; else nothing is.
#![tactic(auto)]

ghost use Rattle.std.specs.Prelude.{◌≡◌, string_bytes};
ghost use Rattle.command.specs.Calls.{operands_of};
ghost use Rattle.varisat_check.specs.Verdicts.{shown_line, shows_unsat};
ghost use Rattle.varisat_check_main.specs.Meaning.{Means, NamesHints};
ghost use Rattle.verdicts.specs.Statuses.{Ends, status_shown};

mod about;
mod example;
mod files;
mod hints;

use crate::about::ABOUT;
use crate::example::check_example;
use crate::files::check_files;
use crate::hints::write_hints;
use command::{Call, Host, HostNames, InputNames, OutputSystem, Refusal, run_program, unnamed};
use std::io;
use std::io::Write;
use std::process::ExitCode;

fn main(rt: HostRuntime) -> ExitCode {
    let host = Host::new(&rt);
    run_program(&rt, &ABOUT, |call| {
        run(
            &host,
            call,
            &mut HostNames::new(&host),
            &mut io::writer(&rt),
        )
    })
}

/// Runs a call in a system, with `out` as its standard output.
///
/// # Errors
///
/// `NotRun` if an operand is missing or a file can't be opened; `Failed` if the formula can't be
/// read, the proof is rejected, or an output can't be written. Standard error has the reason.
fn run<S: OutputSystem, W: Write>(
    system: &S,
    call: &Call<'_>,
    given: &mut S::Names,
    out: &mut W,
) -> Result<u8, Refusal>
    ensures ends { Ends shown_line (status_shown shows_unsat)
        (λ verdict. Means (S.file_bytes system.now) (S.input_bytes system.now) call.now verdict
        × NamesHints (S.file_bytes system.now) (S.input_bytes system.now) (S.unwritten system.now)
        (S.place system.now) (operands_of call.now) (S.renamed given.old) (S.renamed given.new))
        (S.renamed given.new ≡ S.renamed given.old)
        (W.contents out.old) (W.contents out.new) result }
{
    match call.operands.as_slice() {
        [] => check_example(system, call, out),
        [cnf, proof] => check_files(system, names_of(cnf, proof), call, out),
        [cnf, proof, lrat] => {
            write_hints(
                system,
                names_of(cnf, proof),
                lrat.as_str(),
                call,
                given,
                out,
            )
        }
        operands => Err(unnamed(system, &ABOUT, operands.len())),
    }
}

fn names_of<'a>(cnf: &'a String, proof: &'a String) -> InputNames<'a>
    ensures cnf { result.cnf.now ≡ string_bytes cnf.now }
    ensures other { result.other.now ≡ string_bytes proof.now }
{
    InputNames {
        cnf: cnf.as_str(),
        other: proof.as_str(),
    }
}
