//! The command `lrat_check CNF LRAT [--ids WAY] [--holds FILE] [--receipt FILE]`: checks an LRAT
//! proof against a formula, and prints the verdict.
//!
//! With `--holds` the proof is one piece of a proof, and a file has its target clauses. With
//! `--receipt` a file gets a receipt of what was shown.
//! `--example` checks a small fixed example. The name `-` is standard input.
//! What `RUST_LOG` asks for, as `RUST_LOG=info`, is logged to standard error; else nothing is.
#![tactic(auto)]

ghost use Rattle.std.specs.Prelude.{◌≡◌, ◌≢◌, codes};
ghost use Rattle.command.specs.Calls.{choices_of, value_given};
ghost use Rattle.lrat_check_main.specs.Meaning.{Means};
ghost use Rattle.receipt_files.specs.Named.{Keeps};
ghost use Rattle.verdicts.specs.Pieces.{piece_line, shows_wanted};
ghost use Rattle.verdicts.specs.Statuses.{Ends, status_shown};
ghost use Rattle.verdicts.specs.declared.piece.PieceVerdict.TheVariants.{Carried};

mod about;
mod fault;
mod files;
mod piece;

use crate::about::ABOUT;
use crate::files::{as_piece, check_files};
use crate::piece::check_piece;
use command::{
    Call, EXAMPLE_FORMULA, EXAMPLE_LRAT, Host, HostNames, OutputSystem, Refusal, System,
    run_program, say_cause,
};
use lrat_check::run_check;
use std::io;
use std::io::Write;
use std::process::ExitCode;
use verdicts::{ended, show_line};

fn main(rt: HostRuntime) -> ExitCode {
    let host = Host::new(&rt);
    run_program(&rt, &ABOUT, |call| {
        run(
            &host,
            call,
            &mut HostNames::new(&host),
            &mut io::writer(&rt),
        )
    })
}

/// Runs a call in a system, with `out` as its standard output.
fn run<S: OutputSystem, W: Write>(
    system: &S,
    call: &Call<'_>,
    given: &mut S::Names,
    out: &mut W,
) -> Result<u8, Refusal>
    ensures ends { Ends piece_line (status_shown shows_wanted)
        (Means (S.file_bytes system.now) (S.input_bytes system.now) call.now
        (value_given (choices_of call.now) (codes "--holds"))
        (Keeps (S.unwritten system.now) (S.place system.now) (choices_of call.now)
        (S.renamed given.old) (S.renamed given.new)) (S.renamed given.new ≡ S.renamed given.old))
        (S.renamed given.new ≡ S.renamed given.old)
        (W.contents out.old) (W.contents out.new) result }
{
    if call.has("--example") {
        return check_example(system, out);
    }
    match call.value("--holds") {
        Some(holds) => check_piece(system, holds, call, given, out),
        None => check_files(system, call, given, out),
    }
}

fn check_example<S: System, W: Write>(system: &S, out: &mut W) -> Result<u8, Refusal>
    ensures ends { Ends piece_line (status_shown shows_wanted) (λ verdict. verdict ≢ Carried)
        (Unit {0}) (W.contents out.old) (W.contents out.new) result }
{
    let (cnf, proof) = (EXAMPLE_FORMULA, EXAMPLE_LRAT);
    let checked = as_piece(run_check(system.alloc(), cnf, proof, None, &mut None));
    let outcome = show_line(checked, out);
    say_cause(system, &outcome);
    ended(&outcome)
}
