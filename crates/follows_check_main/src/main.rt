//! The command `follows_check FORMULA CLAIMS [PROOF] [--formula FILE] [--answer] [--drat] [--frat]
//! [--lpr]`: checks a proof that all claims follow from a formula, or an answer that one does not,
//! and says in one line what it shows.
//!
//! With `--formula` it writes the formula that a solver is to be given, and nothing else. With
//! `--answer` the answer of the solver stands in place of the proof. `--example` checks a small
//! fixed example, `--help` says how the program is called, and `--version` of which version it is.
//! The name `-` of one file that is read, but not of the claims, stands for standard input. What
//! `RUST_LOG` asks for, as `RUST_LOG=info`, is logged to standard error; else nothing is.
#![tactic(auto)]

ghost use Rattle.std.specs.Prelude.{◌≡◌, ◌⊎◌, IfErr, IfOk};
ghost use Rattle.follows_check.specs.Verdicts.{shown_line, status_of};
ghost use Rattle.follows_check_main.specs.Meaning.{Means};
ghost use Rattle.follows_check_main.specs.Questions.{AsksQuestion, EndsAsked};
ghost use Rattle.verdicts.specs.Statuses.{Ends};

mod about;
mod example;
mod fault;
mod files;
mod question;

use crate::about::ABOUT;
use crate::example::check_example;
use crate::files::{Names, check_answer, check_proof};
use crate::question::write_formula;
use command::{Call, Host, HostNames, OutputSystem, Refusal, misused, run_program, unnamed};
use follows_check::ProofFormat;
use std::io;
use std::io::Write;
use std::process::ExitCode;

fn main(rt: HostRuntime) -> ExitCode {
    let host = Host::new(&rt);
    run_program(&rt, &ABOUT, |call| {
        run(
            &host,
            call,
            &mut HostNames::new(&host),
            &mut io::writer(&rt),
        )
    })
}

/// Runs a call in a system, with `out` as its standard output.
fn run<S: OutputSystem, W: Write>(
    system: &S,
    call: &Call<'_>,
    given: &mut S::Names,
    out: &mut W,
) -> Result<u8, Refusal>
    ensures ends { EndsAsked call.now (λ file. AsksQuestion (S.file_bytes system.now)
        (S.input_bytes system.now) (S.place system.now) (S.unwritten system.now) call.now file
        (S.renamed given.old) (S.renamed given.new)) out.old out.new result
        ⊎ Ends shown_line status_of (λ verdict. (S.renamed given.new ≡ S.renamed given.old)
        × Means (S.file_bytes system.now) (S.input_bytes system.now) call.now verdict)
        (S.renamed given.new ≡ S.renamed given.old)
        (W.contents out.old) (W.contents out.new) result }
{
    if call.has("--example") {
        return check_example(system, out);
    }
    let format = format_of(system, call)?;
    match call.value("--formula") {
        Some(file) => ask(system, call, format, file, given),
        None => check(system, call, format, out),
    }
}

/// Returns the format of the proof that a call names.
///
/// # Errors
///
/// `NotRun` if options exclude each other.
fn format_of<S: OutputSystem>(system: &S, call: &Call<'_>) -> Result<ProofFormat, Refusal> {
    let format = match (call.has("--drat"), call.has("--frat"), call.has("--lpr")) {
        (false, false, false) => ProofFormat::Told,
        (true, false, false) => ProofFormat::Drat,
        (false, true, false) => ProofFormat::Frat,
        (false, false, true) => ProofFormat::Lpr,
        _ => {
            let why = "--drat, --frat and --lpr exclude each other";
            return Err(misused(system, &ABOUT, why));
        }
    };
    if call.has("--answer") && format != ProofFormat::Told {
        let why = "--answer excludes --drat, --frat and --lpr";
        return Err(misused(system, &ABOUT, why));
    }
    Ok(format)
}

/// Runs a call with `--formula`: it writes this file.
fn ask<S: OutputSystem>(
    system: &S,
    call: &Call<'_>,
    format: ProofFormat,
    file: &str,
    given: &mut S::Names,
) -> Result<u8, Refusal>
    ensures asked { IfOk result (λ status. (status ≡ 0)
        × AsksQuestion (S.file_bytes system.now) (S.input_bytes system.now) (S.place system.now)
        (S.unwritten system.now) call.now file.now (S.renamed given.old) (S.renamed given.new)) }
    ensures unnamed { IfErr result (λ status. S.renamed given.new ≡ S.renamed given.old) }
{
    match call.operands.as_slice() {
        [formula, claims] => {
            if call.has("--answer") || format != ProofFormat::Told {
                return Err(misused(system, &ABOUT, "with --formula nothing is checked"));
            }
            let names = Names::of(formula.as_str(), claims.as_str(), "");
            write_formula(system, names, file, given)
        }
        [_, _, _] => Err(misused(system, &ABOUT, "with --formula nothing is checked")),
        operands => Err(unnamed(system, &ABOUT, operands.len())),
    }
}

/// Runs a call without `--formula`: it checks a proof or an answer.
fn check<S: OutputSystem, W: Write>(
    system: &S,
    call: &Call<'_>,
    format: ProofFormat,
    out: &mut W,
) -> Result<u8, Refusal>
    ensures ends { Ends shown_line status_of
        (Means (S.file_bytes system.now) (S.input_bytes system.now) call.now) (Unit {0})
        (W.contents out.old) (W.contents out.new) result }
{
    let [formula, claims, proof] = call.operands.as_slice() else {
        return Err(unnamed(system, &ABOUT, call.operands.len()));
    };
    let names = Names::of(formula.as_str(), claims.as_str(), proof.as_str());
    if call.has("--answer") {
        return check_answer(system, names, out);
    }
    check_proof(system, names, format, call, out)
}
