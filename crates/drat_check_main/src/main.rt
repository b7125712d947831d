//! The command `drat_check CNF PROOF [--drat] [--frat] [--lpr] [--lrat FILE] [--binary]
//! [--trim FILE] [--core FILE] [--holds FILE] [--receipt FILE]`: checks a DRAT, DPR, FRAT or LPR
//! proof against a formula, and says in one line what it shows.
//!
//! Which of them the proof is, is detected from its first bytes, or given by `--drat`, `--frat` or
//! `--lpr`. With `--lrat` the lines that the checker of LRAT proofs accepted are written to a file,
//! with `--binary` in the binary form, with `--trim` the steps of DRAT that they are, and with
//! `--core` the clauses of the formula that they use. With `--holds` the proof is one piece of a
//! proof, which must derive the target clauses of a file. With `--receipt` a file gets a receipt of
//! what was shown. `--example` checks a small fixed example, `--help` says how the program is
//! called, and `--version` of which version it is. The name `-` of a file that is read stands for
//! standard input. What `RUST_LOG` asks for, as `RUST_LOG=info`, is logged to standard error; else
//! nothing is.
#![tactic(auto)]

ghost use Rattle.std.specs.Prelude.{◌≡◌, None, codes, false, true, IfErr, IfOk};
ghost use Rattle.command.specs.Calls.{choices_of, is_given};
ghost use Rattle.drat_check_main.specs.Shown.{Leaves, Shows};
ghost use Rattle.verdicts.specs.Pieces.{piece_line, shows_wanted};
ghost use Rattle.verdicts.specs.Statuses.{Ends, status_shown};

mod about;
mod example;
mod fault;
mod files;
mod outputs;
mod piece;
mod shown;

use crate::about::ABOUT;
use crate::example::check_example;
use crate::files::check_files;
use crate::piece::check_piece;
use command::{Call, Host, HostNames, OutputSystem, Refusal, input_names, misused, run_program};
use drat_check::ProofFormat;
use std::io;
use std::io::Write;
use std::process::ExitCode;

fn main(rt: HostRuntime) -> ExitCode {
    let host = Host::new(&rt);
    run_program(&rt, &ABOUT, |call| {
        run(
            &host,
            call,
            &mut HostNames::new(&host),
            &mut io::writer(&rt),
        )
    })
}

/// Runs a call in a system, with `out` as its standard output.
#[tactic(auto, using(crate::proofs::Showing::refused))]
fn run<S: OutputSystem, W: Write>(
    system: &S,
    call: &Call<'_>,
    given: &mut S::Names,
    out: &mut W,
) -> Result<u8, Refusal>
    ensures ends { Ends piece_line (status_shown shows_wanted)
        (Shows (S.unwritten system.now) (S.place system.now) call.now
        (S.renamed given.old) (S.renamed given.new)
        (S.file_bytes system.now) (S.input_bytes system.now))
        (IfErr result (Leaves (S.unwritten system.now) (S.place system.now) call.now
        (S.renamed given.old) (S.renamed given.new)))
        (W.contents out.old) (W.contents out.new) result }
{
    if call.has("--example") {
        return check_example(system, out);
    }
    let format = format_of(system, call)?;
    let names = input_names(system, &ABOUT, call)?;
    match call.value("--holds") {
        Some(holds) => check_piece(system, names, holds, format, call, given, out),
        None => check_files(system, names, format, call, given, out),
    }
}

/// Returns the format of the proof that a call names.
///
/// # Errors
///
/// `NotRun` if options exclude each other.
fn format_of<S: OutputSystem>(system: &S, call: &Call<'_>) -> Result<ProofFormat, Refusal>
    ensures trim { IfOk result (λ format. is_given (choices_of call.now) (codes "--holds") ≡ true
        → is_given (choices_of call.now) (codes "--trim") ≡ false) }
{
    let Some(format) = named_format(call) else {
        let why = "--drat, --frat and --lpr exclude each other";
        return Err(misused(system, &ABOUT, why));
    };
    match misplaced(call) {
        None => Ok(format),
        Some(why) => Err(misused(system, &ABOUT, why)),
    }
}

/// Returns the format that the options of a call name, or `None` if they name several.
fn named_format(call: &Call<'_>) -> Option<ProofFormat> {
    match (call.has("--drat"), call.has("--frat"), call.has("--lpr")) {
        (false, false, false) => Some(ProofFormat::Told),
        (true, false, false) => Some(ProofFormat::Drat),
        (false, true, false) => Some(ProofFormat::Frat),
        (false, false, true) => Some(ProofFormat::Lpr),
        _ => None,
    }
}

/// Returns why an option of a call does not go with the others, if one does not.
fn misplaced(call: &Call<'_>) -> Option<&'static str>
    ensures trim { result ≡ None → is_given (choices_of call.now) (codes "--holds") ≡ true
        → is_given (choices_of call.now) (codes "--trim") ≡ false }
{
    if call.has("--binary") && call.value("--lrat").is_none() {
        return Some("--binary says how --lrat is written");
    }
    if call.has("--holds") && call.has("--trim") {
        return Some("--holds excludes --trim");
    }
    if call.has("--holds") && call.has("--lrat") && call.has("--core") {
        return Some("with --holds, --lrat and --core exclude each other");
    }
    if call.has("--holds") && call.has("--core") && call.has("--receipt") {
        return Some("with --holds, --core and --receipt exclude each other");
    }
    None
}
