//! How a program begins and ends: with the words of its call, and with its exit status.
ghost use Rattle.std.specs.Prelude.{◌≡◌, ◌⊎◌, ℕ, Ok, Result, IfOk, IsErr, length, map, string_bytes};
ghost use Rattle.std.specs.Fn.{FnOnceReturnsAt};
ghost use Rattle.std.specs.Process.{exit_status};
ghost use Rattle.std.specs.Vec.Iter.{into_iter_items};
ghost use Rattle.command.specs.Calls.{IsExampleAlone, IsSaid, names_of, said_by};
ghost use Rattle.command.specs.Statuses.{Asks, IsBegun, IsEnd};
ghost use Rattle.command.specs.declared.call.Call.{Call};
ghost use Rattle.verdicts.specs.Statuses.{either};
ghost use Rattle.verdicts.specs.declared.status.Refusal.{Refusal};

use crate::about::About;
use crate::call::{Call, read_words};
use crate::operands::{misused, say_unreadable};
use crate::status::{help, version};
use crate::streams::take_closed;
use std::env;
use std::env::Args;
use std::io::{Eprint, Print};
use std::process::ExitCode;
use verdicts::Refusal;

/// Runs a program: reads its call, passes it to `run`, and returns the exit status. No file that
/// `run` opens is standard output or standard error.
pub fn run_program<F: FnOnce(&Call<'_>) -> Result<u8, Refusal>>(
    rt: &HostRuntime,
    about: &About<'_>,
    run: F,
) -> ExitCode
    requires { F.IsAlwaysCallable run }
    ensures { IsEnd (exit_status result)
        ⊎ ((call : Call) × (answer : Result ℕ Refusal) × IsExampleAlone call
        × FnOnceReturnsAt F.FnOnce run call answer × (exit_status result ≡ either answer)) }
{
    let _streams = take_closed(rt);
    match env::args(rt) {
        Ok(mut words) => {
            let _program = words.next();
            exit_code_of(answer(rt, about, words, run))
        }
        Err(fault) => {
            say_unreadable(rt);
            exit_code_of(Err(misused(rt, about, fault)))
        }
    }
}

/// Answers the words of a call: by `run`, or by what `--help` and `--version` print, with the
/// status 0.
///
/// # Errors
///
/// That of `run`; `NotRun` after a line on standard error that names the wrong word; `Failed` if
/// what `--help` or `--version` print can't be written.
fn answer<F: FnOnce(&Call<'_>) -> Result<u8, Refusal>, R: Print + Eprint + AllocGlobal>(
    rt: &R,
    about: &About<'_>,
    words: Args,
    run: F,
) -> Result<u8, Refusal>
    requires { F.IsAlwaysCallable run }
    ensures { let said = said_by (names_of about.now.options.now) (length about.now.operands.now)
        (map string_bytes (into_iter_items words)) in
        (Asks said × (result ≡ Ok 0)) ⊎ (IsErr result ⊎ ((call : Call) × IsSaid said call
        × IsExampleAlone call × FnOnceReturnsAt F.FnOnce run call result)) }
{
    match begin(rt, about, words)? {
        Some(call) => run(&call),
        None => Ok(0),
    }
}

/// Returns the call that the words make, or `None` once what `--help` or `--version` ask for is
/// printed. `--example` must be alone.
///
/// # Errors
///
/// As for `answer`.
fn begin<'a, R: Print + Eprint + AllocGlobal>(
    rt: &R,
    about: &'a About<'a>,
    words: Args,
) -> Result<Option<Call<'a>>, Refusal>
    ensures { let said = said_by (names_of about.now.options.now) (length about.now.operands.now)
        (map string_bytes (into_iter_items words)) in IfOk result (IsBegun said) }
{
    let call = match read_words(rt.alloc(), about.options, about.operands.len(), words) {
        Ok(call) => call,
        Err(misuse) => return Err(misused(rt, about, misuse)),
    };
    if call.has("--help") {
        help(rt, about)?;
        return Ok(None);
    }
    if call.has("--version") {
        version(rt, about.program())?;
        return Ok(None);
    }
    if call.has("--quiet") && call.has("--verbose") {
        return Err(misused(rt, about, "--quiet and --verbose exclude each other"));
    }
    if call.has("--example") && !call.is_one_word() {
        return Err(misused(rt, about, "--example takes no other argument"));
    }
    Ok(Some(call))
}

/// Returns the exit code of an answer.
fn exit_code_of(answer: Result<u8, Refusal>) -> ExitCode
    ensures { exit_status result ≡ either answer }
{
    match answer {
        Ok(status) => ExitCode::from(status),
        Err(refusal) => ExitCode::from(refusal.status()),
    }
}
