//! The command `session_check [INTERACTION] PROOF [--alone]`: checks the answers of a session of
//! queries to a solver as they come, and prints a line for each query.
//!
//! `--example` checks a small fixed example. The name `-` is standard input.
#![tactic(auto)]

ghost use Rattle.session_check.specs.Lines.{Texts};
ghost use Rattle.session_check_main.specs.Sessions.{EndsCall, EndsSession};

mod about;
mod files;

use crate::about::ABOUT;
use crate::files::{check_interaction, check_proof};
use command::{Call, Host, Refusal, System, misused, run_program, say_cause};
use session_check::check_session;
use std::io;
use std::io::Write;
use std::process::ExitCode;
use verdicts::ended;

/// 1 or 2 can be had, but not without 1 and 2.
const EXAMPLE: &[u8] = b"p icnf\ni 1 2 0\nq -1 0\ns SATISFIABLE\nq -1 -2 0\ns UNSATISFIABLE\n";

const EXAMPLE_PROOF: &[u8] = b"p lidrup\ni 1 1 2 0\nq -1 0\ns SATISFIABLE\nm -1 2 0\nq -1 -2 0\n\
s UNSATISFIABLE\nu -1 -2 0 1 0\n";

fn main(rt: HostRuntime) -> ExitCode {
    let host = Host::new(&rt);
    run_program(&rt, &ABOUT, |call| run(&host, call, &mut io::writer(&rt)))
}

/// Runs a call in a system. The lines of the queries are written to `out`, and so are those of the
/// example.
///
/// # Errors
///
/// `NotRun` if the operands are wrong or a file can't be opened; `Failed` with a fault of the
/// session, after the lines of the queries before it. Standard error has the reason.
fn run<S: System, W: Write>(system: &S, call: &Call<'_>, out: &mut W) -> Result<u8, Refusal>
    ensures ends { EndsCall (S.file_bytes system.now) (S.input_bytes system.now) call.now
        (W.contents out.old) (W.contents out.new) result }
{
    if call.has("--example") {
        return check_example(system, out);
    }
    match call.operands.as_slice() {
        [proof] if call.has("--alone") => check_proof(system, proof.as_str(), out),
        [interaction, proof] if !call.has("--alone") => {
            check_interaction(system, interaction.as_str(), proof.as_str(), out)
        }
        _ => {
            let wanted = "INTERACTION and PROOF, or --alone and PROOF";
            Err(misused(system, &ABOUT, wanted))
        }
    }
}

/// Checks the example. Returns the exit status.
fn check_example<S: System, W: Write>(system: &S, out: &mut W) -> Result<u8, Refusal>
    ensures ends { (known : Texts)
        × EndsSession known (W.contents out.old) (W.contents out.new) result }
{
    let outcome = check_session(system.alloc(), EXAMPLE, EXAMPLE_PROOF, out);
    say_cause(system, &outcome);
    ended(&outcome)
}
