//! The command `circuit_check never CIRCUIT` and `circuit_check same CIRCUIT OTHER`, with
//! `--proof PROOF`, `--answer ANSWER` or `--formula FILE`: checks a proof that a circuit is never
//! true, or that two circuits are the same, and says it in one line; checks an answer that this is
//! false, and says it with the input and the outputs; or writes the formula that a solver is to
//! refute. Inputs and outputs of two circuits are paired by their names; by their positions, if
//! there are none, or with `--by-position`. The command `circuit_check safe MACHINE INVARIANT` does
//! the same for a machine that an invariant shows to be safe, with three proofs and three formulas.
//! The command `circuit_check safe MACHINE --stimulus STIMULUS` checks by a simulation that a
//! machine is not safe.
//!
//! `--example` checks a small fixed example, `--help` says how the program is called, and
//! `--version` of which version it is.
#![tactic(auto)]

ghost use Rattle.std.specs.Prelude.{◌≡◌, IfErr, codes, false, true};
ghost use Rattle.circuit_check_main.specs.Asked.{writes_formula};
ghost use Rattle.circuit_check_main.specs.Meaning.{Leaves, Means, shown_status, shown_text};
ghost use Rattle.command.specs.Calls.{choices_of, is_given};
ghost use Rattle.verdicts.specs.Statuses.{Ends};

mod about;
mod claimed;
mod example;
mod files;
mod formulas;
mod names;
mod never;
mod options;
mod parts;
mod reached;
mod safe;
mod same;

use crate::about::ABOUT;
use crate::claimed::{Claimed, claimed_by};
use crate::example::check_example;
use crate::never::run_of_never;
use crate::reached::run_of_reached;
use crate::safe::run_of_safe;
use crate::same::run_of_same;
use command::{Call, Host, HostNames, OutputSystem, Refusal, run_program};
use std::io;
use std::io::Write;
use std::process::ExitCode;

fn main(rt: HostRuntime) -> ExitCode {
    let host = Host::new(&rt);
    run_program(&rt, &ABOUT, |call| {
        run(
            &host,
            call,
            &mut HostNames::new(&host),
            &mut io::writer(&rt),
        )
    })
}

/// Runs a call in a system, with `out` as its standard output.
///
/// # Errors
///
/// `NotRun` if the words of the call are wrong or a file can't be opened; `Failed` if an input is
/// malformed or can't be read, a proof is rejected, or an output can't be written. Standard error
/// has the reason.
fn run<S: OutputSystem, W: Write>(
    system: &S,
    call: &Call<'_>,
    given: &mut S::Names,
    out: &mut W,
) -> Result<u8, Refusal>
    ensures ends { Ends shown_text shown_status
        (Means (S.file_bytes system.now) (S.unwritten system.now) (S.place system.now)
        (S.renamed given.old) (S.renamed given.new) call.now)
        (Unit {0}) (W.contents out.old) (W.contents out.new) result }
    ensures silent { is_given (choices_of call.now) (codes "--example") ≡ false
        → writes_formula (choices_of call.now) ≡ true → out.new ≡ out.old }
    ensures kept { writes_formula (choices_of call.now) ≡ false
        → S.renamed given.new ≡ S.renamed given.old }
    ensures unnamed { IfErr result
        (Leaves (S.file_bytes system.now) (S.unwritten system.now) (S.place system.now)
        (S.renamed given.old) (S.renamed given.new) call.now) }
{
    if call.has("--example") {
        return check_example(system, out);
    }
    let claimed = claimed_by(system, call)?;
    match claimed {
        Claimed::Never(circuit) => run_of_never(system, call, circuit, given, out),
        Claimed::Same(pair) => run_of_same(system, call, pair, given, out),
        Claimed::Safe(names) => run_of_safe(system, call, names, given, out),
        Claimed::Reached(machine) => run_of_reached(system, call, machine, out),
    }
}
