//! Sessions in files.
ghost use Rattle.std.specs.Prelude.{◌≡◌, IfErr, IfOk};
ghost use Rattle.command.specs.Inputs.{bytes_named, source_bytes_left};
ghost use Rattle.session_check.specs.Lines.{alone, both};
ghost use Rattle.session_check_main.specs.Sessions.{EndsSession};
ghost use Rattle.verdicts.specs.declared.status.Refusal.TheVariants.{NotRun};

use command::{Refusal, Source, System, open_file, open_inputs};
use session_check::{Counts, RunFault, check_alone, check_session};
use std::io;
use std::io::Write;
use verdicts::ended;

/// Checks a session that a proof tells by itself. Returns the exit status.
///
/// # Errors
///
/// `NotRun` if the proof can't be opened, with nothing written; `Failed` with the fault of the run,
/// after the lines of the queries before it. Standard error has the reason.
#[tactic(auto, using(crate::proofs::Ending::ends_session))]
pub(crate) fn check_proof<S: System, W: Write>(
    system: &S,
    name: &str,
    out: &mut W,
) -> Result<u8, Refusal>
    ensures ends { EndsSession
        (alone (bytes_named (S.file_bytes system.now) (S.input_bytes system.now) name.now))
        (W.contents out.old) (W.contents out.new) result }
{
    let proof = open(system, name)?;
    let outcome = check_alone(system.alloc(), proof, out);
    say_end(system, &outcome, name, name);
    ended(&outcome)
}

/// Checks an interaction by its proof; both are opened before anything is read. Returns the exit
/// status.
///
/// # Errors
///
/// As [`check_proof`].
#[tactic(auto, using(crate::proofs::Ending::ends_session))]
pub(crate) fn check_interaction<S: System, W: Write>(
    system: &S,
    interaction: &str,
    proof: &str,
    out: &mut W,
) -> Result<u8, Refusal>
    ensures ends { EndsSession
        (both (bytes_named (S.file_bytes system.now) (S.input_bytes system.now) interaction.now)
        (bytes_named (S.file_bytes system.now) (S.input_bytes system.now) proof.now))
        (W.contents out.old) (W.contents out.new) result }
{
    let (told, proved) = open_inputs(system, interaction, proof).ok_or(Refusal::NotRun)?;
    let outcome = check_session(system.alloc(), told.file, proved.file, out);
    say_end(system, &outcome, interaction, proof);
    ended(&outcome)
}

/// Opens a file, or takes standard input.
///
/// # Errors
///
/// `NotRun` if it can't be opened; standard error has the reason.
fn open<S: System>(system: &S, name: &str) -> Result<Source<S::File, S::Input>, Refusal>
    ensures err { IfErr result (λ refusal. refusal ≡ NotRun) }
    ensures bytes { IfOk result (λ source. source_bytes_left S.File.remaining S.Input.remaining source
        ≡ bytes_named (S.file_bytes system.now) (S.input_bytes system.now) name.now) }
{
    if name == "-" {
        match system.standard_input() {
            Ok(input) => Ok(Source::StandardInput(input)),
            Err(fault) => Err(say_closed(system, fault)),
        }
    } else {
        match open_file(system, name) {
            Some(input) => Ok(input.file),
            None => Err(Refusal::NotRun),
        }
    }
}

/// Prints why standard input can't be read, and returns `NotRun`.
fn say_closed<S: System>(system: &S, why: io::Error) -> Refusal
    ensures { result ≡ NotRun }
{
    let _ = eprintln!(system; "cannot open -");
    let _ = eprintln!(system; "{why}");
    Refusal::NotRun
}

/// Prints why a run was not brought to its end, if it was not, and in which file the fault is.
fn say_end<S: System>(
    system: &S,
    outcome: &Result<Counts, RunFault>,
    interaction: &str,
    proof: &str,
) {
    let Err(fault) = outcome else {
        return;
    };
    let _ = eprintln!(system; "{fault}");
    match fault {
        RunFault::Interaction(_) | RunFault::Unproved { .. } => say_file(system, interaction),
        RunFault::Proof(_) | RunFault::Line { .. } | RunFault::NoAnswer { .. } => {
            say_file(system, proof)
        }
        RunFault::OutOfMemory | RunFault::Write(_) => {}
    }
}

fn say_file<S: System>(system: &S, name: &str) {
    let _ = if name == "-" {
        eprintln!(system; "in standard input")
    } else {
        eprintln!(system; "in {name}")
    };
}
