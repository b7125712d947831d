//! A formula, claims and a proof or an answer, in files.
ghost use Rattle.std.specs.Prelude.{◌≡◌, IfOk, IfSome};
ghost use Rattle.command.specs.Held.{held_in};
ghost use Rattle.command.specs.Inputs.{input_bytes_left};
ghost use Rattle.follows_check.specs.Verdicts.{ended_of, shown_line, status_of};
ghost use Rattle.follows_check_main.specs.Meaning.{MeansOf};
ghost use Rattle.verdicts.specs.Statuses.{Ends};

use crate::about::ABOUT;
use crate::fault::{place_of, say_verdict, unread_answer, unread_claims, unread_formula};
use command::{
    Call, FaultPlace, HeldBytes, InputNames, InputOf, Refusal, System, hold_file, open_file,
    open_inputs, progress_of, say_fault, warn_of_header,
};
use follows_check::{HeaderLies, ProofFormat, RunFault, Verdict, ended, run_answer, run_proof};
use std::io::{Eprint, Write};
use verdicts::{Unshown, show_line};

/// The names of the files that a call reads.
#[derive(Clone, Copy)]
pub(crate) struct Names<'a> {
    pub(crate) inputs: InputNames<'a>,
    pub(crate) claims: &'a str,
}

impl<'a> Names<'a> {
    pub(crate) fn of(formula: &'a str, claims: &'a str, proof: &'a str) -> Names<'a>
        ensures formula { result.inputs.cnf.now ≡ formula.now }
        ensures claims { result.claims.now ≡ claims.now }
    {
        let inputs = InputNames {
            cnf: formula,
            other: proof,
        };
        Names { inputs, claims }
    }
}

/// Checks a proof. All files are opened before anything is read, and the formula and the claims are
/// read whole before the proof is.
pub(crate) fn check_proof<S: System, W: Write>(
    system: &S,
    names: Names<'_>,
    format: ProofFormat,
    call: &Call<'_>,
    out: &mut W,
) -> Result<u8, Refusal>
    ensures ends { Ends shown_line status_of
        (MeansOf (S.file_bytes system.now) (S.input_bytes system.now)
        names.entry.inputs.cnf.now names.entry.claims.now) (Unit {0})
        (W.contents out.old) (W.contents out.new) result }
{
    let (cnf, proof) = open_inputs(system, names.inputs.cnf, names.inputs.other).ok_or(
        Refusal::NotRun,
    )?;
    let claims = open_file(system, names.claims).ok_or(Refusal::NotRun)?;
    let (cnf, claims) = hold_question(system, names, cnf, claims)?;
    let progress = &progress_of(system, &ABOUT, call);
    let proof = proof.told(system, progress);
    let mut lies = HeaderLies::none();
    let checked = run_proof(
        progress,
        system.alloc(),
        cnf,
        claims,
        proof,
        format,
        &mut lies,
    );
    let outcome = show_line(checked.map_err(Unshown::Fault), out);
    end(system, names, format, &outcome, lies)
}

/// Checks an answer. All files are opened before anything is read, and each is read whole.
pub(crate) fn check_answer<S: System, W: Write>(
    system: &S,
    names: Names<'_>,
    out: &mut W,
) -> Result<u8, Refusal>
    ensures ends { Ends shown_line status_of
        (MeansOf (S.file_bytes system.now) (S.input_bytes system.now)
        names.entry.inputs.cnf.now names.entry.claims.now) (Unit {0})
        (W.contents out.old) (W.contents out.new) result }
{
    let (cnf, answer) = open_inputs(system, names.inputs.cnf, names.inputs.other).ok_or(
        Refusal::NotRun,
    )?;
    let claims = open_file(system, names.claims).ok_or(Refusal::NotRun)?;
    let answer = hold_file(
        system,
        names.inputs,
        answer,
        FaultPlace::Answer,
        unread_answer,
    )?;
    let (cnf, claims) = hold_question(system, names, cnf, claims)?;
    let mut lies = HeaderLies::none();
    let checked = run_answer(system.alloc(), cnf, claims, answer, &mut lies);
    let outcome = show_line(checked.map_err(Unshown::Fault), out);
    end(system, names, ProofFormat::Told, &outcome, lies)
}

/// Reads the formula and the claims whole.
pub(crate) fn hold_question<S: System>(
    system: &S,
    names: Names<'_>,
    cnf: InputOf<'_, S>,
    claims: InputOf<'_, S>,
) -> Result<(HeldBytes, HeldBytes), Refusal>
    ensures formula { IfOk result (λ held. IfSome
        (input_bytes_left S.File.remaining S.Input.remaining cnf.entry) (λ bytes. held_in held.0 ≡ bytes)) }
    ensures claims { IfOk result (λ held. IfSome
        (input_bytes_left S.File.remaining S.Input.remaining claims.entry) (λ bytes. held_in held.1 ≡ bytes)) }
{
    let cnf = hold_file(
        system,
        names.inputs,
        cnf,
        FaultPlace::Formula(None),
        unread_formula,
    )?;
    let place = FaultPlace::Wanted(names.claims, None);
    let claims = hold_file(system, names.inputs, claims, place, unread_claims)?;
    Ok((cnf, claims))
}

/// Says on standard error how a run ended, and the mismatches of the headers. Returns the exit
/// status of the verdict.
///
/// # Errors
///
/// `Failed` if there is none.
fn end<S: System>(
    system: &S,
    names: Names<'_>,
    format: ProofFormat,
    outcome: &Result<Verdict, Unshown<RunFault>>,
    lies: HeaderLies,
) -> Result<u8, Refusal>
    ensures { result ≡ ended_of outcome.now }
{
    match outcome {
        Ok(verdict) => say_verdict(system, *verdict),
        Err(fault) => {
            let place = place_of(fault, format, names.claims);
            say_fault(system, names.inputs, fault, place);
        }
    }
    warn_of_headers(system, names, lies);
    ended(outcome)
}

pub(crate) fn warn_of_headers<R: Eprint>(rt: &R, names: Names<'_>, lies: HeaderLies) {
    warn_of_header(rt, names.inputs.cnf, &lies.formula);
    warn_of_header(rt, names.claims, &lies.claims);
}
