//! A machine and an invariant, in files.
ghost use Rattle.std.specs.Prelude.{◌≡◌, ◌⊎◌, ℕ, List, [], Ok, Some, IfErr, IfOk, false, true};
ghost use Rattle.circuit_check.specs.declared.line.Claim.TheVariants as claims;
ghost use Rattle.circuit_check_main.specs.Asked.{writes_formula};
ghost use Rattle.circuit_check_main.specs.Meaning.{MeansSafe, Proves, SafeMeans, StopsSafe, shown_status, shown_text};
ghost use Rattle.circuit_check_main.specs.Shown.{NamesFormulas, StopsFormulas};
ghost use Rattle.command.specs.Calls.{choices_of};
ghost use Rattle.verdicts.specs.Statuses.{Ends};
ghost use Rattle.verdicts.specs.declared.status.Refusal.TheVariants.{Failed};

use crate::about::ABOUT;
use crate::files::open;
use crate::options::{Files, PartNames, files_of};
use crate::parts::{create_outputs, name_outputs, write_outputs};
use circuit_check::{PartProofs, ProofFormat, run_safe};
use command::{
    Call, OutputSystem, ReadFile, Refusal, Source, System, WrittenFiles, misused, say_cause,
};
use log::sink::Discard;
use std::io::Write;
use verdicts::ended;

const THREE_FILES: &str =
    "--init-proof, --step-proof and --bad-proof, or --init-formula, --step-formula and --bad-formula";

/// The files of a machine and an invariant.
#[derive(Clone, Copy)]
pub(crate) struct Machine<'a> {
    pub(crate) machine: &'a str,
    pub(crate) invariant: &'a str,
}

/// Runs a call with a machine and an invariant, and returns the exit status.
///
/// # Errors
///
/// `NotRun` if the options are wrong or a file can't be opened; `Failed` if there is no verdict, or
/// what is to be written can't be. Standard error says why.
pub(crate) fn run_of_safe<S: OutputSystem, W: Write>(
    system: &S,
    call: &Call<'_>,
    names: Machine<'_>,
    given: &mut S::Names,
    out: &mut W,
) -> Result<u8, Refusal>
    ensures ends { Ends shown_text shown_status
        (MeansSafe (S.file_bytes system.now) (S.unwritten system.now) (S.place system.now)
        (S.renamed given.old) (S.renamed given.new) (choices_of call.now)
        names.entry.machine.now names.entry.invariant.now)
        (Unit {0}) (W.contents out.old) (W.contents out.new) result }
    ensures silent { writes_formula (choices_of call.now) ≡ true → out.new ≡ out.old }
    ensures kept { writes_formula (choices_of call.now) ≡ false
        → S.renamed given.new ≡ S.renamed given.old }
    ensures unnamed { IfErr result (λ refusal. (S.renamed given.new ≡ S.renamed given.old)
        ⊎ ((refusal ≡ Failed) × StopsSafe (S.file_bytes system.now) (S.unwritten system.now)
        (S.place system.now) (S.renamed given.old) (S.renamed given.new) (choices_of call.now)
        names.entry.machine.now names.entry.invariant.now)) }
{
    match files_of(call) {
        Files::Proofs(proofs) => prove_safe(system, names, proofs, out),
        Files::Formulas(formulas) => formulas_of_safe(system, names, formulas, given),
        _ => Err(misused(system, &ABOUT, THREE_FILES)),
    }
}

/// Checks three proofs, and returns the exit status. An Err is as of `run_of_safe`.
fn prove_safe<S: System, W: Write>(
    system: &S,
    names: Machine<'_>,
    proofs: PartNames<'_>,
    out: &mut W,
) -> Result<u8, Refusal>
    ensures ends { Ends shown_text shown_status
        (Proves claims.Safe (SafeMeans (S.file_bytes system.now names.entry.machine.now)))
        (Unit {0}) (W.contents out.old) (W.contents out.new) result }
{
    let machine = open(system, names.machine)?;
    let invariant = open(system, names.invariant)?;
    let proofs = open_proofs(system, proofs)?;
    let outcome = run_safe(
        &Discard,
        system.alloc(),
        machine.file,
        invariant.file,
        proofs,
        ProofFormat::Told,
        out,
    );
    say_cause(system, &outcome);
    ended(&outcome)
}

/// Opens three proofs. An Err is `NotRun`, if one can't be opened.
fn open_proofs<S: System>(
    system: &S,
    proofs: PartNames<'_>,
) -> Result<PartProofs<Source<S::File, S::Input>>, Refusal> {
    let initial = open(system, proofs.initial)?;
    let step = open(system, proofs.step)?;
    let bad = open(system, proofs.bad)?;
    Ok(PartProofs {
        initial: initial.file,
        step: step.file,
        bad: bad.file,
    })
}

/// Writes the three formulas, and returns the exit status. The files have their names once all are
/// whole, and are none of those that are read.
///
/// # Errors
///
/// `NotRun` if a file can't be opened, `Failed` if one can't be written: none has its name then.
/// `Failed` also if one can't be renamed: those before it have their names.
fn formulas_of_safe<S: OutputSystem>(
    system: &S,
    names: Machine<'_>,
    formulas: PartNames<'_>,
    given: &mut S::Names,
) -> Result<u8, Refusal>
    ensures named { (text invariant_text : List ℕ)
        → S.file_bytes system.now names.entry.machine.now ≡ Some text
        → S.file_bytes system.now names.entry.invariant.now ≡ Some invariant_text
        → S.unwritten system.now ≡ Some [] → result ≡ Ok 0
        → NamesFormulas (Some text) (Some invariant_text)
        (S.place system.now formulas.entry.initial.now) (S.place system.now formulas.entry.step.now)
        (S.place system.now formulas.entry.bad.now) (S.renamed given.old) (S.renamed given.new) }
    ensures zero { IfOk result (λ status. status ≡ 0) }
    ensures unnamed { IfErr result (λ refusal. (S.renamed given.new ≡ S.renamed given.old)
        ⊎ ((refusal ≡ Failed) × ((text invariant_text : List ℕ)
        → S.file_bytes system.now names.entry.machine.now ≡ Some text
        → S.file_bytes system.now names.entry.invariant.now ≡ Some invariant_text
        → S.unwritten system.now ≡ Some [] → StopsFormulas (Some text) (Some invariant_text)
        (S.place system.now formulas.entry.initial.now) (S.place system.now formulas.entry.step.now)
        (S.renamed given.old) (S.renamed given.new)))) }
{
    let machine = open(system, names.machine)?;
    let invariant = open(system, names.invariant)?;
    let mut files = WrittenFiles::new(system);
    let inputs = [
        ReadFile::of(system, &machine),
        ReadFile::of(system, &invariant),
    ];
    let outputs = create_outputs(&mut files, formulas, &inputs)?;
    let whole = write_outputs(system, machine, invariant, outputs)?;
    let named = name_outputs(&files, formulas, whole, given);
    say_cause(system, &named);
    match named {
        Ok(()) => Ok(0),
        Err(_) => Err(Refusal::Failed),
    }
}
