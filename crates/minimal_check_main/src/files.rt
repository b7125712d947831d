//! A core, a proof and models, in files.
ghost use Rattle.follows_check.specs.Minimal.{minimal_line, shows_minimal};
ghost use Rattle.minimal_check_main.specs.Meaning.{MeansOf};
ghost use Rattle.verdicts.specs.Statuses.{Ends, status_shown};

use crate::about::ABOUT;
use command::{
    Call, FaultPlace, InputNames, Refusal, System, hold_file, open_file, open_inputs, progress_of,
    say_fault, warn_of_header,
};
use follows_check::{CoreFault, MinimalVerdict, ProofFormat, run_minimal};
use sat_formula::DimacsFault;
use std::io;
use std::io::{Eprint, Write};
use verdicts::{Unshown, ended, show_line};

/// Checks a core. All files are opened before anything is read. The core is read whole before the
/// proof is, and the proof before the models are. Returns the exit status.
pub(crate) fn check_files<S: System, W: Write>(
    system: &S,
    names: InputNames<'_>,
    models_name: &str,
    format: ProofFormat,
    call: &Call<'_>,
    out: &mut W,
) -> Result<u8, Refusal>
    ensures ends { Ends minimal_line (status_shown shows_minimal)
        (MeansOf (S.file_bytes system.now) (S.input_bytes system.now) names.entry.cnf.now)
        (Unit {0}) (W.contents out.old) (W.contents out.new) result }
{
    let (cnf, proof) = open_inputs(system, names.cnf, names.other).ok_or(Refusal::NotRun)?;
    let models = open_file(system, models_name).ok_or(Refusal::NotRun)?;
    let cnf = hold_file(
        system,
        names,
        cnf,
        FaultPlace::Formula(None),
        unread_formula,
    )?;
    let progress = &progress_of(system, &ABOUT, call);
    let proof = proof.told(system, progress);
    let mut lie = None;
    let checked = run_minimal(
        progress,
        system.alloc(),
        cnf,
        proof,
        models.file,
        format,
        &mut lie,
    );
    let outcome = show_line(checked.map_err(Unshown::Fault), out);
    match &outcome {
        Ok(verdict) => say_verdict(system, *verdict),
        Err(fault) => say_fault(system, names, fault, place_of(fault, format, models_name)),
    }
    warn_of_header(system, names.cnf, &lie);
    ended(&outcome)
}

fn unread_formula(fault: io::Error) -> CoreFault {
    CoreFault::Formula(DimacsFault::of_error(fault))
}

fn place_of<'a>(
    fault: &Unshown<CoreFault>,
    format: ProofFormat,
    models: &'a str,
) -> FaultPlace<'a> {
    match fault {
        Unshown::Fault(CoreFault::Formula(fault)) => FaultPlace::in_formula(fault),
        Unshown::Fault(CoreFault::FewClauses) => FaultPlace::Formula(None),
        Unshown::Fault(CoreFault::Proof(_)) if format == ProofFormat::Lpr => FaultPlace::LratProof,
        Unshown::Fault(CoreFault::Proof(_)) => FaultPlace::DratProof,
        Unshown::Fault(CoreFault::Models(_)) => FaultPlace::Output(Some(models)),
        Unshown::Write(_) => FaultPlace::Elsewhere,
    }
}

/// Says on standard error why models show nothing.
fn say_verdict<R: Eprint>(rt: &R, verdict: MinimalVerdict) {
    let _ = match verdict {
        MinimalVerdict::Minimal | MinimalVerdict::Open => Ok(()),
        MinimalVerdict::NoModel { clause } => {
            eprintln!(rt; "models: there is none for clause {clause}")
        }
        MinimalVerdict::Unmet { model, clause } => {
            eprintln!(rt; "models: that for clause {model} does not satisfy clause {clause}")
        }
    };
}
