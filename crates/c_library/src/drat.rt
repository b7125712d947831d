//! DRAT, DPR, FRAT and LPR proofs.
ghost use Rattle.std.specs.Prelude.{◌≡◌, ◌≢◌, ◌<◌, ◌≤◌, ℕ, true, false, [], IfOk, IfSome, IsSomeAnd, List, Ok, Result, Some};
ghost use Rattle.sat_formula.specs.Refuted.{IsRefuted};
ghost use Rattle.verdicts.specs.Texts.{OfFormula};
ghost use Rattle.drat_check.specs.Runs.{IsCheckRun};
ghost use Rattle.c_library.specs.DratCalls.{PlacesCore, PlacesLrat, format_of};
ghost use Rattle.c_library.specs.Rooms.{IsNothing, IsPlaced};
ghost use Rattle.c_library.specs.Statuses.{drat_status};
ghost use Rattle.drat_check.specs.declared.fault.RunFault.{RunFault};
ghost use Rattle.verdicts.specs.declared.verdict.Verdict.{Verdict};
ghost use Rattle.verdicts.specs.declared.verdict.Verdict.TheVariants.{Verified};

use crate::room::{Placed, place_fault, place_nothing, place_wanted};
use crate::status::{FAULT, NOT_RUN, OUT_OF_MEMORY};
use drat_check::{
    LineForm, Outputs, ProofFault, ProofFormat, RunFault, Verdict, exit_status, run_check,
};
use drat_elaborate::ElaborateFault;
use drat_text::DratFault;
use log::sink::Discard;
use lrat_text::LratTextFault;
use sat_formula::DimacsFault;
use std::alloc::Global;
use std::cell::Cell;

/// The options of a check of a DRAT or FRAT proof.
#[repr(C)]
#[derive(Clone, Copy)]
pub struct DratOptions {
    /// 0 to detect the format from the first bytes of the proof, 1 DRAT, 2 FRAT, 3 LPR.
    pub format: u8,
    /// Whether to return the lines of the LRAT proof.
    pub lrat: bool,
    /// Whether to return the clauses of the formula that they use.
    pub core: bool,
}

/// The result of a check of a DRAT or FRAT proof.
#[repr(C)]
#[derive(Clone, Copy)]
pub struct DratAnswer {
    /// 0 verified, 3 not verified, 1 for a fault, 4 where there was no memory, and 2 where the
    /// format is none: then nothing was looked at.
    pub status: u8,
    /// The lines of the LRAT proof.
    pub lrat: Placed,
    /// The used clauses, as a formula.
    pub core: Placed,
    /// A fault's text.
    pub text: Placed,
}

/// Checks a DRAT or FRAT proof against a DIMACS text. Returns the status, and what was written to
/// each buffer. If the status is 0, no assignment satisfies the clauses of the formula's text.
///
/// Then `lrat` and `core` get what the options ask for, each as much as fits; else they are
/// unchanged. `text` gets the text of a fault, and nothing with a verdict.
#[unsafe(no_mangle)]
pub extern "C" fn cefindrato_drat_check(
    alloc: Global,
    cnf: &[u8],
    proof: &[u8],
    options: DratOptions,
    lrat: &mut [u8],
    core: &mut [u8],
    text: &mut [u8],
) -> DratAnswer
    ensures refutes { result.status ≡ 0 → IsRefuted cnf.now }
    ensures run { options.format ≤ 3 → (r : Result Verdict RunFault)
        × IsCheckRun (Some cnf.now) r × (result.status ≡ drat_status r)
        × IfOk r (λ verdict. IsNothing text.old text.new result.text) }
    ensures not_run { 3 < options.format
        → (result.status ≡ 2) × IsNothing text.old text.new result.text }
    ensures outputs { result.status ≡ 0 → OfFormula (Some cnf.now) (λ formula.
        (options.lrat ≡ true → PlacesLrat formula lrat.old lrat.new result.lrat)
        × (options.core ≡ true → PlacesCore formula core.old core.new result.core)) }
    ensures unwanted_lrat { options.lrat ≡ false → IsNothing lrat.old lrat.new result.lrat }
    ensures unwanted_core { options.core ≡ false → IsNothing core.old core.new result.core }
    ensures unproved { result.status ≢ 0 → IsNothing lrat.old lrat.new result.lrat
        × IsNothing core.old core.new result.core }
    ensures text { (said : List ℕ) × IsPlaced said text.old text.new result.text }
{
    let Some(format) = format_of(options.format) else {
        return unproved(NOT_RUN, lrat, core, place_nothing(text));
    };
    let outputs = &mut Outputs {
        lrat: output(alloc, options.lrat),
        form: LineForm::Text,
        trim: None,
        core: output(alloc, options.core),
        counts: Cell::default(),
    };
    let outcome = run_check(&Discard, alloc, cnf, proof, format, outputs, &mut None);
    answer_to(alloc, &outcome, options, outputs, lrat, core, text)
}

/// Returns the result of a run, and fills the caller's buffers.
fn answer_to(
    alloc: Global,
    outcome: &Result<Verdict, RunFault>,
    options: DratOptions,
    outputs: &Outputs<Vec<u8>, Vec<u8>>,
    lrat: &mut [u8],
    core: &mut [u8],
    text: &mut [u8],
) -> DratAnswer
    ensures status { result.status ≡ drat_status outcome.now }
    ensures silent { IfOk outcome.now (λ verdict. IsNothing text.old text.new result.text) }
    ensures lrat { outcome.now ≡ Ok Verified → options.lrat ≡ true → IfSome outputs.now.lrat
        (λ bytes. IsPlaced bytes.items lrat.old lrat.new result.lrat) }
    ensures core { outcome.now ≡ Ok Verified → options.core ≡ true → IfSome outputs.now.core
        (λ bytes. IsPlaced bytes.items core.old core.new result.core) }
    ensures unwanted_lrat { options.lrat ≡ false → IsNothing lrat.old lrat.new result.lrat }
    ensures unwanted_core { options.core ≡ false → IsNothing core.old core.new result.core }
    ensures unproved { result.status ≢ 0 → IsNothing lrat.old lrat.new result.lrat
        × IsNothing core.old core.new result.core }
    ensures text { (said : List ℕ) × IsPlaced said text.old text.new result.text }
{
    match outcome {
        Ok(Verdict::Verified) => DratAnswer {
            status: status(outcome),
            lrat: place_wanted(options.lrat, &outputs.lrat, lrat),
            core: place_wanted(options.core, &outputs.core, core),
            text: place_nothing(text),
        },
        Ok(Verdict::NotVerified) => unproved(status(outcome), lrat, core, place_nothing(text)),
        Err(fault) => unproved(status(outcome), lrat, core, place_fault(alloc, fault, text)),
    }
}

/// Returns a result with no line and no clause.
fn unproved(status: u8, lrat: &mut [u8], core: &mut [u8], text: Placed) -> DratAnswer
    ensures status { result.status ≡ status }
    ensures lrat { IsNothing lrat.old lrat.new result.lrat }
    ensures core { IsNothing core.old core.new result.core }
    ensures text { result.text ≡ text }
{
    DratAnswer {
        status,
        lrat: place_nothing(lrat),
        core: place_nothing(core),
        text,
    }
}

/// Returns the format of this number.
fn format_of(number: u8) -> Option<ProofFormat>
    ensures { result ≡ format_of number }
{
    match number {
        0 => Some(ProofFormat::Told),
        1 => Some(ProofFormat::Drat),
        2 => Some(ProofFormat::Frat),
        3 => Some(ProofFormat::Lpr),
        _ => None,
    }
}

/// Returns an empty output, if `wanted`.
fn output(alloc: Global, wanted: bool) -> Option<Vec<u8>>
    ensures { wanted ≡ true → IsSomeAnd result (λ bytes. bytes.items ≡ []) }
{
    if wanted { Some(Vec::new(alloc)) } else { None }
}

/// Returns the status of a run.
fn status(outcome: &Result<Verdict, RunFault>) -> u8
    ensures { result ≡ drat_status outcome.now }
{
    match outcome {
        Ok(_) => exit_status(outcome),
        Err(
            RunFault::Formula(DimacsFault::OutOfMemory)
            | RunFault::Proof(
                ProofFault::Unread(DratFault::OutOfMemory)
                | ProofFault::UnreadLine(LratTextFault::OutOfMemory)
                | ProofFault::Refused(ElaborateFault::OutOfMemory)
                | ProofFault::OutOfMemory,
            )
            | RunFault::Lrat(_)
            | RunFault::Trim(_)
            | RunFault::Core(_),
        ) => OUT_OF_MEMORY,
        Err(_) => FAULT,
    }
}
