//! Answers that a formula is satisfiable.
ghost use Rattle.std.specs.Prelude.{◌≡◌, ℕ, IfOk, List, Result, Some};
ghost use Rattle.model_check.specs.Models.{IsSatisfiedBy};
ghost use Rattle.model_check.specs.Runs.{IsCheckRun};
ghost use Rattle.c_library.specs.ModelCalls.{clause_of, line_of};
ghost use Rattle.c_library.specs.Rooms.{IsNothing, IsPlaced};
ghost use Rattle.c_library.specs.Statuses.{model_status};
ghost use Rattle.model_check.specs.declared.fault.RunFault.{RunFault};
ghost use Rattle.model_check.specs.declared.verdict.Verdict.{Verdict};

use crate::room::{Placed, place_text};
use crate::status::{FAULT, OUT_OF_MEMORY};
use answer_text::AnswerFault;
use model_check::{RunFault, Verdict, exit_status, run_check};
use sat_formula::DimacsFault;
use std::alloc::Global;

/// The result of a check of a solver's answer.
#[repr(C)]
#[derive(Clone, Copy)]
pub struct ModelAnswer {
    /// 0 verified, 3 not verified, 1 for a fault, 4 where there was no memory.
    pub status: u8,
    /// A fault's text.
    pub text: Placed,
    /// If it is not verified, the number of the first clause that has no literal of the answer;
    /// else 0.
    pub clause: u64,
    /// The line on which that clause ends, or 0.
    pub line: u64,
}

/// Checks a solver's answer against a DIMACS text. Returns the status, the first clause that is not
/// satisfied, and what was written to `text`: the text of a fault, and nothing with a verdict. If
/// the status is 0, each assignment that agrees with the answer satisfies the formula, and there is
/// one.
#[unsafe(no_mangle)]
pub extern "C" fn cefindrato_model_check(
    alloc: Global,
    cnf: &[u8],
    answer: &[u8],
    text: &mut [u8],
) -> ModelAnswer
    ensures satisfies { result.status ≡ 0 → IsSatisfiedBy cnf.now answer.now }
    ensures run { (r : Result Verdict RunFault)
        × IsCheckRun (Some cnf.now) (Some answer.now) r × (result.status ≡ model_status r)
        × (result.clause ≡ clause_of r) × (result.line ≡ line_of r)
        × IfOk r (λ verdict. IsNothing text.old text.new result.text) }
    ensures text { (said : List ℕ) × IsPlaced said text.old text.new result.text }
{
    let outcome = run_check(alloc, cnf, answer, &mut None);
    let (clause, line) = unmet(&outcome);
    ModelAnswer {
        status: status(&outcome),
        text: place_text(alloc, &outcome, text),
        clause,
        line,
    }
}

/// Returns the number of the first clause that is not satisfied, and its line; or 0 and 0.
fn unmet(outcome: &Result<Verdict, RunFault>) -> (u64, u64)
    ensures clause { result.0 ≡ clause_of outcome.now }
    ensures line { result.1 ≡ line_of outcome.now }
{
    match outcome {
        Ok(Verdict::NotVerified { clause, line }) => (*clause, *line),
        _ => (0, 0),
    }
}

/// Returns the status of a run.
fn status(outcome: &Result<Verdict, RunFault>) -> u8
    ensures { result ≡ model_status outcome.now }
{
    match outcome {
        Ok(_) => exit_status(outcome),
        Err(
            RunFault::Answer(AnswerFault::OutOfMemory)
            | RunFault::Formula(DimacsFault::OutOfMemory),
        ) => OUT_OF_MEMORY,
        Err(_) => FAULT,
    }
}
