//! LRAT proofs.
ghost use Rattle.std.specs.Prelude.{◌≡◌, ℕ, IfOk, List, None, Result, Some};
ghost use Rattle.sat_formula.specs.Refuted.{IsRefuted};
ghost use Rattle.lrat_check.specs.Runs.{IsCheckRun};
ghost use Rattle.c_library.specs.Rooms.{IsNothing, IsPlaced};
ghost use Rattle.c_library.specs.Statuses.{lrat_status};
ghost use Rattle.lrat_check.specs.declared.fault.RunFault.{RunFault};
ghost use Rattle.verdicts.specs.declared.verdict.Verdict.{Verdict};

use crate::room::{Placed, place_text};
use crate::status::{FAULT, OUT_OF_MEMORY};
use lrat_check::{RunFault, Verdict, exit_status, run_check};
use lrat_checker::LratFault;
use sat_formula::DimacsFault;
use std::alloc::Global;

/// The result of a check of an LRAT proof.
#[repr(C)]
#[derive(Clone, Copy)]
pub struct LratAnswer {
    /// 0 verified, 3 not verified, 1 for a fault, 4 where there was no memory.
    pub status: u8,
    /// A fault's text.
    pub text: Placed,
}

/// Checks an LRAT proof, text or binary, against a DIMACS text. Returns the status, and what was
/// written to `text`: the text of a fault, and nothing with a verdict. If the status is 0, no
/// assignment satisfies the clauses of the formula's text.
#[unsafe(no_mangle)]
pub extern "C" fn cefindrato_lrat_check(
    alloc: Global,
    cnf: &[u8],
    proof: &[u8],
    text: &mut [u8],
) -> LratAnswer
    ensures refutes { result.status ≡ 0 → IsRefuted cnf.now }
    ensures run { (r : Result Verdict RunFault)
        × IsCheckRun None (Some cnf.now) (Some proof.now) r × (result.status ≡ lrat_status r)
        × IfOk r (λ verdict. IsNothing text.old text.new result.text) }
    ensures text { (said : List ℕ) × IsPlaced said text.old text.new result.text }
{
    let outcome = run_check(alloc, cnf, proof, None, &mut None);
    LratAnswer {
        status: status(&outcome),
        text: place_text(alloc, &outcome, text),
    }
}

/// Returns the status of a run.
fn status(outcome: &Result<Verdict, RunFault>) -> u8
    ensures { result ≡ lrat_status outcome.now }
{
    match outcome {
        Ok(_) => exit_status(outcome),
        Err(
            RunFault::Formula(DimacsFault::OutOfMemory) | RunFault::Proof(LratFault::OutOfMemory),
        ) => OUT_OF_MEMORY,
        Err(_) => FAULT,
    }
}
