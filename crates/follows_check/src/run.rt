//! Runs of a proof: claims are shown to follow from a formula.
ghost use Rattle.std.specs.Prelude.{◌≡◌, ℕ, List, Ok, Some};
ghost use Rattle.follows_check.specs.Runs.{IsProofRun};
ghost use Rattle.follows_check.specs.Texts.{FollowsText};
ghost use Rattle.follows_check.specs.Verdicts.{verdict_on};

use crate::fault::RunFault;
use crate::lies::HeaderLies;
use crate::question::read_question;
use crate::refuting::refute;
use crate::verdict::Verdict;
use drat_check::ProofFormat;
use log::Log;
use std::alloc::Global;
use std::io::Read;

/// Reads a formula and claims in DIMACS CNF, and a proof that the formula is unsatisfiable together
/// with "some claim fails", and returns the verdict.
///
/// That formula is made in memory: first the clauses of the formula, then those of the claims'
/// selectors, as `write_question` writes them. `lies` gets the mismatches of the headers, each once
/// its file was read whole.
///
/// # Errors
///
/// `Question` or `Proof` if the formula, the claims or the proof are rejected.
pub fn run_proof<R: Log, F: Read + Drop, C: Read + Drop, P: Read + Drop>(
    rt: &R,
    alloc: Global,
    cnf: F,
    claims: C,
    proof: P,
    format: ProofFormat,
    lies: &mut HeaderLies,
) -> Result<Verdict, RunFault>
    ensures run { IsProofRun (F.remaining cnf) (C.remaining claims) result }
    ensures follows { (text said : List ℕ) → F.remaining cnf ≡ Some text
        → C.remaining claims ≡ Some said → result ≡ Ok Verdict.Follows → FollowsText text said }
{
    let asked = match read_question(alloc, cnf, claims, lies) {
        Ok(asked) => asked,
        Err(fault) => return Err(RunFault::Question(fault)),
    };
    match refute(rt, alloc, &asked, proof, format) {
        Ok(refuted) => Ok(verdict_on(refuted)),
        Err(fault) => Err(RunFault::Proof(fault)),
    }
}

/// Returns the verdict, by whether the formula for the solver was refuted.
fn verdict_on(refuted: bool) -> Verdict
    ensures { result ≡ verdict_on refuted }
{
    if refuted {
        Verdict::Follows
    } else {
        Verdict::Open
    }
}
