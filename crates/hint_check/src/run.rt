//! Runs: a proof is checked by its hints over a formula.
ghost use Rattle.std.specs.Prelude.{◌≡◌, ◌↔◌, List, ℕ, Some, Ok, IsTrue};
ghost use Rattle.std.specs.IoError.{error_kind};
ghost use Rattle.sat_formula.specs.Refuted.{IsRefuted};
ghost use Rattle.hint_check.specs.Runs.{ChecksHints, CheckRun, IsUnread, RunTellsLie};

use crate::checking::check_proof;
use crate::fault::RunFault;
use hint_checker::{HintChecker, HintFault, HintTextFault};
use lrat_binary::Ids;
use sat_formula::{CnfFormula, LyingHeader, read_formula};
use std::alloc::Global;
use std::io;
use std::io::{ErrorKind, Read};
use verdicts::Verdict;

/// Reads a formula as DIMACS text and a proof in lines of hints, checks the lines over the formula,
/// and returns the verdict.
///
/// The proof is text or binary, as detected from its first bytes. The encoding of ids in binary
/// lines is detected from them too, unless `ids` gives it. `lie` gets the mismatch of the formula's
/// header, if there is one. The checker of proofs takes no part.
///
/// # Errors
///
/// `Formula` if the formula can't be read, with `lie` `None`, `Read` if the proof can't be read,
/// `Hints` if a line is rejected or memory runs out.
pub fn run_check<F: Read + Drop, H: Read + Drop>(
    alloc: Global,
    cnf: F,
    hints: H,
    ids: Option<Ids>,
    lie: &mut Option<LyingHeader>,
) -> Result<Verdict, RunFault>
    ensures run { CheckRun ids (F.remaining cnf) (H.remaining hints) result }
    ensures refutes { (text : List ℕ) → F.remaining cnf ≡ Some text
        → result ≡ Ok Verdict.Verified → IsRefuted text }
    ensures lie { RunTellsLie (F.remaining cnf) result lie.new }
{
    match read_formula(alloc, cnf, lie) {
        Ok(formula) => check_hints(alloc, formula, hints, ids),
        Err(fault) => Err(RunFault::Formula(fault)),
    }
}

/// Checks a proof by its hints over a formula, as it is read.
fn check_hints<H: Read + Drop>(
    alloc: Global,
    formula: CnfFormula,
    hints: H,
    ids: Option<Ids>,
) -> Result<Verdict, RunFault>
    ensures { ChecksHints ids (H.remaining hints) formula result }
{
    let clauses = formula.len() as u64;
    let checker = match HintChecker::new(alloc, &formula) {
        Ok(checker) => checker,
        Err(fault) => return Err(RunFault::Hints(fault)),
    };
    // The checker has clauses of its own.
    drop(formula);
    match check_proof(alloc, checker, hints, ids, clauses) {
        Ok(refuted) => Ok(Verdict::of(refuted)),
        Err(HintTextFault::Refused(fault)) => Err(RunFault::Hints(fault)),
        Err(HintTextFault::Read(fault)) => Err(unread(fault)),
    }
}

/// Returns the fault of a run in which a read failed.
fn unread(fault: io::Error) -> RunFault
    ensures { IsUnread fault result }
{
    if is_want_of_memory(&fault) {
        return RunFault::Hints(HintFault::OutOfMemory);
    }
    RunFault::Read(fault)
}

/// Returns whether there was no memory for what a read gave, or for the read.
fn is_want_of_memory(fault: &io::Error) -> bool
    ensures { IsTrue result ↔ (error_kind fault.now ≡ ErrorKind.OutOfMemory) }
{
    fault.kind() == ErrorKind::OutOfMemory
}
