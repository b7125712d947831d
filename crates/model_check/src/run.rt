//! Runs: a formula and an answer are read, up to the verdict on them.
ghost use Rattle.std.specs.Prelude.{◌≡◌, ℕ, List, Ok, Some};
ghost use Rattle.model_check.specs.Models.{IsSatisfiedBy};
ghost use Rattle.model_check.specs.Runs.{IsCheckRun, RunTellsLie};

use crate::clauses::judge;
use crate::fault::RunFault;
use crate::verdict::Verdict;
use answer_text::read_answer;
use sat_formula::LyingHeader;
use std::alloc::Global;
use std::io::Read;

/// Reads an answer, and then a formula in DIMACS CNF a clause at a time, and returns the verdict.
///
/// The formula is read whole, also after a clause that has no literal of the answer. `lie` gets the
/// mismatch of the formula's header, if there is one.
///
/// # Errors
///
/// `Answer` if the answer can't be read or is not that the formula is satisfiable; `Formula` if the
/// formula can't be read; `Cut` if it has fewer clauses than its header says, or neither a header
/// nor a clause. `lie` is `None` then unless the formula was read whole.
pub fn run_check<F: Read + Drop, P: Read + Drop>(
    alloc: Global,
    cnf: F,
    answer: P,
    lie: &mut Option<LyingHeader>,
) -> Result<Verdict, RunFault>
    ensures run { IsCheckRun (F.remaining cnf) (P.remaining answer) result }
    ensures satisfies { (text said : List ℕ) → F.remaining cnf ≡ Some text
        → P.remaining answer ≡ Some said → result ≡ Ok Verdict.Verified → IsSatisfiedBy text said }
    ensures lie { RunTellsLie (F.remaining cnf) result lie.new }
{
    *lie = None;
    let literals = match read_answer(alloc, answer) {
        Ok(literals) => literals,
        Err(fault) => return Err(RunFault::Answer(fault)),
    };
    let judged = match judge(alloc, cnf, &literals) {
        Ok(judged) => judged,
        Err(fault) => return Err(RunFault::Formula(fault)),
    };
    *lie = judged.lie;
    match judged.cut {
        Some(cut) => Err(RunFault::Cut(cut)),
        None => Ok(judged.verdict),
    }
}
