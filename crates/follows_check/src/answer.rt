//! Runs of an answer: a claim is shown not to follow from a formula.
ghost use Rattle.std.specs.Prelude.{◌≡◌, ℕ, List, Ok, Some};
ghost use Rattle.follows_check.specs.Runs.{IsAnswerRun, verdict_of};
ghost use Rattle.follows_check.specs.Texts.{NotFollowsText};

use crate::failing::{Failing, find_failing};
use crate::fault::{QuestionFault, RunFault};
use crate::lies::HeaderLies;
use crate::verdict::Verdict;
use answer_text::read_answer;
use std::alloc::Global;
use std::io::Read;

/// Reads a solver's answer, then a formula and then claims in DIMACS CNF, each a clause at a time,
/// and returns the verdict: whether the answer satisfies the formula and makes all literals of some
/// claim false.
///
/// `lies` gets the mismatches of the headers, each once its file was read whole.
///
/// # Errors
///
/// `Answer`, `Question` or `Cut` for the first file that is rejected, or a formula that is not
/// whole.
pub fn run_answer<F: Read + Drop, C: Read + Drop, P: Read + Drop>(
    alloc: Global,
    cnf: F,
    claims: C,
    answer: P,
    lies: &mut HeaderLies,
) -> Result<Verdict, RunFault>
    ensures run { IsAnswerRun (F.remaining cnf) (C.remaining claims) (P.remaining answer) result }
    ensures fails { (text said : List ℕ) → (claim line : ℕ) → F.remaining cnf ≡ Some text
        → C.remaining claims ≡ Some said → result ≡ Ok (Verdict.NotFollows claim line)
        → NotFollowsText text said }
{
    *lies = HeaderLies::none();
    let literals = match read_answer(alloc, answer) {
        Ok(literals) => literals,
        Err(fault) => return Err(RunFault::Answer(fault)),
    };
    let judged = match model_check::judge(alloc, cnf, &literals) {
        Ok(judged) => judged,
        Err(fault) => return Err(RunFault::Question(QuestionFault::Formula(fault))),
    };
    lies.formula = judged.lie;
    match judged.cut {
        Some(cut) => return Err(RunFault::Cut(cut)),
        None => {}
    }
    match find_failing(alloc, claims, &literals, &mut lies.claims) {
        Ok(failing) => Ok(verdict_of(judged.verdict, failing)),
        Err(fault) => Err(RunFault::Question(fault)),
    }
}

/// Returns the verdict, by the results for the formula and for the claims.
fn verdict_of(judged: model_check::Verdict, failing: Option<Failing>) -> Verdict
    ensures { result ≡ verdict_of judged failing }
{
    match (judged, failing) {
        (model_check::Verdict::Verified, Some(Failing { claim, line })) => {
            Verdict::NotFollows { claim, line }
        }
        (model_check::Verdict::Verified, None) => Verdict::NoneFails,
        (model_check::Verdict::NotVerified { clause, line }, _) => Verdict::Unmet { clause, line },
    }
}
