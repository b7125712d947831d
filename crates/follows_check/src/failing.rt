//! The claims, one after the other, under the literals of an answer.
ghost use Rattle.std.specs.Prelude.{◌≡◌, ◌+◌, ◌++◌, ◌∷◌, [], ℕ, List, IfErr, IfOk, length};
ghost use Rattle.sat_rules.specs.Clauses.{is_falsified};
ghost use Rattle.answer_text.specs.Literals.{has_lit};
ghost use Rattle.model_check.specs.Verdicts.{FailsText};
ghost use Rattle.sat_formula.specs.Lies.{IsLie};
ghost use Rattle.follows_check.specs.Answers.{IsFound, IsFoundIn, IsJudged};
ghost use Rattle.follows_check.specs.Questions.{FailsClaims};

use crate::fault::QuestionFault;
use crate::lies::lacks_clauses;
use answer_text::Literals;
use sat_formula::{ClauseSink, DimacsFault, Lit, LyingHeader, read_into};
use std::alloc::{AllocError, Global};
use std::io::Read;

/// A claim of which all literals are false, by its number, and the line on which it ends.
#[derive(Clone, Copy)]
pub(crate) struct Failing {
    pub(crate) claim: u64,
    pub(crate) line: u64,
}

/// The result for claims that were read to their end.
#[derive(Clone, Copy)]
struct Judged {
    failing: Option<Failing>,
    /// Whether there is a claim.
    is_some: bool,
    /// The mismatch of their header, if there is one.
    lie: Option<LyingHeader>,
}

/// The first claim that fails, of those that were taken.
#[derive(Drop)]
struct ClaimJudge<'a> {
    literals: &'a Literals,
    failing: Option<Failing>,
}

/// Takes every claim: none needs memory.
impl<'a> ClauseSink for ClaimJudge<'a> {
    ghost use Rattle.std.specs.Prelude.{◌≡◌};
    ghost use Rattle.answer_text.specs.Literals.{has_lit};
    ghost use Rattle.follows_check.specs.Answers.{IsFound};

    type Fault = AllocError;

    ghost has_taken = { λ first claims lines judge. (judge.literals ≡ first.literals)
        × IsFound (has_lit first.literals.now) claims lines judge.failing };

    ghost has_refused = { λ first claims fault judge. Unit {0} };

    fn take(&mut self, claim: &[Lit], number: u64, line: u64) -> Result<(), AllocError> {
        self.failing = after_claim(self.failing, self.literals, claim, number, line);
        Ok(())
    }
}

/// Reads all claims, one at a time, and returns the first whose literals' negations are all listed,
/// if there is one.
///
/// # Errors
///
/// `Claims` if they can't be read, `NoClaim`, or `FewClaims` if their header says more than there
/// are.
pub(crate) fn find_failing<C: Read + Drop>(
    alloc: Global,
    text: C,
    literals: &Literals,
    lie: &mut Option<LyingHeader>,
) -> Result<Option<Failing>, QuestionFault>
    ensures found { IfOk result (λ failing.
        IsJudged (C.remaining text) (has_lit literals.now) failing) }
    ensures fault { IfErr result (FailsClaims (C.remaining text)) }
{
    let judged = match judge_claims(alloc, text, literals) {
        Ok(judged) => judged,
        Err(fault) => return Err(QuestionFault::Claims(fault)),
    };
    *lie = judged.lie;
    if lacks_clauses(judged.lie) {
        return Err(QuestionFault::FewClaims);
    }
    if !judged.is_some {
        return Err(QuestionFault::NoClaim);
    }
    Ok(judged.failing)
}

/// Reads claims to their end, and returns the result for them.
fn judge_claims<C: Read + Drop>(
    alloc: Global,
    text: C,
    literals: &Literals,
) -> Result<Judged, DimacsFault>
    ensures whole { IfOk result (λ judged.
        IsFoundIn (C.remaining text) (has_lit literals.now) judged.failing judged.is_some) }
    ensures lie { IfOk result (λ judged. IsLie (C.remaining text) judged.lie) }
    ensures fault { IfErr result (λ fault. FailsText (C.remaining text) fault) }
{
    let mut judge = ClaimJudge {
        literals,
        failing: None,
    };
    let summary = read_into(alloc, text, &mut judge)?;
    Ok(Judged {
        failing: judge.failing,
        is_some: summary.counts.clauses > 0,
        lie: summary.lie,
    })
}

/// Returns the result with one claim more, which has this number and ends on this line.
fn after_claim(
    failing: Option<Failing>,
    literals: &Literals,
    claim: &[Lit],
    number: u64,
    line: u64,
) -> Option<Failing>
    ensures { (claims : List (List ℕ)) → (lines : List ℕ)
        → IsFound (has_lit literals.now) claims lines failing
        → number ≡ length claims + 1 → number ≡ length lines + 1
        → IsFound (has_lit literals.now) (claims ++ claim.now ∷ []) (lines ++ line ∷ []) result }
{
    match failing {
        Some(_) => failing,
        None if fails(literals, claim) => Some(Failing {
            claim: number,
            line,
        }),
        None => None,
    }
}

/// Returns whether the negation of each literal of a claim is listed.
fn fails(literals: &Literals, claim: &[Lit]) -> bool
    ensures { result ≡ is_falsified (has_lit literals.now) claim.now }
{
    claim.iter().all(|lit| literals.contains(!*lit))
}
