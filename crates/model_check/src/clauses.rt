//! The clauses of a formula, one after the other.
ghost use Rattle.std.specs.Prelude.{◌≡◌, ◌+◌, ℕ, List, IfErr, IfOk, [], ◌∷◌, ◌++◌, length};
ghost use Rattle.answer_text.specs.Literals.{has_lit};
ghost use Rattle.model_check.specs.Verdicts.{FailsText, IsJudged, IsVerdict};
ghost use Rattle.sat_formula.specs.Lies.{IsLie};

use crate::verdict::Verdict;
use crate::whole::{CutFormula, cut_of};
use answer_text::Literals;
use sat_formula::{ClauseSink, DimacsFault, Lit, LyingHeader, read_into};
use std::alloc::{AllocError, Global};
use std::io::Read;

/// What was found of a formula that was read to its end.
#[derive(Clone, Copy)]
pub struct Judged {
    pub verdict: Verdict,
    /// What it lacks.
    pub cut: Option<CutFormula>,
    /// The mismatch of its header.
    pub lie: Option<LyingHeader>,
}

/// The verdict on the clauses that were taken.
#[derive(Drop)]
struct ClauseJudge<'a> {
    literals: &'a Literals,
    verdict: Verdict,
}

/// Takes every clause: none needs memory.
impl<'a> ClauseSink for ClauseJudge<'a> {
    ghost use Rattle.std.specs.Prelude.{◌≡◌};
    ghost use Rattle.answer_text.specs.Literals.{has_lit};
    ghost use Rattle.model_check.specs.Verdicts.{IsVerdict};

    type Fault = AllocError;

    ghost has_taken = { λ first clauses lines judge. (judge.literals ≡ first.literals)
        × IsVerdict (has_lit first.literals.now) clauses lines judge.verdict };

    ghost has_refused = { λ first clauses fault judge. Unit {0} };

    fn take(&mut self, clause: &[Lit], number: u64, line: u64) -> Result<(), AllocError> {
        self.verdict = after_clause(self.verdict, self.literals, clause, number, line);
        Ok(())
    }
}

/// Reads a whole formula, a clause at a time, and returns whether each has one of the literals. The
/// verdict is that on the clauses that are there, also if some are missing.
///
/// # Errors
///
/// The first fault of the text, a failed read or out of memory.
pub fn judge<F: Read + Drop>(
    alloc: Global,
    cnf: F,
    literals: &Literals,
) -> Result<Judged, DimacsFault>
    ensures whole { IfOk result (λ judged.
        IsJudged (F.remaining cnf) (has_lit literals.now) judged.verdict judged.cut) }
    ensures lie { IfOk result (λ judged. IsLie (F.remaining cnf) judged.lie) }
    ensures fault { IfErr result (λ fault. FailsText (F.remaining cnf) fault) }
{
    let mut judge = ClauseJudge {
        literals,
        verdict: Verdict::Verified,
    };
    let summary = read_into(alloc, cnf, &mut judge)?;
    Ok(Judged {
        verdict: judge.verdict,
        cut: cut_of(summary.header, summary.counts.clauses),
        lie: summary.lie,
    })
}

/// Returns the verdict with one clause more, which has this number and ends on this line.
fn after_clause(
    verdict: Verdict,
    literals: &Literals,
    clause: &[Lit],
    number: u64,
    line: u64,
) -> Verdict
    ensures { (clauses : List (List ℕ)) → (lines : List ℕ)
        → IsVerdict (has_lit literals.now) clauses lines verdict
        → number ≡ length clauses + 1 → number ≡ length lines + 1
        → IsVerdict (has_lit literals.now) (clauses ++ clause.now ∷ []) (lines ++ line ∷ [])
        result }
{
    match verdict {
        Verdict::NotVerified { .. } => verdict,
        Verdict::Verified if literals.meets(clause) => Verdict::Verified,
        Verdict::Verified => Verdict::NotVerified {
            clause: number,
            line,
        },
    }
}
