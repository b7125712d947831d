//! A formula and claims, as one formula: it is satisfiable exactly if some claim does not follow.
ghost use Rattle.std.specs.Prelude.{ℕ, List, IfErr, IfOk, OnOk};
ghost use Rattle.follows_check.specs.Claims.{AreClaims};
ghost use Rattle.follows_check.specs.Questions.{FailsClaims, FailsQuestion, OfQuestion, asks};
ghost use Rattle.follows_check.specs.Runs.{IsUnasked};
ghost use Rattle.follows_check.specs.Texts.{WritesQuestion};

use crate::fault::QuestionFault;
use crate::lies::{HeaderLies, lacks_clauses};
use crate::selectors::add_failing;
use sat_formula::{CnfFormula, LyingHeader, read_formula};
use sat_output::write_formula;
use std::alloc::Global;
use std::io::{Read, Write};
use verdicts::Unshown;

/// Reads a formula and claims in DIMACS CNF, and writes the formula for a solver: the formula, and
/// some claim fails.
///
/// `lies` gets the mismatches of the headers, each once its file was read whole.
///
/// # Errors
///
/// That of the first file that is rejected; nothing is written then. `Write` if a write failed: a
/// prefix of the text is written.
pub fn write_question<F: Read + Drop, C: Read + Drop, W: Write>(
    alloc: Global,
    cnf: F,
    claims: C,
    out: &mut W,
    lies: &mut HeaderLies,
) -> Result<(), Unshown<QuestionFault>>
    ensures written { OnOk result (WritesQuestion (F.remaining cnf) (C.remaining claims)
        (W.contents out.old) (W.contents out.new)) }
    ensures fault { IfErr result (IsUnasked (F.remaining cnf) (C.remaining claims)
        W.contents out.old out.new) }
{
    let asked = match read_question(alloc, cnf, claims, lies) {
        Ok(asked) => asked,
        Err(fault) => return Err(Unshown::Fault(fault)),
    };
    match write_formula(alloc, out, &asked) {
        Ok(()) => {}
        Err(fault) => return Err(Unshown::Write(fault)),
    }
    match out.flush() {
        Ok(()) => Ok(()),
        Err(fault) => Err(Unshown::Write(fault)),
    }
}

/// Reads a formula and claims, and returns the formula that is to be refuted.
pub(crate) fn read_question<F: Read + Drop, C: Read + Drop>(
    alloc: Global,
    cnf: F,
    claims: C,
    lies: &mut HeaderLies,
) -> Result<CnfFormula, QuestionFault>
    ensures asked { IfOk result (λ asked. OfQuestion (F.remaining cnf) (C.remaining claims)
        (λ formula claimed. asks formula claimed asked)) }
    ensures fault { IfErr result (FailsQuestion (F.remaining cnf) (C.remaining claims)) }
{
    *lies = HeaderLies::none();
    let mut formula = match read_formula(alloc, cnf, &mut lies.formula) {
        Ok(formula) => formula,
        Err(fault) => return Err(QuestionFault::Formula(fault)),
    };
    let claims = read_claims(alloc, claims, &mut lies.claims)?;
    add_failing(alloc, &mut formula, &claims)?;
    Ok(formula)
}

/// Reads claims and returns them.
///
/// # Errors
///
/// `Claims` if they can't be read, `NoClaim`, or `FewClaims` if their header says more than there
/// are.
fn read_claims<C: Read + Drop>(
    alloc: Global,
    text: C,
    lie: &mut Option<LyingHeader>,
) -> Result<CnfFormula, QuestionFault>
    ensures whole { IfOk result (λ claims. AreClaims (C.remaining text) claims) }
    ensures fault { IfErr result (FailsClaims (C.remaining text)) }
{
    let claims = match read_formula(alloc, text, lie) {
        Ok(claims) => claims,
        Err(fault) => return Err(QuestionFault::Claims(fault)),
    };
    if lacks_clauses(*lie) {
        return Err(QuestionFault::FewClaims);
    }
    if claims.is_empty() {
        return Err(QuestionFault::NoClaim);
    }
    Ok(claims)
}
