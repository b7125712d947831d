//! Calls of a checker as lines of text.
//!
//! - `add LITS`: adds an input clause;
//! - `given CLAUSES`: adds input clauses, which bars divide, and which are accepted;
//! - `formula CLAUSES`: adds a formula, each of whose clauses ends with a bar; where it is
//!   accepted, the answer is how many clauses and variables it has;
//! - `delayed`: closes a conflict of units;
//! - a text of [`crate::texts`]: checks a proof, or adds a formula's text;
//! - another step of [`crate::steps`]: hands in the step;
//! - `unsat`, `inputs`, `counts`: looks at what is recorded;
//! - `says CALL`, `shows CALL`, `logs CALL`: another answer of a call: see [`crate::reports`];
//! - `count BYTES : CLAUSES`: how many steps of a proof, bytes in hexadecimal, are delivered to a
//!   processor, for such a formula.
use crate::answers::{answer, text_answer};
use crate::counting::count_steps;
use crate::registered::Checker;
use crate::reports::{logged, said, shown};
use crate::steps::Step;
use crate::texts::Text;
use crate::words::{bytes, first_word, formula, lits};
use log::sink::Discard;
use std::alloc::Global;
use std::test::Fail;
use varisat_checker::internal::SelfChecker;

/// Makes the call of a line, with this many bytes a read, and returns the text of its result.
///
/// # Errors
///
/// If the line is no call, or there is no memory.
pub fn make(alloc: Global, checker: &mut Checker, call: &str, size: usize) -> Result<String, Fail> {
    let (name, rest) = first_word(call);
    match name {
        "add" => Ok(answer(alloc, checker.add_clause(&lits(alloc, rest)?))?),
        "given" => give(alloc, checker, rest),
        "formula" => add_formula(alloc, checker, rest),
        "delayed" => Ok(answer(alloc, checker.self_check_delayed_steps())?),
        "proof" | "long" | "dimacs" | "failing" => {
            let text = Text::of(alloc, call, size)?;
            take(alloc, checker, &text)
        }
        "says" => said(alloc, checker, rest, size),
        "shows" => shown(alloc, checker, rest, size),
        "logs" => logged(alloc, checker, rest, size),
        _ => look(alloc, checker, call),
    }
}

/// Returns what is recorded under a name, or makes a step and returns its result.
fn look(alloc: Global, checker: &mut Checker, call: &str) -> Result<String, Fail> {
    match first_word(call) {
        ("unsat", _) => Ok(format!(in alloc; "{}", checker.unsat())?),
        ("inputs", _) => Ok(format!(in alloc; "{}", checker.input_clauses())?),
        ("counts", _) => {
            let (buffered, stored) = checker.literal_counts();
            Ok(format!(in alloc; "{buffered} {stored}")?)
        }
        ("count", rest) => counted(alloc, rest),
        _ => {
            let step = Step::of(alloc, call)?;
            Ok(answer(alloc, checker.self_check_step(step.as_step()))?)
        }
    }
}

/// Adds input clauses, each of which must be accepted.
fn give(alloc: Global, checker: &mut Checker, clauses: &str) -> Result<String, Fail> {
    for clause in clauses.split('|') {
        if checker.add_clause(&lits(alloc, clause)?).is_err() {
            return Err("a clause is refused".into());
        }
    }
    Ok("Ok".to_string(alloc)?)
}

/// Adds a formula, and returns the result, or how many clauses and variables it has.
fn add_formula(alloc: Global, checker: &mut Checker, clauses: &str) -> Result<String, Fail> {
    let formula = formula(alloc, clauses)?;
    match checker.add_formula(&formula) {
        Ok(()) => Ok(format!(in alloc; "{} {}", formula.len(), formula.var_count())?),
        Err(fault) => Ok(answer(alloc, Err(fault))?),
    }
}

/// Checks a proof, or adds a formula's text, and returns the result.
fn take(alloc: Global, checker: &mut Checker, text: &Text) -> Result<String, Fail> {
    if text.is_proof {
        return Ok(answer(alloc, checker.check_proof(&Discard, text.cuts()))?);
    }
    Ok(text_answer(alloc, checker.add_dimacs_cnf(&Discard, text.cuts()))?)
}

/// Returns how many steps a processor receives of a proof, for the line `count`.
fn counted(alloc: Global, line: &str) -> Result<String, Fail> {
    let (numbers, clauses) = line.split_once(" : ").ok_or("no formula")?;
    let formula = formula(alloc, clauses)?;
    let proof = bytes(alloc, numbers)?;
    match count_steps(&Discard, alloc, &formula, proof.as_slice()) {
        Ok(count) => Ok(format!(in alloc; "{count}")?),
        Err(fault) => Ok(answer(alloc, Err(fault))?),
    }
}
