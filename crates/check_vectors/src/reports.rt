//! Further results of a call: the text of its fault, the rejected step that it shows, and the lines
//! of the log.
use crate::registered::Checker;
use crate::steps::Step;
use crate::texts::Text;
use crate::words::{first_word, lits};
use checker_parts::error::CheckerError;
use log::sink::{Discard, Memory};
use std::alloc::Global;
use std::fmt::Display;
use std::test::Fail;
use varisat_checker::internal::SelfChecker;

/// Returns the text of the fault of a call that adds a clause, or takes a proof or a text.
///
/// # Errors
///
/// If the line is no such call, or there is no memory.
pub fn said(alloc: Global, checker: &mut Checker, call: &str, size: usize) -> Result<String, Fail> {
    if let ("add", numbers) = first_word(call) {
        return fault_text(alloc, checker.add_clause(&lits(alloc, numbers)?));
    }
    let text = Text::of(alloc, call, size)?;
    if text.is_proof {
        return fault_text(alloc, checker.check_proof(&Discard, text.cuts()));
    }
    fault_text(alloc, checker.add_dimacs_cnf(&Discard, text.cuts()))
}

/// Returns the text of a fault, or `nothing`.
fn fault_text<E: Display + Drop>(alloc: Global, answer: Result<(), E>) -> Result<String, Fail> {
    match answer {
        Ok(()) => Ok("Ok".to_string(alloc)?),
        Err(fault) => Ok(fault.to_string(alloc)?),
    }
}

/// Returns the text of the rejected step of a proof or a step, or `nothing`. Fails as `said` does.
pub fn shown(
    alloc: Global,
    checker: &mut Checker,
    call: &str,
    size: usize,
) -> Result<String, Fail> {
    if let ("proof", _) = first_word(call) {
        let text = Text::of(alloc, call, size)?;
        return step_text(alloc, checker.check_proof(&Discard, text.cuts()));
    }
    let step = Step::of(alloc, call)?;
    step_text(alloc, checker.self_check_step(step.as_step()))
}

/// Returns the text of the rejected step of a result, or `nothing`.
fn step_text(alloc: Global, answer: Result<(), CheckerError>) -> Result<String, Fail> {
    match answer {
        Err(CheckerError::CheckFailed { debug_step, .. }) => {
            or_nothing(alloc, debug_step.as_str())
        }
        _ => Err("no step is refused".into()),
    }
}

/// Returns the lines of the log of a proof or a text, or `nothing`. Fails as `said` does.
pub fn logged(
    alloc: Global,
    checker: &mut Checker,
    call: &str,
    size: usize,
) -> Result<String, Fail> {
    let memory = Memory::new(alloc);
    let text = Text::of(alloc, call, size)?;
    if text.is_proof {
        let _ = checker.check_proof(&memory, text.cuts());
    } else {
        let _ = checker.add_dimacs_cnf(&memory, text.cuts());
    }
    let mut lines = String::new(alloc);
    for line in memory.into_lines().as_slice() {
        write!(lines, "{}", without_header(line))?;
    }
    or_nothing(alloc, &lines)
}

/// Returns the text of a line of the log, without its level and the module that logs it.
fn without_header(line: &str) -> &str {
    match line.split_once("] ") {
        Some((_, text)) => text,
        None => line,
    }
}

/// Returns the text, or `nothing` if it is empty.
fn or_nothing(alloc: Global, text: &str) -> Result<String, Fail> {
    match text {
        "" => Ok("nothing".to_string(alloc)?),
        _ => Ok(text.to_string(alloc)?),
    }
}
