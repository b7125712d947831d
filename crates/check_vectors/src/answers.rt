//! Results of the checker's calls as text.
use checker_parts::error::{CheckerError, DimacsError};
use std::alloc::{AllocError, Global};

/// Returns the text of a result: `Ok`, or the name of the fault, with the number of the step if it
/// has one, and the cause. Fails only if there is no memory.
pub fn answer(alloc: Global, answer: Result<(), CheckerError>) -> Result<String, AllocError> {
    match answer {
        Ok(()) => format!(in alloc; "Ok"),
        Err(fault) => fault_text(alloc, fault),
    }
}

/// Returns the text of a fault, as `answer` does.
fn fault_text(alloc: Global, fault: CheckerError) -> Result<String, AllocError> {
    match fault {
        CheckerError::ProofIncomplete { step } => format!(in alloc; "ProofIncomplete {step}"),
        CheckerError::IoError { step, cause } => {
            format!(in alloc; "IoError {step} {:?}", cause.kind())
        }
        CheckerError::ParseError { step, cause } => {
            format!(in alloc; "ParseError {step} {cause:?}")
        }
        CheckerError::CheckFailed { step, msg, .. } => {
            format!(in alloc; "CheckFailed {step} {msg:?}")
        }
        CheckerError::ProofProcessorError { .. } => format!(in alloc; "ProofProcessorError"),
        CheckerError::OutOfMemory => format!(in alloc; "OutOfMemory"),
        CheckerError::Failed => format!(in alloc; "Failed"),
    }
}

/// Returns the text of the result for a formula's text: a malformed one has the number of its line.
/// Fails only if there is no memory.
pub fn text_answer(alloc: Global, answer: Result<(), DimacsError>) -> Result<String, AllocError> {
    match answer {
        Ok(()) => format!(in alloc; "Ok"),
        Err(DimacsError::Read(cause)) => format!(in alloc; "Read {:?}", cause.kind()),
        Err(DimacsError::Malformed { line, kind }) => {
            format!(in alloc; "Malformed {line} {kind:?}")
        }
        Err(DimacsError::Checker(fault)) => fault_text(alloc, fault),
    }
}
