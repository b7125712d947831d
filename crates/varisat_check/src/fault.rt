//! Why a run has no verdict.
use checker_parts::error::{CheckerError, DimacsError};
use std::io;
use thiserror::Error;

/// Why a run has no verdict.
#[derive(Debug, Drop, Error)]
pub enum RunFault {
    /// The formula was not added whole.
    #[error("{0}")]
    Formula(DimacsError),
    /// The proof was not accepted up to its end.
    #[error("{0}")]
    Proof(CheckerError),
    /// The verdict was reached, but its line could not be written.
    #[error("error writing: {0}")]
    Write(io::Error),
}
