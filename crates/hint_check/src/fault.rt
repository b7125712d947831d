//! Why a run has no verdict.
use hint_checker::HintFault;
use sat_formula::DimacsFault;
use std::io;
use thiserror::Error;

/// Why a run has no verdict.
#[derive(Debug, Drop, Error)]
pub enum RunFault {
    /// The formula was not read whole.
    #[error("formula: {0}")]
    Formula(DimacsFault),
    /// The proof was not read whole, though there was memory.
    #[error("error reading hints: {0}")]
    Read(io::Error),
    /// A line of hints was rejected, or memory ran out.
    #[error("{0}")]
    Hints(HintFault),
}
