//! Why a run has no verdict.
use crate::whole::CutFormula;
use answer_text::AnswerFault;
use sat_formula::DimacsFault;
use thiserror::Error;

/// Why a run has no verdict.
#[derive(Debug, Drop, Error)]
pub enum RunFault {
    /// The answer was not read whole, or is not that the formula is satisfiable.
    #[error("answer: {0}")]
    Answer(AnswerFault),
    /// The formula was not read whole.
    #[error("formula: {0}")]
    Formula(DimacsFault),
    /// The formula was read to its end, and is not whole.
    #[error("formula: {0}")]
    Cut(CutFormula),
}
