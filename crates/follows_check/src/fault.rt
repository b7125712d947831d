//! Why a run has no verdict.
ghost use Rattle.std.specs.Prelude.{◌≡◌};
ghost use Rattle.follows_check.specs.declared.fault.QuestionFault.TheVariants.{OutOfMemory};

use answer_text::AnswerFault;
use model_check::CutFormula;
use sat_formula::DimacsFault;
use std::alloc::{AllocError, AllocFailed};
use thiserror::Error;

/// Why no formula is made of a formula and claims.
#[derive(Debug, Drop, Error)]
pub enum QuestionFault {
    /// The formula was not read whole.
    #[error("formula: {0}")]
    Formula(DimacsFault),
    /// The claims were not read whole.
    #[error("claims: {0}")]
    Claims(DimacsFault),
    /// The claims were read to their end, and there are fewer than their header says.
    #[error("claims: there are fewer than the header says")]
    FewClaims,
    /// There is none.
    #[error("claims: there is no clause")]
    NoClaim,
    /// There is no variable left for the selector of some claim.
    #[error("claims: there are too many for the variables that are left")]
    ManyVariables,
    /// There was no memory for the clauses that say that a claim fails.
    #[error("out of memory")]
    OutOfMemory,
}

/// Why a run has no verdict.
#[derive(Debug, Drop, Error)]
pub enum RunFault {
    /// The formula or the claims were rejected.
    #[error("{0}")]
    Question(QuestionFault),
    /// There is no verdict on the proof.
    #[error("{0}")]
    Proof(drat_check::RunFault),
    /// The answer was not read whole, or is not that a formula is satisfiable.
    #[error("answer: {0}")]
    Answer(AnswerFault),
    /// The formula that is to be satisfied was read to its end, and is not whole.
    #[error("formula: {0}")]
    Cut(CutFormula),
}

impl From<AllocError> for QuestionFault {
    ghost from_gives = { λ _ result. result ≡ OutOfMemory };

    fn from(_e: AllocError) -> QuestionFault {
        QuestionFault::OutOfMemory
    }
}

impl<T: Drop> From<AllocFailed<T>> for QuestionFault {
    ghost from_gives = { λ _ result. result ≡ OutOfMemory };

    fn from(_e: AllocFailed<T>) -> QuestionFault {
        QuestionFault::OutOfMemory
    }
}
