//! Why the pieces are not whole.
use command::FaultPlace;
use drat_cut::CutFault;
use drat_text::DratFault;
use sat_formula::DimacsFault;
use std::alloc::AllocError;
use std::io;
use thiserror::Error;

/// Why the pieces are not whole.
#[derive(Debug, Drop, Error)]
pub enum CutFailure {
    #[error("formula: {0}")]
    Formula(#[from] DimacsFault),
    #[error("proof: {0}")]
    Proof(#[from] DratFault),
    #[error("{0}")]
    Cut(#[from] CutFault),
    #[error("error writing: {0}")]
    Write(#[from] io::Error),
    /// A file can't be opened; standard error has the reason.
    #[error("a file can't be opened")]
    Unopened,
}

impl CutFailure {
    /// Returns in which file the fault is.
    pub fn place(&self) -> FaultPlace<'static> {
        match self {
            CutFailure::Formula(fault) => FaultPlace::in_formula(fault),
            CutFailure::Proof(_) => FaultPlace::DratProof,
            CutFailure::Cut(_) | CutFailure::Write(_) | CutFailure::Unopened => {
                FaultPlace::Elsewhere
            }
        }
    }
}

impl From<AllocError> for CutFailure {
    fn from(fault: AllocError) -> CutFailure {
        CutFailure::Cut(CutFault::OutOfMemory(fault))
    }
}
