//! Why a proof is not cut.
use std::alloc::AllocError;
use thiserror::Error;

/// Why a proof is not cut.
#[derive(Clone, Copy, Debug, PartialEq, Eq, Error)]
pub enum CutFault {
    #[error("out of memory")]
    OutOfMemory(#[from(alloc)] AllocError),
    /// More clauses are live than 32 bits can number.
    #[error("too many clauses live")]
    TooMany,
}
