//! Why a line could not be read.
use sat_formula::read_fault::{FaultKind, LineNumber, ReadFault};
use thiserror::Error;

/// What is wrong with a text.
#[derive(Clone, Copy, Debug, PartialEq, Eq, Error)]
pub enum TextKind {
    /// The first line that is neither blank nor a comment is not the header, which is needed there,
    /// or there is none.
    #[error("no header")]
    NoHeader,
    /// A byte that the line does not have here, or its end.
    #[error("malformed line")]
    Malformed,
    /// An id or a hint of 2^60 or more, or a variable above `Var::MAX_COUNT`.
    #[error("number too large")]
    NumberTooLarge,
    /// The text ends within a line that would be right with a line end.
    #[error("unfinished line")]
    Unfinished,
}

impl FaultKind for TextKind {
    const TEXT: &'static str = "text";
}

/// Why a reader gave up.
pub type SessionTextFault = ReadFault<LineNumber, TextKind>;
