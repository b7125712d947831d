//! Why an answer is rejected.
use sat_formula::read_fault::{FaultKind, LineNumber, ReadFault};
use thiserror::Error;

/// What is wrong with an answer.
#[derive(Clone, Copy, Debug, PartialEq, Eq, Error)]
pub enum AnswerKind {
    /// A line of a kind that no answer has, or a word that its kind of line does not have.
    #[error("malformed")]
    Malformed,
    /// A variable above `Var::MAX_COUNT`.
    #[error("number too large")]
    NumberTooLarge,
    /// `s UNSATISFIABLE`.
    #[error("the answer is UNSATISFIABLE")]
    Unsatisfiable,
    /// `s UNKNOWN`.
    #[error("the answer is UNKNOWN")]
    Unknown,
    /// A second `s SATISFIABLE`.
    #[error("a second status line")]
    SecondStatus,
    /// A number after the 0 that ends the literals.
    #[error("a number after the last one")]
    AfterEnd,
    /// A literal, and its negation before it.
    #[error("both signs of a variable")]
    BothSigns,
    /// The text ends before the 0 that ends the literals.
    #[error("the answer ends before its last 0")]
    Unfinished,
    /// The literals are in `v` lines, and there is no `s SATISFIABLE`.
    #[error("no status line")]
    NoStatus,
}

impl FaultKind for AnswerKind {
    const TEXT: &'static str = "answer";
}

/// Why a reader of an answer gave up.
pub type AnswerFault = ReadFault<LineNumber, AnswerKind>;
