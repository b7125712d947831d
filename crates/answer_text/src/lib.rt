//! The answer of a solver that a formula is satisfiable: its text, and the literals that it lists.
#![tactic(auto)]

mod fault;
mod laws;
mod literals;
mod number;
mod reader;
mod spot;

pub use fault::{AnswerFault, AnswerKind};
pub use laws::{answer_rows, answers_are_consistent, bytes_are_lines};
pub use literals::Literals;
pub use reader::read_answer;
