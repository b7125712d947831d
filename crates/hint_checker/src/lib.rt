//! A checker of lines of hints in the LRAT format, which stores only ids and clauses.
#![tactic(auto)]

mod checker;
mod fault;
pub mod laws;
mod listing;
mod sink;

pub use checker::HintChecker;
pub use fault::{HintFault, HintTextFault, LineFault};
