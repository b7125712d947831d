//! LRAT text, as solvers write it: a line adds a clause with its hints, or deletes clauses.
//!
//! Source: Cruz-Filipe, Heule, Hunt, Kaufmann, Schneider-Kamp, Efficient Certified RAT
//! Verification, CADE 2017.
#![tactic(auto)]

mod fault;
mod items;
pub mod laws;
mod line;
mod lines;
mod number;
mod reader;
#[doc(hidden)]
pub mod row;
mod words;

pub use fault::{LineKind, LratTextFault};
pub use line::{Hint, LratLine};
pub use reader::LineReader;
