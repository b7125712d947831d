//! The texts of a session of queries to a solver: what the application told, as ICNF, and the
//! proof, as LIDRUP. A line gives a clause, derives or deletes one, asks, or answers.
//!
//! Source: Fazekas, Pollitt, Fleury, Biere, Certifying Incremental SAT Solving, LPAR 2024.
#![tactic(auto)]

mod fault;
mod format;
mod grammar;
pub mod laws;
mod line;
mod number;
mod reader;
mod said;
mod spot;

pub use fault::{SessionTextFault, TextKind};
pub use format::Format;
pub use line::{LineKind, Lists, Status};
pub use reader::SessionReader;
