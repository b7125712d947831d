//! LRAT proofs as solvers write them, text or binary: lines that add a clause with its hints, or
//! delete clauses.
#![tactic(auto)]

mod binary;
mod draft;
mod fault;
mod first;
mod ids;
pub mod laws;
mod lines;
mod number;
mod proof;
mod reader;
mod seeing;
mod sink;
mod telling;

pub use first::FirstBytes;
pub use ids::{Ids, LratForm};
pub use lines::{take_lines, take_proof};
pub use proof::{LratReader, open_proof};
pub use reader::BinaryReader;
pub use sink::{LineSink, UntakenLine};
