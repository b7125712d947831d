//! LRAT proofs written as proof bytes: each added clause as a step that names the clauses of its
//! hints by their hashes.
#![tactic(auto)]

mod clause;
mod conversion;
mod converter;
mod fault;
mod hints;
mod holding;
mod run;
mod sink;
mod steps;
mod width;

pub use conversion::Conversion;
pub use fault::{ConvertFault, LineCause};
pub use lrat_binary::Ids;
pub use run::{convert, convert_proof};
pub use verdicts::exit_status;
pub use width::HashWidth;
