//! Texts that the programs write for other programs: lines of LRAT proofs, steps of DRAT proofs,
//! and formulas as DIMACS.
#![tactic(auto)]

mod binary;
mod form;
mod formula;
pub mod laws;
mod line;
mod step;
mod words;

pub use form::LineForm;
pub use formula::write_formula;
pub use line::{number_after, write_lrat_line};
pub use step::{push_addition, push_deletion};
