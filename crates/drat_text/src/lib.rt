//! Proofs of steps, text or binary, as solvers write them, read by the rules of a grammar: that of
//! DRAT, where a step adds a clause or deletes one, and that of FRAT, where steps name clauses by
//! ids, and may say why a clause follows.
//!
//! Sources: Wetzler, Heule, Hunt, DRAT-trim, SAT 2014; for witnesses Heule, Kiesl, Biere, Short
//! Proofs Without New Variables, CADE 2017; for FRAT Baek, Carneiro, Heule, A Flexible Proof Format
//! for SAT Solver-Elaborator Communication, TACAS 2021.
#![tactic(auto)]

mod binary;
#[doc(hidden)]
pub mod bytes;
#[doc(hidden)]
pub mod code;
mod drat;
mod drat_reader;
mod fault;
mod frat;
mod frat_reader;
mod frat_step;
mod frat_telling;
#[doc(hidden)]
pub mod grammar;
pub mod laws;
#[doc(hidden)]
pub mod number;
#[doc(hidden)]
pub mod reader;
mod step;
mod text;

pub use drat::DratStep;
pub use drat_reader::DratReader;
pub use fault::{DratFault, DratKind, StepNumber};
pub use frat_reader::FratReader;
pub use frat_step::{FratAction, FratHint, FratStep, Renaming};
pub use frat_telling::is_frat;
