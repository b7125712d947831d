//! The steps over the parts of a checker: each kind's effect, and what processors and transcripts
//! receive.
#![tactic(auto)]

mod emit;

// What `varisat_checker` passes on, under the names of the Rust crate's modules.
pub mod check;
pub mod context;
pub mod processing;
pub mod steps;
pub mod variables;

// Public since contracts of crates above name a context, and so the types of its fields.
#[doc(hidden)]
pub mod marks;
