//! Lists of literals, names, errors, checked steps and the traits of processors.
//!
//! All of it is for callers of the checker and writers of processors, except `error::StepFault`,
//! which is public since the steps return it.
#![tactic(auto)]

pub mod error;
pub mod processor;
pub mod sorted_lits;
pub mod step;
pub mod transcript;
pub mod variables;
