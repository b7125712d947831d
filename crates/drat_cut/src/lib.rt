//! Cuts DRAT and DPR proofs into pieces while they are read: the live clauses at each position of a
//! proof, and the steps that have an effect.
//!
//! It need not be trusted: a checker checks each piece, and if the live clauses are wrong, the
//! piece before or after them is rejected.
#![tactic(auto)]

mod ahead;
mod clause;
mod cutter;
mod fault;
mod live;
mod seen;
mod slots;
mod steps;
mod text;
mod units;
mod watches;
mod words;

pub use cutter::{Additions, Cutter, Taken};
pub use fault::CutFault;
pub use steps::{CutStep, ProofSteps};
