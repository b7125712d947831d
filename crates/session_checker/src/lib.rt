//! A checker of the answers in a session of queries to a solver, each as it comes: clauses are
//! given, lemmas follow by propagation along hints, and each query fails or has a model.
#![tactic(auto)]

mod assuming;
mod checker;
mod fault;
mod given;
pub mod laws;
mod numbered;
mod propagation;

pub use checker::SessionChecker;
pub use fault::{SessionCause, SessionFault};
