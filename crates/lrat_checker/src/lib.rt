//! A checker of LRAT proofs as solvers write them: of lines that add clauses by unit propagation
//! over hints, of lines that add RAT clauses with candidates, and of deletions.
#![tactic(auto)]

mod checker;
mod clauses;
mod counts;
mod fault;
mod formula;
mod groups;
mod judging;
mod met;
mod propagation;
mod redundancy;
mod work;

pub use checker::LratChecker;
pub use fault::{LineFault, LratCause, LratFault};
pub use formula::LratFormula;
