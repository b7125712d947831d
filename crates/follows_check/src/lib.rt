//! Checks whether claims follow from a formula: a proof shows that they do, or the answer of a
//! solver that they do not. It also checks whether all clauses of an unsatisfiable formula are
//! needed.
//!
//! The proof that claims follow is checked after a formula that is made in memory: the formula, and
//! some claim fails. The file that the solver was given need not be trusted.
#![tactic(auto)]

mod answer;
mod failing;
mod fault;
mod lies;
mod minimal;
mod models;
mod question;
mod refuting;
mod run;
mod selectors;
mod values;
mod verdict;

pub use answer::run_answer;
pub use drat_check::ProofFormat;
pub use fault::{QuestionFault, RunFault};
pub use lies::HeaderLies;
pub use minimal::{CoreFault, MinimalVerdict, run_minimal};
pub use question::write_question;
pub use run::run_proof;
pub use verdict::{Verdict, ended};
