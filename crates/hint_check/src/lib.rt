//! Whether a proof in lines of hints shows a formula to be unsatisfiable, by the hints alone.
//!
//! The checker of proofs takes no part in it.
#![tactic(auto)]

mod checking;
mod fault;
mod run;

pub use fault::RunFault;
pub use lrat_binary::Ids;
pub use run::run_check;
pub use verdicts::Verdict;
