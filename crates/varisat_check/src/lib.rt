//! Whether a proof shows a formula to be unsatisfiable, said in one line.
#![tactic(auto)]

pub mod fault;
pub mod formula;
mod line;
pub mod lrat;
pub mod run;
pub mod verdict;

pub use fault::RunFault;
pub use formula::read_formula;
pub use lrat::run_lrat;
pub use run::{run_check, run_proof};
pub use verdict::Verdict;
pub use verdicts::exit_status;
