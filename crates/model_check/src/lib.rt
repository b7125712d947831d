//! Whether the literals of a solver's answer satisfy a formula.
#![tactic(auto)]

mod clauses;
mod fault;
mod laws;
mod run;
mod verdict;
mod whole;

pub use clauses::{Judged, judge};
pub use fault::RunFault;
pub use laws::met_clauses_are_satisfied;
pub use run::run_check;
pub use verdict::Verdict;
pub use verdicts::exit_status;
pub use whole::CutFormula;
