//! A session of queries to a solver, checked while it goes on: each answer is shown or not, with a
//! line for each query.
#![tactic(auto)]

mod counts;
mod fault;
pub mod laws;
mod lines;
mod report;
mod run;
mod session;

pub use counts::Counts;
pub use fault::{LineCause, RunFault};
pub use report::{Reason, Report};
pub use run::{check_alone, check_session};
pub use verdicts::exit_status;
