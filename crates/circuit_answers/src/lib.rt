//! What circuits compute for the input that a solver's answer lists: whether an output is true, or
//! outputs of two circuits differ, by a simulation of the gates. And whether a machine that is run
//! by a stimulus makes a bad output true.
#![tactic(auto)]

mod causes;
mod input;
mod judged;
mod laws;
mod lines;
mod reach;
mod reached;
mod simulation;
mod starts;

pub use judged::{Judged, judge_different, judge_possible};
pub use laws::reached_is_not_safe;
pub use reach::Reach;
pub use reached::judge_reached;
