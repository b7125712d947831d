//! The stimulus of a machine, as model checkers write it: the first values of the latches, and the
//! values of the inputs at each step.
#![tactic(auto)]

mod fault;
mod laws;
mod reader;
mod spot;
mod stimulus;

pub use fault::{StimulusFault, StimulusKind};
pub use laws::{bytes_are_lines, stimulus_rows};
pub use reader::read_stimulus;
pub use spot::Shape;
pub use stimulus::{Step, Stimulus};
