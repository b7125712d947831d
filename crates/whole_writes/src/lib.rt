//! Writes whose contracts cover every exit: also what a write that failed has left.
#![tactic(auto)]

mod append;

pub use append::{append_whole, write_whole};
