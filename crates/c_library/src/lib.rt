//! The checkers for callers in C: over texts in memory, sessions of queries, and the ported checker
//! step by step.
//!
//! Between calls only sessions and such checkers keep anything, so calls from several threads share
//! nothing else.
#![tactic(auto)]

mod checker;
mod drat;
mod lrat;
mod model;
mod room;
mod session;
mod status;
mod version;
