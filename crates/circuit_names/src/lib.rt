//! The names of inputs and outputs in two texts in AIGER, by which they are paired.
//!
//! Source: Biere, Heljanko, Wieringa, AIGER 1.9 and beyond, 2011.
#![tactic(auto)]

mod arranged;
mod fault;
mod laws;
mod names;
mod pairing;
mod place;
mod positions;
mod table;

pub use fault::{PairFault, Spot};
pub use laws::name_rows;
pub use names::Which;
pub use pairing::{Pairing, names_nothing, paired};
pub use place::Kind;
