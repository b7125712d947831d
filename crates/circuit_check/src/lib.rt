//! Whether a proof shows that a circuit is never true, or that two circuits are the same, or proofs
//! that a machine is safe; or whether a solver's answer shows that a circuit can be true, or that
//! two circuits differ, or a stimulus that a machine is not safe. The verdict is written as a line.
//!
//! The formula is made of the circuits' texts, and the proof is checked against it. Of an answer
//! the input is simulated, and of a stimulus each step; the formula is not used.
#![tactic(auto)]

mod answers;
mod fault;
mod formulas;
mod line;
mod pair;
mod reached;
mod run;
mod safe;
mod shape;

pub use answers::{run_different, run_possible};
pub use circuit_answers::Reach;
pub use circuit_clauses::ClausesFault;
pub use circuit_names::{PairFault, Pairing};
pub use drat_check::{ProofFormat, Verdict, exit_status};
pub use fault::{CircuitFault, ReachFault};
pub use line::Claim;
pub use pair::PairTexts;
pub use reached::run_reached;
pub use run::{run_never, run_same, write_never, write_same};
pub use safe::{PartProofs, run_safe, write_safe};
