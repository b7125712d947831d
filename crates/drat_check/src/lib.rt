//! Whether a DRAT, DPR, FRAT or LPR proof shows that a formula is unsatisfiable, or whether one
//! piece of a proof derives its target clauses.
//!
//! An elaborator that need not be trusted turns the proof into lines of an LRAT proof, and the
//! checker of LRAT proofs checks each. The verdict is that checker's.
#![tactic(auto)]

mod counts;
mod fault;
mod outputs;
mod piece;
mod piece_core;
mod piece_fault;
mod progress;
mod proof;
mod reader;
mod run;
mod stored;
mod trimmed;

pub use counts::RunCounts;
pub use fault::{ProofFault, RunFault};
pub use outputs::Outputs;
pub use piece::{PieceOutputs, run_piece};
pub use piece_fault::PieceFault;
pub use reader::ProofFormat;
pub use run::{run_check, run_proof};
pub use sat_output::LineForm;
pub use verdicts::{MissingClause, PieceVerdict, Verdict, exit_status};
