//! What is recorded in addition to the clauses, and how a proof is checked.
pub use crate::proof::check_proof;
pub use checker_steps::check::{check_step, process_unit_conflicts};
pub use clause_store::state::CheckerState;
