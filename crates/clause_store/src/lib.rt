//! The stored clauses, their hashes and units, and the check of a clause by propagation over them.
#![tactic(auto)]

// What `varisat_checker` passes on, under the names of the Rust crate's modules.
pub mod clauses;
pub mod hash;
pub mod laws;
pub mod rup;

// Public since the steps call into them, and since their contracts, and those of the checker, name
// the types of the parts.
#[doc(hidden)]
pub mod pending;
#[doc(hidden)]
pub mod state;
#[doc(hidden)]
pub mod variables;
