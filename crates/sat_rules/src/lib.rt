//! What all checkers of this repository mean by literals, clauses, truth, and a clause that follows
//! by hints.
//!
//! Nothing here runs. The definitions are in `specs/`: literals are their codes, clauses are lists
//! of codes, and a clause under an id can be named by a hint. The checkers of LRAT lines, of hints
//! and of varisat's proofs cite them in their contracts, and share nothing else. The functions of
//! [`laws`] have empty bodies: the clause of each is a theorem over the definitions.
#![tactic(auto)]

pub mod laws;
