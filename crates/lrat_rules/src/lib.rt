//! The rules of LRAT proofs, as definitions, and laws over them.
//!
//! Nothing here runs. Read `specs/Lines.antt` first. A store is a list of clauses with their ids, a
//! line adds a clause or deletes some, and `step` gives the store after an accepted line. A clause
//! is added if it follows by unit propagation over hints, or if it is RAT on its pivot, as the
//! candidates of its line show. The functions of [`laws`] have empty bodies: the clause of each is
//! a theorem over the definitions.
#![tactic(auto)]

pub mod laws;
