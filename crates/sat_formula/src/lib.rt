//! Variables, literals, formulas and DIMACS text, with the mismatches of its header.
#![tactic(auto)]

mod ahead;
pub mod bytes;
mod clauses;
mod cnf;
mod counts;
mod dimacs;
mod fault;
mod formula;
pub mod laws;
pub mod lit;
mod past;
pub mod read_fault;
mod sink;
pub mod source;
pub mod stop;
mod text;
mod word;

pub use clauses::{read_clauses, read_into};
pub use cnf::{CnfClauses, CnfFormula};
pub use counts::{Counts, LyingHeader};
pub use dimacs::DimacsReader;
pub use fault::{DimacsFault, DimacsKind};
pub use formula::read_formula;
pub use lit::{Lit, Var};
pub use sink::{ClauseSink, Summary, UntakenClause};
