//! What checkers keep: the clauses under their ids, those of small ids in one buffer, and which
//! literals are true.
#![tactic(auto)]

mod growth;
mod marks;
mod named;
mod near;
mod room;
mod values;

pub use growth::grow;
pub use marks::Marks;
pub use named::NamedClauses;
pub use near::NearClauses;
pub use room::{gets_place, gets_room};
pub use values::{Left, Values};
