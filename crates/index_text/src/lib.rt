//! Debian's index of packages: its text, the packages, and what they depend on and conflict with.
//!
//! Source: Debian Policy Manual, 5.1 (syntax of control files) and 7.1 (syntax of relationship
//! fields); deb-version(7).
#![tactic(auto)]

mod class;
mod entry;
mod fault;
mod field;
pub mod laws;
mod lists;
mod relation;
mod stanzas;
mod version;

pub use fault::IndexKind;
pub use field::Field;
pub use lists::{read_conflicts, read_groups, read_provides};
pub use relation::{Bound, Relation, Sign, read_relation};
pub use stanzas::read_stanzas;
pub use version::is_version;
