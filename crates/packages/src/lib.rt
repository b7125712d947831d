//! Packages as data: what a stanza of an index says, and the order of versions.
#![tactic(auto)]

mod fault;
mod package;
mod parts;
mod ranks;
mod version;

pub use fault::VersionFault;
pub use package::{Bound, Feature, Group, Need, Package, Relation};
pub use version::Version;
