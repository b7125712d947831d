//! A system for tests, all of whose files are known: they stand in a list, and what a run writes
//! and prints is kept. So the contracts of a system can be met by one that hides nothing.
#![tactic(auto)]

mod inputs;
mod listed;
mod outputs;
mod runs;

pub use inputs::ListedFile;
pub use listed::{ListedFiles, Target};
pub use outputs::{ListedNames, ListedOutput, NamedFile};
pub use runs::{Run, first_unlike};
