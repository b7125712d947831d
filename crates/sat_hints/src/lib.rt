//! A writer of lines of hints in the LRAT format.
#![tactic(auto)]

mod fault;
pub mod laws;
mod writer;

pub use fault::WriterFault;
pub use writer::LratWriter;
