//! Whether receipts show that no assignment satisfies a formula: the receipts of the parts of a
//! formula that is split into cubes, or those of the pieces of a proof.
//!
//! A receipt says what a checker has shown of the text with a digest. Where all receipts are
//! honest, what they show together is proved here.
#![tactic(auto)]

mod carriers;
mod digests;
mod fault;
mod judging;
mod line_hasher;
mod part_texts;
mod parts;
mod run;
mod splitting;
mod verdict;

pub use fault::RunFault;
pub use run::{run_cubes, run_pieces};
pub use verdict::{Unshown, Verdict};
