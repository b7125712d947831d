//! Receipts in files: what a checker has shown of the bytes that it holds, written to a file that
//! is whole before it gets its name, and has its name before the verdict's line is written.
#![tactic(auto)]

mod digested;
mod said;
mod shown;
mod whole;

pub use digested::{Digested, hold_digested};
pub use said::{piece_receipt, refuted_by, satisfied_by};
pub use shown::keep_receipt;
pub use whole::{RECEIPT, whole_receipt};
