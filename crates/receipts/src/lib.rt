//! Receipts: what a checker has shown, by the SHA-256 digests of the texts, in a line that another
//! program reads; and what receipts show together.
#![tactic(auto)]

mod fault;
pub mod laws;
mod reader;
mod receipt;
mod writer;

pub use fault::ReceiptFault;
pub use reader::read_receipts;
pub use receipt::Receipt;
pub use writer::{read_digested, write_receipt};
