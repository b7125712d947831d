//! What a program prints to standard error during a long run: its progress, and the log that the
//! environment asks for.
#![tactic(auto)]

mod bytes;
mod console;
mod manner;
mod told;

pub use bytes::ToldBytes;
pub use console::{AskedLog, asked_for};
pub use manner::Manner;
pub use told::Progress;
