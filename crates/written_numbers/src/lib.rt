//! Numbers and literals as they are written: words of a text, and bytes of seven bits.
#![tactic(auto)]

pub mod groups;
pub mod words;
