//! The example of `varisat_checker/CALLING.md`, as a test.
//!
//! It stands apart so that no library is proved a second time with it.
#![tactic(auto)]

#[cfg(test)]
mod library;
