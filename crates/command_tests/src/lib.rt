//! What no clause of `command`, `whole_writes` and `progress` says, as tests: files that are read
//! up to a bound, writers that take bytes in parts or fail, and what is reported during a run.
//! Words of calls and files by their first bytes are rows of `tests/rows`.
//!
//! They stand apart so that no library is proved a second time with them.
#![tactic(auto)]

#[cfg(test)]
mod held;
#[cfg(test)]
mod pieces;
#[cfg(test)]
mod reports;
#[cfg(test)]
mod writes;
