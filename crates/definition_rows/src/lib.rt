//! Rows on the definitions that the sentence of a verdict's line names: for each at least one for
//! which it is false, so that a weaker or different definition is noticed. `wrong-definitions.txt`
//! has such definitions; a row, or a contract of another crate, rejects each.
#![tactic(auto)]

pub mod laws;
