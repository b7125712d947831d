//! Circuits of and gates and machines with latches: what they compute, and which formulas say the
//! same.
//!
//! Source of the form: Biere, Heljanko, Wieringa, AIGER 1.9 and beyond, 2011; of the clauses:
//! Tseitin, On the complexity of derivation in propositional calculus, 1968.
#![tactic(auto)]

pub mod laws;
