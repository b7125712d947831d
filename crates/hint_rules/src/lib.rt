//! Texts of lines of hints: what they say, and which are accepted.
#![tactic(auto)]
