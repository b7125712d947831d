//! The formulas of circuits: one that is never true, two that are the same, and a machine that an
//! invariant shows to be safe.
//!
//! Source: Tseitin, On the complexity of derivation in propositional calculus, 1968.
#![tactic(auto)]

mod causes;
mod counts;
mod fault;
mod fits;
mod gates;
mod induction;
mod latches;
mod never;
mod order;
mod places;
mod same;
mod shapes;
mod shift;

pub use fault::ClausesFault;
pub use induction::{Induction, Part};
pub use never::never_formula;
pub use same::same_formula;
pub use shapes::bad_outputs;
