//! Turns DRAT, DPR, LPR and FRAT proofs into lines of LRAT proofs, by backward checking.
//!
//! It need not be trusted: a checker of LRAT proofs checks its lines.
//!
//! Sources: DRAT and backward checking by Wetzler, Heule and Hunt (DRAT-trim, 2014), propagation
//! over used clauses first by Heule, Hunt and Wetzler (Trimming while Checking Clausal Proofs,
//! 2013), PR by Heule, Kiesl and Biere (Short Proofs Without New Variables, 2017).
//! `docs/reference/LITERATURE.md` has the full titles.
#![tactic(auto)]

mod arena;
mod attach;
mod backward;
mod byte_stack;
mod check;
mod clauses;
mod dying;
mod elaborator;
mod fault;
mod forward;
mod frat;
mod hinted;
mod lines;
mod lit_set;
mod local;
mod look;
mod lookup;
mod lpr;
mod names;
mod occurrences;
mod place_set;
mod propagator;
mod queue;
mod recent;
mod records;
mod redundancy;
mod room;
mod stale;
mod standing;
mod steps;
mod sweep;
mod tautologies;
mod trail;
mod variables;
mod wanted;
mod watches;
mod witness_lines;
mod witnesses;
mod written;

pub use elaborator::Elaborator;
pub use fault::ElaborateFault;
