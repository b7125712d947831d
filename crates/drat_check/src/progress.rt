//! The progress of the backward pass, for the log.
use drat_elaborate::Elaborator;
use log::{Log, info};

/// Progress may be reported after this many steps.
pub(crate) const STEPS_A_REPORT: u64 = 64;

/// Reports how much of the proof was checked backward, of this many steps.
pub(crate) fn tell_checked<L: Log>(rt: &L, elaborator: &Elaborator, steps: u64) {
    let done = steps.saturating_sub(elaborator.steps_left());
    let hundredths = done.saturating_mul(100) / steps.max(1);
    let checked = elaborator.checked();
    info!(rt; "proof: {hundredths} % of {steps} steps gone over backward, {checked} checked");
}
