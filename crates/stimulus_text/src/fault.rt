//! Why a stimulus is rejected.
use sat_formula::read_fault::{FaultKind, LineNumber, ReadFault};
use thiserror::Error;

/// What is wrong with a stimulus.
#[derive(Clone, Copy, Debug, PartialEq, Eq, Error)]
pub enum StimulusKind {
    /// A byte that the form does not have here.
    #[error("malformed")]
    Malformed,
    /// The status is 0.
    #[error("status 0, that nothing bad is reached")]
    Unreached,
    /// The status is 2.
    #[error("status 2, that it is not known whether something bad is reached")]
    Unknown,
    /// The line of the latches has fewer values than there are latches, or more.
    #[error("not as many values as the machine has latches")]
    OtherLatches,
    /// The line of a step has fewer values than there are inputs, or more.
    #[error("not as many values as the machine has inputs")]
    OtherInputs,
    /// The text ends before the `.`.
    #[error("the stimulus ends before its last line")]
    Unfinished,
}

impl FaultKind for StimulusKind {
    const TEXT: &'static str = "stimulus";
}

/// Why a reader of a stimulus gave up.
pub type StimulusFault = ReadFault<LineNumber, StimulusKind>;
