//! Why a step could not be read.
ghost use Rattle.std.specs.Prelude.{◌≡◌};
ghost use Rattle.sat_formula.specs.declared.stop.Stop.TheVariants as stops;

use sat_formula::read_fault::{FaultKind, ReadFault};
use sat_formula::stop::Stop;
use thiserror::Error;

/// What is wrong with a step.
#[derive(Clone, Copy, Debug, PartialEq, Eq, Error)]
pub enum DratKind {
    /// In a text: a word that is no number where one is expected, or `-0`. In binary steps: one
    /// that begins with another byte than `a` or `d`, or a number 1.
    #[error("malformed")]
    Malformed,
    /// A variable above `Var::MAX_COUNT`, or a binary number of more than five bytes.
    #[error("number too large")]
    NumberTooLarge,
    /// The input ends within the step, before its 0.
    #[error("unfinished")]
    Unfinished,
}

/// The number of a step; steps count from 1.
#[derive(Clone, Copy, Debug, PartialEq, Eq, Error)]
#[error("step {0}")]
pub struct StepNumber(pub u64);

impl FaultKind for DratKind {
    const TEXT: &'static str = "proof";
}

impl From<DratKind> for Stop<DratKind> {
    ghost from_gives = { λ kind stop. stop ≡ stops.Wrong kind };

    fn from(kind: DratKind) -> Stop<DratKind> {
        Stop::Wrong(kind)
    }
}

/// Why a reader of steps gave up.
pub type DratFault = ReadFault<StepNumber, DratKind>;
