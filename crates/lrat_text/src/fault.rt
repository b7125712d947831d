//! Why a line could not be read.
ghost use Rattle.std.specs.Prelude.{◌≡◌};
ghost use Rattle.sat_formula.specs.declared.stop.Stop.TheVariants as stops;

use sat_formula::read_fault::{FaultKind, LineNumber, ReadFault};
use sat_formula::stop::Stop;
use thiserror::Error;

/// What is wrong with a line.
#[derive(Clone, Copy, Debug, PartialEq, Eq, Error)]
pub enum LineKind {
    /// A word that is no number where one is expected, a number that is not allowed there, a
    /// missing 0 at the end of the line, or a word after its last 0.
    #[error("malformed line")]
    Malformed,
    /// An id or a hint of 2^64 or more, or a variable above `Var::MAX_COUNT`.
    #[error("number too large")]
    NumberTooLarge,
    /// The text ends within a line, before its last 0.
    #[error("unfinished line")]
    Unfinished,
}

impl FaultKind for LineKind {
    const TEXT: &'static str = "proof";
}

/// Why a reader of lines gave up.
pub type LratTextFault = ReadFault<LineNumber, LineKind>;

impl From<LineKind> for Stop<LineKind> {
    ghost from_gives = { λ kind stop. stop ≡ stops.Wrong kind };

    fn from(kind: LineKind) -> Stop<LineKind> {
        Stop::Wrong(kind)
    }
}
