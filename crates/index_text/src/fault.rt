//! What is wrong with an index.
ghost use Rattle.std.specs.Prelude.{◌≡◌};
ghost use Rattle.sat_formula.specs.declared.stop.Stop.TheVariants as stops;

use sat_formula::read_fault::FaultKind;
use sat_formula::stop::Stop;
use thiserror::Error;

/// What is wrong with an index.
#[derive(Clone, Copy, Debug, PartialEq, Eq, Error)]
pub enum IndexKind {
    /// A line that is no field, as one without a `:`.
    #[error("no field")]
    NoField,
    /// The text ends within a line, before its LF.
    #[error("unfinished line")]
    Unfinished,
    /// Bytes that no relation has there, as a bound that is not closed.
    #[error("malformed relation")]
    Malformed,
    /// Nothing stands before or after a `,` or a `|`, or in the whole field.
    #[error("an empty relation")]
    EmptyRelation,
    /// A package's name has at least two bytes: `a` to `z`, digits, and, not as the first, `+`, `-`
    /// and `.`.
    #[error("no name of a package")]
    BadName,
    /// A `:` without the name of an architecture or `any` after it.
    #[error("no qualifier")]
    BadQualifier,
    /// A bound's sign is none of `<<`, `<=`, `=`, `>=` and `>>`.
    #[error("no sign of a bound")]
    BadSign,
    /// `<` or `>`, which once meant `<=` and `>=`.
    #[error("`<` or `>`, which is obsolete")]
    ObsoleteSign,
    /// As `is_version` has it.
    #[error("no version")]
    BadVersion,
    /// A `|` in a field that has no alternatives.
    #[error("alternatives where none may be")]
    Alternatives,
    /// A feature that is provided has a qualifier, or a bound other than `=`.
    #[error("no feature that can be provided")]
    BadFeature,
    /// A list of architectures or of build profiles, which only sources have.
    #[error("a list of architectures or profiles")]
    Restriction,
}

impl FaultKind for IndexKind {
    const TEXT: &'static str = "index";
}

impl From<IndexKind> for Stop<IndexKind> {
    ghost from_gives = { λ kind stop. stop ≡ stops.Wrong kind };

    fn from(kind: IndexKind) -> Stop<IndexKind> {
        Stop::Wrong(kind)
    }
}
