//! How conversions end.
ghost use Rattle.std.specs.Prelude.{◌≡◌};
ghost use Rattle.lrat_to_proof.specs.Conversions.{conversion_of, shows_unsat};

use verdicts::Claims;

/// How a conversion ends.
#[derive(Clone, Copy, Debug, PartialEq, Eq)]
pub enum Conversion {
    /// The lines derive the empty clause, or two opposite units: a checker that accepts the proof
    /// finds the formula unsatisfiable.
    Refuted,
    /// The lines end before that.
    Open,
}

impl Conversion {
    /// Returns the result by whether the empty clause or two opposite units were derived.
    pub(crate) fn of(refuted: bool) -> Conversion
        ensures { result ≡ conversion_of refuted }
    {
        if refuted {
            Conversion::Refuted
        } else {
            Conversion::Open
        }
    }
}

/// A conversion claims a proof that derives the empty clause.
impl Claims for Conversion {
    ghost claimed = { shows_unsat };

    fn claims(&self) -> bool {
        matches!(self, Conversion::Refuted)
    }
}
