//! Whether a formula is whole.
ghost use Rattle.std.specs.Prelude.{◌≡◌};
ghost use Rattle.model_check.specs.Wholeness.{cut_of};

use sat_formula::Counts;
use thiserror::Error;

/// What a formula lacks that was read to its end without a fault.
#[derive(Clone, Copy, Debug, PartialEq, Eq, Error)]
pub enum CutFormula {
    /// Clauses that its header says.
    #[error("it ends after {read} of {said} clauses")]
    FewClauses { said: u64, read: u64 },
    /// All: it has neither a header nor a clause.
    #[error("it has neither a header nor a clause")]
    NoClause,
}

/// Returns what is missing of a formula of this many clauses, after its header or none.
pub(crate) fn cut_of(header: Option<Counts>, count: u64) -> Option<CutFormula>
    ensures { result ≡ cut_of header count }
{
    match header {
        None if count == 0 => Some(CutFormula::NoClause),
        Some(said) if count < said.clauses => Some(CutFormula::FewClauses {
            said: said.clauses,
            read: count,
        }),
        _ => None,
    }
}
