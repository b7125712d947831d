//! The header mismatches of two files.
ghost use Rattle.std.specs.Prelude.{◌≡◌, None};
ghost use Rattle.follows_check.specs.Claims.{lacks_clauses};

use sat_formula::LyingHeader;

/// The header mismatches of a formula and of claims, each once its file was read whole.
#[derive(Clone, Copy, Debug, PartialEq, Eq)]
pub struct HeaderLies {
    pub formula: Option<LyingHeader>,
    pub claims: Option<LyingHeader>,
}

impl HeaderLies {
    /// Returns no mismatch, as before anything was read.
    pub fn none() -> HeaderLies
        ensures formula { result.formula ≡ None }
        ensures claims { result.claims ≡ None }
    {
        HeaderLies {
            formula: None,
            claims: None,
        }
    }
}

/// Returns whether a mismatched header says more clauses than were read.
pub(crate) fn lacks_clauses(lie: Option<LyingHeader>) -> bool
    ensures { result ≡ lacks_clauses lie }
{
    match lie {
        Some(header) => header.counts.clauses < header.said.clauses,
        None => false,
    }
}
