//! Whether the hashes of a step fit the width in force.
ghost use Rattle.std.specs.Prelude.{◌≡◌, map, ◌^◌, nat_lt};
ghost use Rattle.proof_bytes.specs.NextStep.{view};
ghost use Rattle.proof_bytes.specs.Spelling.{all_fit, hashes_of};

use crate::format::{Format, fits_width};
use crate::hash::ClauseHash;
use crate::step::ProofStep;
use sat_formula::Lit;

/// Returns whether each hash of a step has as few bits as the format allows.
pub(crate) fn hashes_fit(format: Format, step: &ProofStep) -> bool
    ensures { result ≡ all_fit format (hashes_of (view step.now)) }
{
    match *step {
        ProofStep::AtClause {
            propagation_hashes,
            ..
        } => all_fit(format, propagation_hashes),
        ProofStep::UnitClauses { units } => units_fit(format, units),
        ProofStep::FailedAssumptions {
            propagation_hashes,
            ..
        } => all_fit(format, propagation_hashes),
        _ => true,
    }
}

fn all_fit(format: Format, hashes: &[ClauseHash]) -> bool
    ensures { result ≡ all_fit format hashes.now }
{
    if let Format::Bytes { width } = format {
        'items: for hash in hashes {
            if !fits_width(*hash, width) {
                return false;
            }
        }
    }
    true
}

fn units_fit(format: Format, units: &[(Lit, ClauseHash)]) -> bool
    ensures { result ≡ all_fit format (map (λ u. u.1) units.now) }
{
    if let Format::Bytes { width } = format {
        'items: for unit in units {
            if !fits_width(unit.1, width) {
                return false;
            }
        }
    }
    true
}
