//! The digests of the texts of a formula's parts.
ghost use Rattle.std.specs.Prelude.{◌≡◌, ℕ, List, All, IfOk, map};
ghost use Rattle.sha2.specs.Hashers.{Holds256};
ghost use Rattle.refutation_rules.specs.Cubes.{clause_against, units_of};
ghost use Rattle.written_numbers.specs.Words.{IsCode};
ghost use Rattle.join_check.specs.Parts.{ArePartTexts, IsPartDigest};

use crate::line_hasher::LineHasher;
use crate::splitting::{push_against, push_units};
use sat_formula::{CnfFormula, Lit};
use sat_output::laws::clauses_are_read;
use sha2::Sha256;
use std::alloc::{AllocError, Global};

/// The texts of the parts of a formula, which begin with the lines of its clauses.
#[derive(Drop)]
pub(crate) struct PartTexts {
    /// It has taken these lines.
    hasher: Sha256,
}

impl PartTexts {
    /// Returns the texts of the parts of a formula, whose lines are hashed once for all.
    pub(crate) fn of(alloc: Global, formula: &CnfFormula) -> Result<PartTexts, AllocError>
        ensures { IfOk result (ArePartTexts formula.now) }
    {
        codes_are_small(formula);
        let mut lines = LineHasher::new(alloc);
        lines.push_clauses(formula)?;
        Ok(PartTexts {
            hasher: lines.finish(),
        })
    }

    /// Returns the digest of the text of a cube's part, for which `lines` has room.
    pub(crate) fn cube_digest(
        &self,
        lines: &mut LineHasher,
        cube: &[Lit],
    ) -> Result<[u8; 32], AllocError>
        ensures { IfOk result (IsPartDigest self.now (units_of cube.now)) }
    {
        clauses_are_read();
        clause_is_small(cube);
        lines.begin(self.begun()?);
        push_units(lines, cube)?;
        Ok(lines.digest())
    }

    /// Returns the digest of the text of the closing part.
    pub(crate) fn closing_digest(
        &self,
        alloc: Global,
        cubes: &CnfFormula,
    ) -> Result<[u8; 32], AllocError>
        ensures { IfOk result (IsPartDigest self.now (map clause_against cubes.now)) }
    {
        clauses_are_read();
        codes_are_small(cubes);
        let mut lines = LineHasher::new(alloc);
        lines.begin(self.begun()?);
        push_against(alloc, &mut lines, cubes)?;
        Ok(lines.digest())
    }

    /// Returns a hasher that has taken the same.
    fn begun(&self) -> Result<Sha256, AllocError>
        ensures { IfOk result (λ hasher. (lines : List ℕ) → Holds256 self.now.hasher lines
            → Holds256 hasher lines) }
    {
        self.hasher.clone()
    }
}

/// The codes of a formula's literals are below 2^29, as those of all literals.
fn codes_are_small(formula: &CnfFormula)
    ensures { All (All IsCode) formula.now }
{
    for clause in formula {
        clause_is_small(clause);
    }
}

/// The same of a clause.
fn clause_is_small(clause: &[Lit])
    ensures { All IsCode clause.now }
{
    'lits: for lit in clause {
        let _ = lit.code();
    }
}
