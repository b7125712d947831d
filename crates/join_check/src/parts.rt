//! The parts of the cubes of a formula, and whether receipts show them.
ghost use Rattle.std.specs.Prelude.{ℕ, List, IfOk};
ghost use Rattle.receipts.specs.declared.receipt.Receipt.{Receipt};
ghost use Rattle.join_check.specs.Digests.{HasShown};
ghost use Rattle.join_check.specs.Parts.{ArePartTexts};
ghost use Rattle.join_check.specs.Verdicts.{IsFirstUnshown};

use crate::digests::ShownDigests;
use crate::line_hasher::LineHasher;
use crate::part_texts::PartTexts;
use sat_formula::CnfFormula;
use std::alloc::{AllocError, Global};

/// Returns the number of the first cube whose part is not shown, if there is one. They count from
/// 1.
pub(crate) fn first_unshown(
    alloc: Global,
    texts: &PartTexts,
    cubes: &CnfFormula,
    shown: &ShownDigests,
) -> Result<Option<u64>, AllocError>
    ensures { IfOk result (λ found. (formula : List (List ℕ)) (receipts : List Receipt)
        → ArePartTexts formula texts.now → HasShown receipts shown.now
        → IsFirstUnshown receipts formula cubes.now found) }
{
    let count = cubes.len();
    let mut left = count;
    let mut lines = LineHasher::new(alloc);
    for cube in cubes {
        left -= 1;
        let digest = texts.cube_digest(&mut lines, cube)?;
        if !shown.has(&digest) {
            return Ok(Some((count - left) as u64));
        }
    }
    Ok(None)
}
