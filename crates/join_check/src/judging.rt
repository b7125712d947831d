//! The verdicts on receipts.
ghost use Rattle.std.specs.Prelude.{◌≡◌, ℕ, List, length, IfOk, None};
ghost use Rattle.join_check.specs.Digests.{HasShown};
ghost use Rattle.join_check.specs.Parts.{ArePartTexts};
ghost use Rattle.join_check.specs.Verdicts.{IsCubesVerdict, IsFirstUnshown, IsTextVerdict};

use crate::digests::ShownDigests;
use crate::part_texts::PartTexts;
use crate::parts::first_unshown;
use crate::verdict::{Unshown, Verdict};
use receipts::Receipt;
use sat_formula::CnfFormula;
use std::alloc::{AllocError, Global};

/// Returns the verdict on the text of a digest.
pub(crate) fn judge_text(
    alloc: Global,
    digest: &[u8; 32],
    receipts: &[Receipt],
) -> Result<Verdict, AllocError>
    ensures { IfOk result (IsTextVerdict receipts.now digest.now) }
{
    let shown = ShownDigests::of(alloc, receipts)?;
    if shown.has(digest) {
        Ok(verified(receipts))
    } else {
        Ok(Verdict::NotVerified(Unshown::Formula))
    }
}

/// Returns the verdict on a formula that is split into cubes.
pub(crate) fn judge_cubes(
    alloc: Global,
    formula: &CnfFormula,
    cubes: &CnfFormula,
    receipts: &[Receipt],
) -> Result<Verdict, AllocError>
    ensures { IfOk result (IsCubesVerdict receipts.now formula.now cubes.now) }
{
    let shown = ShownDigests::of(alloc, receipts)?;
    let texts = PartTexts::of(alloc, formula)?;
    match first_unshown(alloc, &texts, cubes, &shown)? {
        Some(number) => Ok(Verdict::NotVerified(Unshown::Cube(number))),
        None => judge_closing(alloc, &texts, cubes, receipts, &shown),
    }
}

/// Returns the verdict where the parts of all cubes are shown.
fn judge_closing(
    alloc: Global,
    texts: &PartTexts,
    cubes: &CnfFormula,
    receipts: &[Receipt],
    shown: &ShownDigests,
) -> Result<Verdict, AllocError>
    ensures { IfOk result (λ verdict. (formula : List (List ℕ)) → ArePartTexts formula texts.now
        → HasShown receipts.now shown.now
        → IsFirstUnshown receipts.now formula cubes.now None
        → IsCubesVerdict receipts.now formula cubes.now verdict) }
{
    let digest = texts.closing_digest(alloc, cubes)?;
    if shown.has(&digest) {
        Ok(verified(receipts))
    } else {
        Ok(Verdict::NotVerified(Unshown::Closing))
    }
}

/// Returns the verdict that receipts show all that is needed.
fn verified(receipts: &[Receipt]) -> Verdict
    ensures { result ≡ Verdict.Verified (length receipts.now) }
{
    Verdict::Verified {
        receipts: receipts.len() as u64,
    }
}
