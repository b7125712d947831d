//! Laws over the definitions alone. Each function does nothing but name the laws that it rests on:
//! its clause is the law.
ghost use Rattle.receipts.specs.Joins.{PartsAreRefuted, ShownIsRefuted};

use refutation_rules::laws::{cubes_cover, pieces};

/// If honest receipts lead from the digest of a text to one that is refuted, no assignment
/// satisfies the text.
pub fn shown_is_refuted()
    ensures { ShownIsRefuted }
{
    pieces();
}

/// If honest receipts show each part of a formula that is split into cubes, no assignment satisfies
/// the formula.
pub fn parts_are_refuted()
    ensures { PartsAreRefuted }
{
    shown_is_refuted();
    cubes_cover();
}
