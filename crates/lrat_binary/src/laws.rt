//! Laws of binary LRAT.
ghost use Rattle.lrat_binary.specs.Rows.{BinaryRows};

/// What some proofs say, and in which form they are.
pub fn binary_rows()
    ensures { BinaryRows }
{}
