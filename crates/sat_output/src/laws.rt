//! Laws of the texts. Each function does nothing: its clause is the law.
ghost use Rattle.sat_output.specs.{LratBytes.BytesAreRead, LratTexts.LinesAreRead, FormulaTexts.{ClausesAreRead, FormulaIsRead}};

/// What is written of LRAT lines is read as those lines.
pub fn lines_are_read()
    ensures { LinesAreRead }
{}

/// What is written of binary LRAT lines is read as those lines.
pub fn bytes_are_read()
    ensures { BytesAreRead }
{}

/// What is written of a formula is read as that formula.
pub fn formula_is_read()
    ensures { FormulaIsRead }
{}

/// What is written of clauses, without a header, is read as those clauses.
pub fn clauses_are_read()
    ensures { ClausesAreRead }
{}
