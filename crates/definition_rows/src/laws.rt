//! Laws over the definitions alone. Each function does nothing: its clauses are the rows.
ghost use Rattle.definition_rows.specs.{AnswerRows.AnswerRows, ChainRows.ChainRows, CubeRows.CubeRows, FoldRows.FoldRows, FormulaRows.FormulaRows, ModelRows.ModelRows};

/// Texts of formulas that are refuted, or derive another, and some that do not.
pub fn formula_rows()
    ensures { FormulaRows }
{}

/// Models of formulas, and literals that are none.
pub fn model_rows()
    ensures { ModelRows }
{}

/// Cubes of a formula, and what they do not say of it.
pub fn cube_rows()
    ensures { CubeRows }
{}

/// Pieces of a proof up to clauses that are refuted, and some that don't join.
pub fn chain_rows()
    ensures { ChainRows }
{}

/// Answers in a session that are true, and some that are not.
pub fn answer_rows()
    ensures { AnswerRows }
{}

/// Members of the fold over accepted steps, and assignments that are none.
pub fn fold_rows()
    ensures { FoldRows }
{}
