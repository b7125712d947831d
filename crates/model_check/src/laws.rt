//! Laws of literals and formulas.
ghost use Rattle.std.specs.Prelude.{◌≡◌, ℕ, List, true};
ghost use Rattle.answer_text.specs.Literals.{IsConsistent, all_met, listed};
ghost use Rattle.model_check.specs.Models.{IsModel};

/// Literals without opposite pairs, one of which is in each clause, are a model of the clauses.
pub fn met_clauses_are_satisfied()
    ensures { (lits : List ℕ) (clauses : List (List ℕ)) → IsConsistent (listed lits)
        → all_met (listed lits) clauses ≡ true → IsModel lits clauses }
{}
