//! Laws of answers.
ghost use Rattle.std.specs.Prelude.{◌≡◌, ℕ, List};
ghost use Rattle.answer_text.specs.Answers.{Lists, outcome_of};
ghost use Rattle.answer_text.specs.Literals.{IsConsistent, listed};
ghost use Rattle.answer_text.specs.Rows.{AnswerRows};
ghost use Rattle.answer_text.specs.automaton.Answers.{outcome_read};

/// What some answers say.
pub fn answer_rows()
    ensures { AnswerRows }
{}

/// Read byte after byte an answer says what its lines say.
pub fn bytes_are_lines()
    ensures { (text : List ℕ) → outcome_read text ≡ outcome_of text }
{}

/// No two literals that an answer lists are opposite.
pub fn answers_are_consistent()
    ensures { (text lits : List ℕ) → outcome_of text ≡ Lists lits
        → IsConsistent (listed lits) }
{}
