//! The law of the result of a text. The function does nothing: its clause is the law.
ghost use Rattle.hint_checker.specs.OneAnswer.{AnswerIsOne};

/// A text that is accepted has one result, and is never rejected.
pub fn answer_is_one()
    ensures { AnswerIsOne }
{}
