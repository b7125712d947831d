//! Laws over the definitions alone. Each function does nothing: its clause is the law.
ghost use Rattle.session_checker.specs.Lines.{SessionsAreTrue};
ghost use Rattle.session_checker.specs.Refusals.{CausesAreExact};
ghost use Rattle.session_checker.specs.Rows.{CheckedRows};

/// A lemma, a core and a model have no cause of a rejection exactly if the rules accept them.
pub fn causes_are_exact()
    ensures { CausesAreExact }
{}

/// If each line of a session is accepted in turn, each answer is true of the clauses that were
/// given before it.
pub fn sessions_are_true()
    ensures { SessionsAreTrue }
{}

/// Small lemmas and answers.
pub fn checked_rows()
    ensures { CheckedRows }
{}
