//! Laws over the definitions alone. Each function does nothing: its clause is the law.
ghost use Rattle.sat_rules.specs.{Clauses.ChainsAreSound, HintLines.HintsDecide, HintLines.HintsRefute};

/// No assignment that agrees with the set makes every clause of a chain from it true.
pub fn chains_are_sound()
    ensures { ChainsAreSound }
{}

/// A hint checker rejects no hint of a list exactly where the list is admitted for the clause.
pub fn hints_decide()
    ensures { HintsDecide }
{}

/// Where accepted lines after a formula's clauses add the empty clause, no assignment satisfies the
/// formula.
pub fn hints_refute()
    ensures { HintsRefute }
{}
