//! Laws over the definitions alone. Each function does nothing: its clause is the law.
ghost use Rattle.circuit_rules.specs.Circuits.{CircuitsAreClauses};
ghost use Rattle.circuit_rules.specs.Checks.{NeverIsShown, SameIsShown};
ghost use Rattle.circuit_rules.specs.Rows.{CircuitRows};
ghost use Rattle.circuit_rules.specs.Safety.{SafeIsShown};

/// The values that a circuit computes satisfy its clauses.
pub fn circuits_are_clauses()
    ensures { CircuitsAreClauses }
{}

/// If no assignment satisfies the clauses of a circuit and the clause of its outputs, no input
/// makes an output true.
pub fn never_is_shown()
    ensures { NeverIsShown }
{}

/// If no assignment satisfies the clauses of two circuits and of a difference between their
/// outputs, both have the same outputs, whatever the input.
pub fn same_is_shown()
    ensures { SameIsShown }
{}

/// A machine never reaches a bad output if an invariant is true at first, stays true, and excludes
/// each bad output.
pub fn safe_is_shown()
    ensures { SafeIsShown }
{}

/// Small circuits.
pub fn circuit_rows()
    ensures { CircuitRows }
{}
