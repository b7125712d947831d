//! Laws of what simulations show.
ghost use Rattle.circuit_answers.specs.Reached.{ReachedIsNotSafe};

/// A machine that reaches a bad output is not safe.
pub fn reached_is_not_safe()
    ensures { ReachedIsNotSafe }
{}
