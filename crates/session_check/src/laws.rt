//! Laws of the lines of a session.
ghost use Rattle.session_check.specs.Laws.{ToldIsSaid};

/// What a session asks and answers is what the interaction tells, whatever the proof says.
pub fn told_is_said()
    ensures { ToldIsSaid }
{}
