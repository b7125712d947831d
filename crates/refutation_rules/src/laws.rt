//! Laws over the definitions alone. Each function does nothing: its clause is the law.
ghost use Rattle.refutation_rules.specs.Cubes.{CubesCover};
ghost use Rattle.refutation_rules.specs.Carrying.{PieceCarries};
ghost use Rattle.refutation_rules.specs.Pieces.{PiecesJoin};
ghost use Rattle.refutation_rules.specs.PieceRows.{PieceRows};
ghost use Rattle.refutation_rules.specs.Copies.{CopiesHold};
ghost use Rattle.refutation_rules.specs.Rounds.{AnswersAreTrue, RoundsFail, SessionsFail};
ghost use Rattle.refutation_rules.specs.SessionRows.{SessionRows};
ghost use Rattle.refutation_rules.specs.Follows.{FollowsIsAsked, FollowsIsShown};
ghost use Rattle.refutation_rules.specs.FollowRows.{FollowRows};

/// If no assignment satisfies the formula with the units of any of the cubes, and none satisfies it
/// with a clause against each cube, none satisfies the formula.
pub fn cubes_cover()
    ensures { CubesCover }
{}

/// Accepted lines carry the formula to the clauses that some ids name after them. If each piece
/// carries its clauses to those of the next, and no assignment satisfies the clauses of the last,
/// none satisfies the formula. The rows are a small proof in two pieces, and what a piece does not
/// say.
pub fn pieces()
    ensures piece_carries { PieceCarries }
    ensures pieces_join { PiecesJoin }
    ensures piece_rows { PieceRows }
{}

/// If no assignment satisfies some rounds that are written as one formula, the core of each fails
/// over its clauses and those of the rounds before it.
pub fn rounds_fail()
    ensures { RoundsFail }
{}

/// So it is with literals of variables that the rounds do not have.
pub fn sessions_fail()
    ensures { SessionsFail }
{}

/// If no assignment satisfies the formula of a session, each core is of what was assumed, and each
/// query that is said to be satisfiable has a model, every answer is true.
pub fn answers_are_true()
    ensures { AnswersAreTrue }
{}

/// What satisfies clauses whose variables were renamed satisfies the clauses, by the values of the
/// new names.
pub fn copies_hold()
    ensures { CopiesHold }
{}

/// Small sessions.
pub fn session_rows()
    ensures { SessionRows }
{}

/// If no assignment satisfies a formula and fails one of the claims, the claims follow.
pub fn follows_is_shown()
    ensures { FollowsIsShown }
{}

/// If the claims follow, no assignment satisfies the formula and fails one of them.
pub fn follows_is_asked()
    ensures { FollowsIsAsked }
{}

/// What follows and what does not, and which formulas are not minimal.
pub fn follow_rows()
    ensures { FollowRows }
{}
