//! Sessions of queries, each answer of which is checked as it comes.
ghost use Rattle.std.specs.Prelude.{◌≡◌, ◌∷◌, ◌++◌, ℕ, List, [], None, Some};
ghost use Rattle.refutation_rules.specs.Sessions.{Fails, Satisfies};
ghost use Rattle.handles.specs.Numbers.{lits_of};
ghost use Rattle.handles.specs.SessionHeld.{given_to, state_of};
ghost use Rattle.c_library.specs.SessionCalls.{IsAnswer, IsBegin, IsDelete, IsDerive, IsFails, IsGive, IsSatisfies, Outcome};

use handles::{Session, SessionAnswer};
use std::alloc::Global;

/// Begins a session without clauses, if there is none.
#[unsafe(no_mangle)]
pub extern "C" fn cefindrato_session_begin(alloc: Global, session: &mut Session) -> SessionAnswer
    ensures given { result.status ≡ 0 → given_to session.new ≡ Some [] }
    ensures run { (r : Outcome) × IsAnswer result r
        × IsBegin session.old session.new r }
{
    SessionAnswer::of(session.begin(alloc))
}

/// Ends the session, if there is one, and frees its memory.
#[unsafe(no_mangle)]
pub extern "C" fn cefindrato_session_end(alloc: Global, session: &mut Session)
    ensures { state_of session.new ≡ None }
{
    session.end(alloc);
}

/// Adds a clause of the application, under an id that names none.
#[unsafe(no_mangle)]
pub extern "C" fn cefindrato_session_give(
    alloc: Global,
    session: &mut Session,
    id: u64,
    clause: &[i32],
) -> SessionAnswer
    ensures given { (cs : List (List ℕ)) → given_to session.old ≡ Some cs → result.status ≡ 0
        → given_to session.new ≡ Some (cs ++ lits_of clause.now ∷ []) }
    ensures run { (r : Outcome) × IsAnswer result r
        × IsGive session.old session.new id clause.now r }
{
    SessionAnswer::of(session.give(alloc, id, clause))
}

/// Adds a lemma, which follows by propagation along the hints, under an id that names no clause.
#[unsafe(no_mangle)]
pub extern "C" fn cefindrato_session_derive(
    alloc: Global,
    session: &mut Session,
    id: u64,
    lemma: &[i32],
    hints: &[u64],
) -> SessionAnswer
    ensures given { given_to session.new ≡ given_to session.old }
    ensures run { (r : Outcome) × IsAnswer result r
        × IsDerive session.old session.new id lemma.now hints.now r }
{
    SessionAnswer::of(session.derive(alloc, id, lemma, hints))
}

/// Deletes the clauses of these ids; ids that name none are ignored.
#[unsafe(no_mangle)]
pub extern "C" fn cefindrato_session_delete(
    alloc: Global,
    session: &mut Session,
    ids: &[u64],
) -> SessionAnswer
    ensures given { given_to session.new ≡ given_to session.old }
    ensures run { (r : Outcome) × IsAnswer result r
        × IsDelete session.old session.new ids.now r }
{
    SessionAnswer::of(session.delete(alloc, ids))
}

/// Checks the answer that the literals of the core, which were assumed, fail together.
#[unsafe(no_mangle)]
pub extern "C" fn cefindrato_session_fails(
    alloc: Global,
    session: &mut Session,
    assumed: &[i32],
    core: &[i32],
    hints: &[u64],
) -> SessionAnswer
    ensures fails { (cs : List (List ℕ)) → given_to session.old ≡ Some cs → result.status ≡ 0
        → Fails cs (lits_of assumed.now) (lits_of core.now) }
    ensures given { given_to session.new ≡ given_to session.old }
    ensures run { (r : Outcome) × IsAnswer result r
        × IsFails session.old session.new assumed.now core.now hints.now r }
{
    SessionAnswer::of(session.fails(alloc, assumed, core, hints))
}

/// Checks the answer that the literals of the model, the assumptions among them, can be true
/// together.
#[unsafe(no_mangle)]
pub extern "C" fn cefindrato_session_satisfies(
    alloc: Global,
    session: &mut Session,
    assumed: &[i32],
    model: &[i32],
) -> SessionAnswer
    ensures satisfies { (cs : List (List ℕ)) → given_to session.old ≡ Some cs → result.status ≡ 0
        → Satisfies cs (lits_of assumed.now) (lits_of model.now) }
    ensures given { given_to session.new ≡ given_to session.old }
    ensures run { (r : Outcome) × IsAnswer result r
        × IsSatisfies session.old session.new assumed.now model.now r }
{
    SessionAnswer::of(session.satisfies(alloc, assumed, model))
}
