//! Propagation along hints.
ghost use Rattle.std.specs.Prelude.{◌≡◌, ℕ, Bool, None, IfErr, IfOk, OnOk};
ghost use Rattle.lrat_rules.specs.Propagation as rules;
ghost use Rattle.lrat_rules.specs.Propagation.{on_named, propagate};
ghost use Rattle.clause_table.specs.Named.{clause_of};
ghost use Rattle.clause_table.specs.Values.{among};
ghost use Rattle.session_checker.specs.Causes.{IsCause};
ghost use Rattle.session_checker.specs.Propagating.{ending_of, go_on};
ghost use Rattle.session_checker.specs.Refusals.{hints_cause};

use crate::fault::{SessionCause, SessionFault};
use clause_table::{Left, NamedClauses, Values};
use std::alloc::AllocError;

/// How propagation ends.
#[derive(Clone, Copy)]
pub(crate) enum Ending {
    /// A clause has all its literals false.
    Conflict,
    /// The hints are used up.
    Open,
    /// A hint names no clause.
    Unknown,
    /// A hint names a clause with two literals that are not false.
    NotUnit,
}

/// Checks that propagation along the hints leads to a conflict.
///
/// # Errors
///
/// `NoConflict`, `UnknownId`, `NotUnit`, or there is no memory.
pub(crate) fn refute(
    clauses: &NamedClauses,
    values: &mut Values,
    hints: &[u64],
) -> Result<(), SessionFault>
    ensures ok { let end = propagate (clause_of clauses.now) (among values.old) hints.now in
        OnOk result (hints_cause end ≡ None) }
    ensures refused { let end = propagate (clause_of clauses.now) (among values.old) hints.now in
        IfErr result (λ fault. IsCause fault (hints_cause end)) }
{
    match propagate(clauses, values, hints)? {
        Ending::Conflict => Ok(()),
        Ending::Open => Err(SessionFault::Refused(SessionCause::NoConflict)),
        Ending::Unknown => Err(SessionFault::Refused(SessionCause::UnknownId)),
        Ending::NotUnit => Err(SessionFault::Refused(SessionCause::NotUnit)),
    }
}

/// Propagates along the hints, up to the first conflict. Returns how that ends.
fn propagate(
    clauses: &NamedClauses,
    values: &mut Values,
    hints: &[u64],
) -> Result<Ending, AllocError>
    ensures ending { IfOk result (λ end. ending_of end (among values.new)
        ≡ propagate (clause_of clauses.now) (among values.old) hints.now) }
{
    for id in hints {
        if let Some(ending) = follow(clauses, values, *id)? {
            return Ok(ending);
        }
    }
    Ok(Ending::Open)
}

/// Assigns the only literal that is not false in the clause of a hint, or returns how propagation
/// ends.
fn follow(
    clauses: &NamedClauses,
    values: &mut Values,
    id: u64,
) -> Result<Option<Ending>, AllocError>
    ensures ending { IfOk result (λ end. (rest : (ℕ → Bool) → rules.Ending)
        → on_named (clause_of clauses.now id) (among values.old) rest
        ≡ go_on end (among values.new) rest) }
{
    let Some(clause) = clauses.get(id) else {
        return Ok(Some(Ending::Unknown));
    };
    match values.left(clause) {
        Left::Nothing => Ok(Some(Ending::Conflict)),
        Left::One(lit) => {
            values.set(lit)?;
            Ok(None)
        }
        Left::More => Ok(Some(Ending::NotUnit)),
    }
}
