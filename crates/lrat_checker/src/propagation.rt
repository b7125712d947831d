//! Propagation along hints.
ghost use Rattle.std.specs.Prelude.{◌≡◌, ℕ, Bool, map, IfOk, OnOk};
ghost use Rattle.lrat_rules.specs.Lines.{leading};
ghost use Rattle.lrat_rules.specs.Propagation as rules;
ghost use Rattle.lrat_rules.specs.Propagation.{on_named, propagate};
ghost use Rattle.lrat_checker.specs.Held.{table_of};
ghost use Rattle.lrat_checker.specs.Propagating.{ending_of, go_on};
ghost use Rattle.clause_table.specs.Values.{IsGrown, among};
ghost use Rattle.lrat_text.specs.Grammar.{hint_of};

use crate::clauses::Clauses;
use crate::fault::LratCause;
use clause_table::{Left, Values};
use lrat_text::Hint;
use std::alloc::AllocError;

/// How propagation ends.
#[derive(Clone, Copy)]
pub(crate) enum Ending {
    /// A clause has all its literals false.
    Conflict,
    /// The hints are used up.
    Open,
    /// A hint is no good.
    Stuck(LratCause),
}

/// Propagates over the antecedent hints before the next candidate, up to the first conflict.
/// Returns how it ended.
pub(crate) fn propagate(
    clauses: &Clauses,
    values: &mut Values,
    hints: &[Hint],
) -> Result<Ending, AllocError>
    ensures ending { IfOk result (λ end. ending_of end (among values.new)
        ≡ propagate (table_of clauses.now).named (among values.old)
        (leading (map hint_of hints.now))) }
    ensures grown { OnOk result (IsGrown values.old values.new) }
{
    for hint in hints {
        let Hint::Along(id) = *hint else {
            return Ok(Ending::Open);
        };
        if let Some(ending) = follow(clauses, values, id)? {
            return Ok(ending);
        }
    }
    Ok(Ending::Open)
}

/// Makes the last literal true that is not false in the clause of a hint, or ends.
fn follow(clauses: &Clauses, values: &mut Values, id: u64) -> Result<Option<Ending>, AllocError>
    ensures ending { IfOk result (λ end. (rest : (ℕ → Bool) → rules.Ending)
        → on_named ((table_of clauses.now).named id) (among values.old) rest
        ≡ go_on end (among values.new) rest) }
    ensures grown { OnOk result (IsGrown values.old values.new) }
{
    let Some(clause) = clauses.get(id) else {
        return Ok(Some(Ending::Stuck(LratCause::UnknownId)));
    };
    match values.left(clause) {
        Left::Nothing => Ok(Some(Ending::Conflict)),
        Left::One(lit) => {
            values.set(lit)?;
            Ok(None)
        }
        Left::More => Ok(Some(Ending::Stuck(LratCause::NotUnit))),
    }
}
