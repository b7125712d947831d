//! Clauses that are redundant by their first literal.
ghost use Rattle.std.specs.Prelude.{◌≡◌, ◌+◌, ◌∷◌, ℕ, None, Some, IfErr, IfOk, OnOk, List, map};
ghost use Rattle.lrat_rules.specs.Counts.{count_of};
ghost use Rattle.lrat_rules.specs.Groups as rules;
ghost use Rattle.lrat_rules.specs.Groups.{rest_met, without};
ghost use Rattle.lrat_rules.specs.Lines.{groups, leading};
ghost use Rattle.lrat_rules.specs.Tables.{groups_cause_by, met_by_groups, missing, no_id};
ghost use Rattle.lrat_checker.specs.Causes.{IsCause, IsFailedGroup, cause_of};
ghost use Rattle.lrat_checker.specs.Grouping.{group_of};
ghost use Rattle.lrat_checker.specs.Held.{seen_by, table_of};
ghost use Rattle.clause_table.specs.Values.{among};
ghost use Rattle.lrat_text.specs.Grammar.{hint_of};

use crate::clauses::Clauses;
use crate::fault::{LratCause, Stop};
use crate::groups::{Group, Groups};
use crate::propagation::{Ending, propagate};
use crate::work::Work;
use clause_table::Values;
use lrat_text::Hint;
use sat_formula::Lit;
use std::alloc::AllocError;

/// Checks that the candidates among the hints show that the clause is RAT on its pivot.
pub(crate) fn check_groups(
    clauses: &mut Clauses,
    work: &mut Work,
    clause: &[Lit],
    hints: &[Hint],
) -> Result<(), Stop>
    ensures ok { let given = groups (map hint_of hints.now) in
        let lits = among work.old.values in
        let found = groups_cause_by (table_of clauses.old) lits clause.now given in
        OnOk result (found ≡ None) }
    ensures err { let given = groups (map hint_of hints.now) in
        let lits = among work.old.values in
        let found = groups_cause_by (table_of clauses.old) lits clause.now given in
        IfErr result (λ stop. IsCause stop found) }
    ensures table { OnOk result (table_of clauses.new ≡ table_of clauses.old) }
    ensures named { clauses.new.named ≡ clauses.old.named }
{
    let Some(pivot) = clause.first() else {
        return Err(Stop::Refused(LratCause::NoConflict));
    };
    let negation = !*pivot;
    let met = meet_groups(clauses, work, negation, hints)?;
    let count = clauses.count(negation)?;
    if met != count {
        return Err(Stop::Refused(missing_cause(hints)));
    }
    Ok(())
}

/// Returns how often a literal is in the clauses of the candidates, all of which pass.
fn meet_groups(clauses: &Clauses, work: &mut Work, lit: Lit, hints: &[Hint]) -> Result<u64, Stop>
    ensures ok { let given = groups (map hint_of hints.now) in
        let lits = among work.old.values in
        let found = met_by_groups (table_of clauses.now).named lits lit no_id 0 given in
        IfOk result (λ met. found ≡ Some met) }
    ensures err { let given = groups (map hint_of hints.now) in
        let lits = among work.old.values in
        let found = met_by_groups (table_of clauses.now).named lits lit no_id 0 given in
        IfErr result (λ stop. IsFailedGroup stop found) }
{
    work.met_ids.forget();
    let mut met = 0u64;
    for group in Groups::of(hints) {
        let more = meet_group(clauses, work, lit, group)?;
        met = met.checked_add(more).ok_or(Stop::OutOfMemory)?;
    }
    Ok(met)
}

/// Returns how often a literal is in the clause of a candidate, or 0 if that one passed before.
fn meet_group(clauses: &Clauses, work: &mut Work, lit: Lit, group: Group<'_>) -> Result<u64, Stop>
    ensures ok { IfOk result (λ more. (met : ℕ) (gs : List rules.Group)
        → met_by_groups (table_of clauses.now).named (among work.old.values) lit
        (seen_by work.old) met (group_of group.entry ∷ gs)
        ≡ met_by_groups (table_of clauses.now).named (among work.old.values) lit
        (seen_by work.new) (met + more) gs) }
    ensures err { IfErr result (λ stop. (met : ℕ) (gs : List rules.Group)
        → IsFailedGroup stop
        (met_by_groups (table_of clauses.now).named (among work.old.values) lit
        (seen_by work.old) met (group_of group.entry ∷ gs))) }
    ensures values { OnOk result (work.new.values ≡ work.old.values) }
{
    if work.met_ids.has(group.id) {
        return Ok(0);
    }
    let Some(clause) = clauses.get(group.id) else {
        return Ok(0);
    };
    let count = count_of(clause, lit);
    if count == 0 {
        return Ok(0);
    }
    if !is_met(clauses, &mut work.values, clause, lit, group.hints)? {
        return Err(Stop::Refused(LratCause::GroupFails));
    }
    work.met_ids.insert(group.id, clauses.stored())?;
    Ok(count)
}

/// Returns whether a clause without one literal has a true one, or the hints lead to a conflict
/// with all of them false.
fn is_met(
    clauses: &Clauses,
    values: &mut Values,
    clause: &[Lit],
    lit: Lit,
    hints: &[Hint],
) -> Result<bool, AllocError>
    ensures met { IfOk result (λ met. met
        ≡ rest_met (table_of clauses.now).named (among values.old)
        (without lit clause.now) (Some (leading (map hint_of hints.now)))) }
    ensures values { OnOk result (values.new ≡ values.old) }
{
    if values.some_true(clause, lit) {
        return Ok(true);
    }
    let len = values.len();
    values.negate(clause, Some(lit))?;
    let ending = propagate(clauses, values, hints)?;
    values.undo(len);
    Ok(matches!(ending, Ending::Conflict))
}

/// Returns how often a literal is in a clause.
fn count_of(clause: &[Lit], lit: Lit) -> u64
    ensures { result ≡ count_of lit clause.now }
{
    let mut count = 0;
    for other in clause {
        if *other == lit {
            count += 1;
        }
    }
    count
}

/// Returns what is missing, with candidates and without.
fn missing_cause(hints: &[Hint]) -> LratCause
    ensures { cause_of result ≡ missing (groups (map hint_of hints.now)) }
{
    match Groups::of(hints).next() {
        None => LratCause::NoConflict,
        Some(_) => LratCause::GroupMissing,
    }
}
