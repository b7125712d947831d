//! Whether a clause may be added.
ghost use Rattle.std.specs.Prelude.{◌≡◌, None, Err, true, is_some, IfErr, OnOk, map};
ghost use Rattle.lrat_rules.specs.Lines.{adds};
ghost use Rattle.lrat_rules.specs.Tables.{cause_by_table};
ghost use Rattle.lrat_checker.specs.Causes.{IsCause};
ghost use Rattle.lrat_checker.specs.Held.{table_of};
ghost use Rattle.lrat_checker.specs.declared.fault.LratCause.TheVariants.{IdTaken};
ghost use Rattle.lrat_checker.specs.declared.fault.Stop.TheVariants as stops;
ghost use Rattle.lrat_text.specs.Grammar.{hint_of};

use crate::clauses::Clauses;
use crate::fault::{LratCause, Stop};
use crate::propagation::{Ending, propagate};
use crate::redundancy::check_groups;
use crate::work::Work;
use lrat_text::Hint;
use sat_formula::Lit;

/// Whether a clause may be added under an id by these hints: it follows, or is redundant.
pub(crate) fn judge(
    clauses: &mut Clauses,
    work: &mut Work,
    id: u64,
    clause: &[Lit],
    hints: &[Hint],
) -> Result<(), Stop>
    ensures ok { let line = adds id clause.now (map hint_of hints.now) in
        let found = cause_by_table (table_of clauses.old) line in
        OnOk result (found ≡ None) }
    ensures taken { is_some ((table_of clauses.old).named id) ≡ true
        → result ≡ Err (stops.Refused IdTaken) }
    ensures err { let line = adds id clause.now (map hint_of hints.now) in
        let found = cause_by_table (table_of clauses.old) line in
        IfErr result (λ stop. IsCause stop found) }
    ensures table { OnOk result (table_of clauses.new ≡ table_of clauses.old) }
    ensures named { clauses.new.named ≡ clauses.old.named }
{
    if clauses.contains(id) {
        return Err(Stop::Refused(LratCause::IdTaken));
    }
    let lits = clauses.lits_stored().saturating_add(clause.len() as u64);
    work.values.allow(lits);
    work.values.negate_alone(clause)?;
    match propagate(clauses, &mut work.values, hints)? {
        Ending::Conflict => Ok(()),
        Ending::Stuck(cause) => Err(Stop::Refused(cause)),
        Ending::Open => check_groups(clauses, work, clause, hints),
    }
}
