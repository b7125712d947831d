//! The accepted lines as steps of DRAT.
ghost use Rattle.std.specs.Prelude.{◌≡◌, ◌++◌, ◌||◌, ℕ, List, IfOk, OnOk, OnErr};
ghost use Rattle.std.specs.Io.KnownBytes.{Appends};
ghost use Rattle.lrat_checker.specs.Standing.{IsReady};
ghost use Rattle.lrat_rules.specs.Lines.{Line};
ghost use Rattle.lrat_text.specs.NextLine.{view};
ghost use Rattle.sat_output.specs.DratTexts.{adds_clause, deletions_text, step_text};
ghost use Rattle.whole_writes.specs.Beginnings.{AppendsBeginning};
ghost use Rattle.drat_check.specs.Outputs.{IfWanted, bytes_in};

use lrat_checker::LratChecker;
use lrat_text::LratLine;
use sat_output::{push_addition, push_deletion};
use std::alloc::{AllocError, Global};
use std::io;
use std::io::Write;
use whole_writes::append_whole;

/// Returns the steps of a line that the checker has not accepted yet, none if there is no writer
/// for steps. Deletions are left out before the first addition: they delete the unused clauses of
/// the formula.
pub(crate) fn steps_of<L>(
    alloc: Global,
    trim: &Option<L>,
    has_begun: bool,
    checker: &LratChecker,
    line: LratLine<'_>,
) -> Result<Vec<u8>, AllocError>
    ensures { (formula : List (List ℕ)) (lines : List Line)
        → (ready : IsReady formula lines checker.now)
        → IfOk result (λ text. IfWanted trim.now (text.items
        ≡ step_text has_begun ready.accepted.store (view line.entry))) }
{
    let mut text = Vec::new(alloc);
    if trim.is_none() {
        return Ok(text);
    }
    match line {
        LratLine::Add { clause, .. } => push_addition(&mut text, clause)?,
        LratLine::Delete { ids } if has_begun => push_deletions(&mut text, checker, ids)?,
        LratLine::Delete { .. } => {}
    }
    Ok(text)
}

/// Returns whether this line adds a clause, or one before it did.
pub(crate) fn begun_by(has_begun: bool, line: LratLine<'_>) -> bool
    ensures { result ≡ (has_begun || adds_clause (view line.entry)) }
{
    has_begun || matches!(line, LratLine::Add { .. })
}

/// Appends a step for each id of a clause that is stored.
fn push_deletions(text: &mut Vec<u8>, checker: &LratChecker, ids: &[u64]) -> Result<(), AllocError>
    ensures { (formula : List (List ℕ)) (lines : List Line)
        → (ready : IsReady formula lines checker.now)
        → OnOk result (text.new.items
        ≡ text.old.items ++ deletions_text ready.accepted.store ids.now) }
{
    for id in ids {
        if let Some(clause) = checker.clause(*id) {
            push_deletion(text, clause)?;
        }
    }
    Ok(())
}

/// Writes steps, if there is a writer for them.
pub(crate) fn write_steps<L: Write>(trim: &mut Option<L>, steps: &[u8]) -> io::Result<()>
    ensures whole { OnOk result (Appends (bytes_in L.contents trim.old)
        (bytes_in L.contents trim.new) steps.now) }
    ensures beginning { OnErr result (AppendsBeginning (bytes_in L.contents trim.old)
        (bytes_in L.contents trim.new) steps.now) }
{
    match trim {
        Some(out) => append_whole(out, steps),
        None => Ok(()),
    }
}
