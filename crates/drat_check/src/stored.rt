//! The ids of the target clauses of a piece of a proof.
ghost use Rattle.std.specs.Prelude.{IfErr};
ghost use Rattle.drat_check.specs.Outputs.{bytes_in};
ghost use Rattle.drat_check.specs.Pieces.{GoesOn, IsAfterFormulas};

use crate::counts::{RunCounts, count_line};
use crate::fault::{ProofFault, RunFault};
use crate::outputs::write_accepted;
use crate::piece_fault::PieceFault;
use crate::proof::line_fault;
use drat_elaborate::Elaborator;
use lrat_checker::LratChecker;
use lrat_text::{Hint, LratLine};
use sat_formula::{CnfFormula, Lit};
use sat_output::LineForm;
use std::alloc::{AllocError, Global};
use std::cell::Cell;
use std::io::Write;

/// Returns the ids of the target clauses. If the clause that was found has its literals in another
/// order, the target is added by a line with that clause as its only hint.
///
/// # Errors
///
/// `Lost` if a clause is not stored, `Run` if memory runs out or a write failed.
pub(crate) fn stored_ids<L: Write>(
    alloc: Global,
    checker: &mut LratChecker,
    elaborator: &Elaborator,
    wanted: &CnfFormula,
    lrat: &mut Option<L>,
    form: LineForm,
    counts: &Cell<RunCounts>,
) -> Result<Vec<u64>, PieceFault>
    ensures written { GoesOn form (bytes_in L.contents lrat.old) (bytes_in L.contents lrat.new)
        checker.old checker.new result }
    ensures fault { IfErr result IsAfterFormulas }
{
    let mut ids = Vec::new(alloc);
    let mut last = elaborator.last_id();
    'wanted: for clause in wanted {
        let Some(found) = elaborator.wanted_id(ids.len()) else {
            return Err(PieceFault::Lost);
        };
        let next = last.saturating_add(1);
        let id = match id_as_written(alloc, checker, clause, found, next, lrat, form, counts) {
            Ok(id) => id,
            Err(fault) => return Err(fault),
        };
        last = last.max(id);
        if ids.push(id).is_err() {
            return Err(PieceFault::Run(RunFault::Proof(ProofFault::OutOfMemory)));
        }
    }
    Ok(ids)
}

/// Returns the id of a clause with its literals in this order, by the id of one that has the same
/// literals. If the order differs, it is added under the next id.
fn id_as_written<L: Write>(
    alloc: Global,
    checker: &mut LratChecker,
    clause: &[Lit],
    found: u64,
    next: u64,
    lrat: &mut Option<L>,
    form: LineForm,
    counts: &Cell<RunCounts>,
) -> Result<u64, PieceFault>
    ensures written { GoesOn form (bytes_in L.contents lrat.old) (bytes_in L.contents lrat.new)
        checker.old checker.new result }
    ensures fault { IfErr result IsAfterFormulas }
{
    if is_stored(checker, found, clause) {
        return Ok(found);
    }
    match add_copy(alloc, checker, next, clause, found, lrat, form, counts) {
        Ok(()) => Ok(next),
        Err(fault) => Err(fault),
    }
}

/// Returns whether this clause is stored under an id, with its literals in the same order.
fn is_stored(checker: &LratChecker, id: u64, clause: &[Lit]) -> bool {
    match checker.clause(id) {
        Some(found) => found == clause,
        None => false,
    }
}

/// Adds a clause that has the literals of the stored one.
fn add_copy<L: Write>(
    alloc: Global,
    checker: &mut LratChecker,
    id: u64,
    clause: &[Lit],
    stored: u64,
    lrat: &mut Option<L>,
    form: LineForm,
    counts: &Cell<RunCounts>,
) -> Result<(), PieceFault>
    ensures written { GoesOn form (bytes_in L.contents lrat.old) (bytes_in L.contents lrat.new)
        checker.old checker.new result }
    ensures fault { IfErr result IsAfterFormulas }
{
    let hints = [Hint::Along(stored)];
    let line = LratLine::Add {
        id,
        clause,
        hints: &hints,
    };
    if let Err(fault) = checker.check_line(line) {
        return Err(PieceFault::Run(RunFault::Proof(line_fault(id, fault))));
    }
    count_line(counts, line);
    match write_accepted(alloc, lrat, form, id, line) {
        Ok(()) => Ok(()),
        Err(fault) => Err(PieceFault::Run(RunFault::Lrat(fault))),
    }
}
