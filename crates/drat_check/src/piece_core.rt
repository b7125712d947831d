//! The core of a piece of a proof: the clauses of the formula that its lines use. The lines are
//! checked over the core alone.
ghost use Rattle.drat_check.specs.PieceCores.{WritesCore};
ghost use Rattle.drat_check.specs.Pieces.{IsReadPieceRun};

use crate::counts::RunCounts;
use crate::fault::{ProofFault, RunFault};
use crate::outputs::{used_clauses, write_clauses};
use crate::piece::show_piece;
use crate::piece_fault::PieceFault;
use drat_elaborate::Elaborator;
use sat_formula::CnfFormula;
use sat_output::LineForm;
use std::alloc::Global;
use std::cell::Cell;
use std::io::Write;
use verdicts::PieceVerdict;

/// Passes the elaborated lines to a checker that stores the clauses of the formula that they use,
/// and no other, and writes these as a formula. Returns the verdict, which that checker decides.
pub(crate) fn show_core<C: Write + Drop>(
    alloc: Global,
    formula: &CnfFormula,
    wanted: &CnfFormula,
    elaborator: &mut Elaborator,
    core: &mut C,
    counts: &Cell<RunCounts>,
) -> Result<PieceVerdict, PieceFault>
    ensures run { IsReadPieceRun formula.now wanted.now result }
    ensures core { WritesCore formula.now wanted.now
        (C.contents core.old) (C.contents core.new) result }
{
    let used = match used_clauses(alloc, formula, elaborator) {
        Ok(used) => used,
        Err(_) => return Err(PieceFault::Run(RunFault::Proof(ProofFault::OutOfMemory))),
    };
    elaborator.number_by_use();
    let mut lrat: Option<C> = None;
    let form = LineForm::Text;
    let verdict = match show_piece(alloc, &used, wanted, elaborator, &mut lrat, form, counts) {
        Ok(verdict) => verdict,
        Err(fault) => return Err(fault),
    };
    match write_clauses(alloc, &used, core) {
        Ok(()) => Ok(verdict),
        Err(fault) => Err(PieceFault::Run(RunFault::Core(fault))),
    }
}
