//! Formulas read whole from DIMACS text.
ghost use Rattle.varisat_check.specs.ReadFormula.{ReadsFormula};
ghost use Rattle.sat_formula.specs.Lies.{TellsLie};

use crate::fault::RunFault;
use checker_parts::error::DimacsError;
use sat_formula::{CnfFormula, LyingHeader};
use std::alloc::Global;
use std::io::Read;

/// Reads a whole formula as DIMACS text. `lie` gets the mismatch of its header, if there is one.
///
/// # Errors
///
/// `RunFault::Formula` with the first fault of the text, a failed read or out of memory. The
/// clauses before it are dropped, and `lie` is `None`.
pub fn read_formula<F: Read + Drop>(
    alloc: Global,
    cnf: F,
    lie: &mut Option<LyingHeader>,
) -> Result<CnfFormula, RunFault>
    ensures whole { ReadsFormula (F.remaining cnf) result }
    ensures lie { TellsLie (F.remaining cnf) result lie.new }
{
    match sat_formula::read_formula(alloc, cnf, lie) {
        Ok(formula) => Ok(formula),
        Err(fault) => Err(RunFault::Formula(DimacsError::from(fault))),
    }
}
