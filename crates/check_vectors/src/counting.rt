//! A caller with a processor of its own: it counts the steps that are delivered.
ghost use Rattle.std.specs.Prelude.{IfErr, IfOk};
ghost use Rattle.check_vectors.specs.Counts.{CountsAgree, Grows, IsCount, IsRefused};

use crate::boxes::Tally;
use checker_parts::error::CheckerError;
use checker_parts::processor::ProofProcessor;
use log::Log;
use sat_formula::CnfFormula;
use std::alloc::Global;
use std::io::Read;
use varisat_checker::Checker;

/// Adds a formula to a new checker, checks a proof, and returns how many steps of both a processor
/// received.
///
/// # Errors
///
/// The fault of the formula or the proof, or `OutOfMemory`.
pub fn count_steps<L: Log, R: Read + Drop>(
    rt: &L,
    alloc: Global,
    formula: &CnfFormula,
    proof: R,
) -> Result<usize, CheckerError>
    ensures count { IfOk result (IsCount (R.remaining proof) formula.now) }
    ensures refused { IfErr result (IsRefused (R.remaining proof) formula.now) }
{
    match Box::new(alloc, Tally::new(alloc)) {
        Ok(tally) => growth(rt, alloc, tally, formula, proof),
        Err(_) => Err(CheckerError::OutOfMemory),
    }
}

/// Registers a processor with a new checker, adds the formula, checks the proof, and returns by how
/// many bytes the output has grown.
fn growth<L: Log, R: Read + Drop>(
    rt: &L,
    alloc: Global,
    processor: Box<dyn ProofProcessor>,
    formula: &CnfFormula,
    proof: R,
) -> Result<usize, CheckerError>
    requires { Grows (ProofProcessor-box processor).took (ProofProcessor-box processor).shown }
    ensures count { IfOk result (IsCount (R.remaining proof) formula.now) }
    ensures refused { IfErr result (IsRefused (R.remaining proof) formula.now) }
{
    let before = processor.output().len();
    let mut checker = Checker::new(alloc);
    if let Err((_, fault)) = checker.add_processor(processor) {
        return Err(fault);
    }
    checker.add_formula(formula)?;
    checker.check_proof(rt, proof)?;
    let (processors, _) = checker.into_processors();
    Ok(processors[0].output().len() - before)
}

/// The count is that of the given clauses and of the given bytes of a proof alone.
pub fn counts_agree()
    ensures { CountsAgree }
{}
