//! Runs: a proof is checked, and the outputs are written.
ghost use Rattle.std.specs.Prelude.{◌≡◌, ◌⊎◌, ℕ, Bool, false, List, Ok, Some};
ghost use Rattle.sat_rules.specs.Clauses.{all_true};
ghost use Rattle.sat_formula.specs.Refuted.{IsRefuted};
ghost use Rattle.drat_check.specs.Outputs.{WritesOutputs};
ghost use Rattle.drat_check.specs.Runs.{HasNoFormula, IsCheckRun, IsProofRun, RunTellsLie};
ghost use Rattle.verdicts.specs.Texts.{OfFormula};
ghost use Rattle.verdicts.specs.declared.verdict.Verdict.TheVariants.{Verified};

use crate::counts::count_core;
use crate::fault::RunFault;
use crate::outputs::{Outputs, write_core, write_proof};
use crate::proof::{elaborate, read_proof};
use crate::reader::ProofFormat;
use drat_elaborate::Elaborator;
use log::Log;
use sat_formula::{CnfFormula, LyingHeader, read_formula};
use std::alloc::Global;
use std::io::{Read, Write};
use verdicts::Verdict;

/// Reads a formula in DIMACS CNF, checks the proof, writes what `run_proof` does, and returns the
/// verdict.
///
/// The proof is read only after the whole formula. `lie` gets the mismatch of the formula's header,
/// if there is one.
///
/// # Errors
///
/// `Formula` if the formula can't be read, with nothing written and `lie` `None`; else those of
/// `run_proof`.
pub fn run_check<R: Log, F: Read + Drop, P: Read + Drop, L: Write, C: Write>(
    rt: &R,
    alloc: Global,
    cnf: F,
    proof: P,
    format: ProofFormat,
    outputs: &mut Outputs<L, C>,
    lie: &mut Option<LyingHeader>,
) -> Result<Verdict, RunFault>
    ensures run { IsCheckRun (F.remaining cnf) result }
    ensures untouched { HasNoFormula result → outputs.new ≡ outputs.old }
    ensures outputs { OfFormula (F.remaining cnf) (λ formula. WritesOutputs formula
        L.contents C.contents outputs.old outputs.new result) ⊎ HasNoFormula result }
    ensures form { outputs.new.form ≡ outputs.old.form }
    ensures refutes { (text : List ℕ) → F.remaining cnf ≡ Some text
        → result ≡ Ok Verified → IsRefuted text }
    ensures lie { RunTellsLie (F.remaining cnf) result lie.new }
{
    match read_formula(alloc, cnf, lie) {
        Ok(formula) => run_proof(rt, alloc, &formula, proof, format, outputs),
        Err(fault) => Err(RunFault::Formula(fault)),
    }
}

/// Checks a proof after a formula, writes the outputs, and returns the verdict. It is `Verified` if
/// the checker of LRAT proofs has accepted the empty clause.
///
/// The proof is read up to its first conflict by propagation; the verdict is `NotVerified` if it
/// ends without one.
///
/// The lines of the LRAT proof are those that the checker accepted, up to the empty clause, each
/// written in the form of `outputs` as it is accepted, and so are they as steps of DRAT. Then come
/// the clauses of the formula that they use, as a formula. If the proof has no conflict, or is
/// rejected before the first line, nothing is written.
///
/// # Errors
///
/// `Proof` if a step can't be read, or one that the conflict needs is wrong; `Lrat`, `Trim` or
/// `Core` with the first write that failed, after which nothing is written.
pub fn run_proof<R: Log, P: Read + Drop, L: Write, C: Write>(
    rt: &R,
    alloc: Global,
    formula: &CnfFormula,
    proof: P,
    format: ProofFormat,
    outputs: &mut Outputs<L, C>,
) -> Result<Verdict, RunFault>
    ensures run { IsProofRun formula.now result }
    ensures outputs { WritesOutputs formula.now L.contents C.contents
        outputs.old outputs.new result }
    ensures form { outputs.new.form ≡ outputs.old.form }
    ensures refutes { result ≡ Ok Verified → (a : ℕ → Bool) → all_true a formula.now ≡ false }
{
    let elaborator = &mut Elaborator::new(alloc);
    if let Err(fault) = read_proof(alloc, formula, proof, format, &outputs.counts, elaborator) {
        return Err(RunFault::Proof(fault));
    }
    if !elaborator.is_refuted() {
        return Ok(Verdict::NotVerified);
    }
    if let Err(fault) = elaborate(rt, elaborator) {
        return Err(RunFault::Proof(fault));
    }
    if let Err(fault) = write_proof(alloc, formula, elaborator, outputs) {
        return Err(fault);
    }
    count_core(&outputs.counts, formula, elaborator);
    match write_core(alloc, formula, elaborator, &mut outputs.core) {
        Ok(()) => Ok(Verdict::Verified),
        Err(fault) => Err(RunFault::Core(fault)),
    }
}
