//! Runs of a core: a formula is shown to be unsatisfiable and each of its clauses to be needed for
//! that.
ghost use Rattle.std.specs.Prelude.{◌≡◌, ℕ, List, IfOk, Ok, Some};
ghost use Rattle.follows_check.specs.Minimal.{IsMinimalText, ShowsMinimal, minimal_line, shows_minimal};
ghost use Rattle.follows_check.specs.MinimalRuns.{IsEarlyCore, IsMinimalRun};

use crate::lies::lacks_clauses;
use crate::models::check_models;
use crate::refuting::refute;
use drat_check::ProofFormat;
use log::Log;
use sat_formula::{CnfFormula, DimacsFault, LyingHeader, read_formula};
use std::alloc::Global;
use std::io;
use std::io::{Read, Write};
use thiserror::Error;
use verdicts::{Claims, Shown};
use whole_writes::write_whole;

/// The verdict on a formula.
#[derive(Clone, Copy, Debug, PartialEq, Eq)]
pub enum MinimalVerdict {
    /// No assignment satisfies it, and without any of its clauses one does.
    Minimal,
    /// The proof ends before it shows that no assignment does.
    Open,
    /// The models end before that of this clause, counted from 1.
    NoModel { clause: u64 },
    /// The model of this number does not satisfy this clause, which is another one; both count from
    /// 1.
    Unmet { model: u64, clause: u64 },
}

/// Why a run of a core has no verdict.
#[derive(Debug, Drop, Error)]
pub enum CoreFault {
    /// The formula was not read whole.
    #[error("formula: {0}")]
    Formula(DimacsFault),
    /// The formula was read to its end, and there are fewer clauses than its header says.
    #[error("formula: there are fewer clauses than the header says")]
    FewClauses,
    /// There is no verdict on the proof.
    #[error("{0}")]
    Proof(drat_check::RunFault),
    /// The models could not be read up to that of the last clause, or to one that shows nothing.
    #[error("models: {0}")]
    Models(DimacsFault),
}

impl MinimalVerdict {
    /// Returns the bytes of the verdict's line, with the line feed.
    pub fn line(self) -> &'static [u8]
        ensures { result.now ≡ minimal_line self }
    {
        match self {
            MinimalVerdict::Minimal => b"s VERIFIED MINIMAL\n",
            MinimalVerdict::Open | MinimalVerdict::NoModel { .. } | MinimalVerdict::Unmet { .. } =>
                b"s NOT VERIFIED\n",
        }
    }
}

/// A core is asked for clauses that are all needed.
impl Claims for MinimalVerdict {
    ghost claimed = { shows_minimal };

    fn claims(&self) -> bool {
        matches!(self, MinimalVerdict::Minimal)
    }
}

impl Shown for MinimalVerdict {
    ghost line = { minimal_line };

    fn write_line<W: Write>(&self, out: &mut W) -> io::Result<()> {
        write_whole(out, self.line())
    }
}

/// Reads a formula in DIMACS CNF, a proof that no assignment satisfies it, and models, and returns
/// the verdict: whether each clause is needed.
///
/// The models are lists of literals, each with a 0 after it, in the order of the clauses: each
/// satisfies all clauses but its own. A variable that a model does not list has the value that it
/// had in the one before, at first false. What follows the last model is not read. `lie` gets the
/// mismatch of the formula's header, once it was read whole.
///
/// # Errors
///
/// `Formula`, `FewClauses`, `Proof` or `Models` for the first file that is rejected.
pub fn run_minimal<R: Log, F: Read + Drop, P: Read + Drop, M: Read + Drop>(
    rt: &R,
    alloc: Global,
    cnf: F,
    proof: P,
    models: M,
    format: ProofFormat,
    lie: &mut Option<LyingHeader>,
) -> Result<MinimalVerdict, CoreFault>
    ensures run { IsMinimalRun (F.remaining cnf) result }
    ensures minimal { (text : List ℕ) → F.remaining cnf ≡ Some text
        → result ≡ Ok MinimalVerdict.Minimal → IsMinimalText text }
{
    let formula = match read_formula(alloc, cnf, lie) {
        Ok(formula) => formula,
        Err(fault) => return Err(CoreFault::Formula(fault)),
    };
    if lacks_clauses(*lie) {
        return Err(CoreFault::FewClauses);
    }
    judge_core(rt, alloc, &formula, proof, models, format)
}

/// Returns what a proof and models show of a formula. The models are read once the proof has shown
/// that no assignment satisfies it.
fn judge_core<R: Log, P: Read + Drop, M: Read + Drop>(
    rt: &R,
    alloc: Global,
    formula: &CnfFormula,
    proof: P,
    models: M,
    format: ProofFormat,
) -> Result<MinimalVerdict, CoreFault>
    ensures shown { IfOk result (ShowsMinimal formula.now) }
    ensures early { IsEarlyCore result }
{
    let refuted = match refute(rt, alloc, formula, proof, format) {
        Ok(refuted) => refuted,
        Err(fault) => return Err(CoreFault::Proof(fault)),
    };
    if !refuted {
        return Ok(MinimalVerdict::Open);
    }
    match check_models(alloc, formula, models) {
        Ok(verdict) => Ok(verdict),
        Err(fault) => Err(CoreFault::Models(fault)),
    }
}
