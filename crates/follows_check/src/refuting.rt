//! Proofs that no assignment satisfies a formula that is in memory.
ghost use Rattle.std.specs.Prelude.{◌≡◌, true, IfOk};
ghost use Rattle.refutation_rules.specs.Cubes.{IsRefuted};

use drat_check::{Outputs, ProofFormat, RunFault, run_proof};
use log::Log;
use sat_formula::CnfFormula;
use std::alloc::Global;
use std::io::Read;
use verdicts::Verdict;

/// Returns whether a proof shows that a formula is unsatisfiable.
pub(crate) fn refute<R: Log, P: Read + Drop>(
    rt: &R,
    alloc: Global,
    formula: &CnfFormula,
    proof: P,
    format: ProofFormat,
) -> Result<bool, RunFault>
    ensures { IfOk result (λ refuted. refuted ≡ true → IsRefuted formula.now) }
{
    match run_proof(rt, alloc, formula, proof, format, &mut Outputs::none()) {
        Ok(verdict) => Ok(verdict == Verdict::Verified),
        Err(fault) => Err(fault),
    }
}
