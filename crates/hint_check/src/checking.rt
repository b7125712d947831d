//! The lines of a proof, checked one after the other.
ghost use Rattle.std.specs.Prelude.{◌≡◌, Some, IfErr, IfOk};
ghost use Rattle.sat_rules.specs.HintLines.{Listed};
ghost use Rattle.lrat_binary.specs.TakenLines.{IsToldForm};
ghost use Rattle.lrat_binary.specs.declared.ids.LratForm.{LratForm};
ghost use Rattle.hint_checker.specs.Held.{holds};
ghost use Rattle.hint_check.specs.Proofs.{AcceptsProof, IsProofRefusal};

use hint_checker::{HintChecker, HintTextFault};
use lrat_binary::{Ids, take_proof};
use std::alloc::Global;
use std::io::Read;

/// Returns whether a line of a proof adds the empty clause, after a formula of this many clauses.
/// Each line must be accepted.
pub(crate) fn check_proof<H: Read + Drop>(
    alloc: Global,
    checker: HintChecker,
    proof: H,
    ids: Option<Ids>,
    clauses: u64,
) -> Result<bool, HintTextFault>
    ensures accepted { (h : Listed) → holds checker ≡ Some h
        → IfOk result (λ yes. (form : LratForm) × IsToldForm ids clauses (H.remaining proof) form
        × AcceptsProof form (H.remaining proof) h yes) }
    ensures refused { (h : Listed) → holds checker ≡ Some h
        → IfErr result (λ fault. (form : LratForm) × IsToldForm ids clauses (H.remaining proof) form
        × IsProofRefusal form (H.remaining proof) h fault) }
{
    let mut checker = checker;
    match take_proof(alloc, proof, ids, clauses, &mut checker) {
        Ok(()) => Ok(checker.added_empty()),
        Err(untaken) => Err(HintTextFault::from(untaken)),
    }
}
