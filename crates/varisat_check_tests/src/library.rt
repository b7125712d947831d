//! The example of `varisat_checker/CALLING.md`, as it stands there.
use proof_bytes::ProofStep;
use sat_formula::Lit;
use std::alloc::Global;
use std::test::Fail;
use varisat_checker::hash::ClauseHasher;
use varisat_checker::internal::SelfChecker;
use varisat_checker::{Checker, CheckerError};

fn refutes(alloc: Global, p: Lit, q: Lit) -> Result<bool, CheckerError> {
    let hash = ClauseHasher::new(alloc).clause_hash(&[!p, q]);
    let mut checker = Checker::new(alloc);
    finds_conflict(&mut checker, p, q, hash)
}

fn finds_conflict(checker: &mut Checker, p: Lit, q: Lit, hash: u64) -> Result<bool, CheckerError> {
    checker.add_clause(&[p])?;
    checker.add_clause(&[!p, q])?;
    checker.add_clause(&[!q])?;
    checker.self_check_step(ProofStep::AtClause {
        redundant: false,
        clause: &[],
        propagation_hashes: &[hash],
    })?;
    Ok(checker.unsat())
}

#[test]
fn the_example_refutes(rt: HostRuntime) -> Result<(), Fail> {
    let p = Lit::from_dimacs(1).ok_or("no literal")?;
    let q = Lit::from_dimacs(2).ok_or("no literal")?;
    assert!(rt; matches!(refutes(rt.alloc(), p, q), Ok(true)));
    assert!(rt; matches!(refutes(rt.alloc(), !q, !p), Ok(true)));
    Ok(())
}
