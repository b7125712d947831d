//! Runs: receipts and a formula are read, perhaps cubes, and the verdict is returned.
ghost use Rattle.std.specs.Prelude.{◌≡◌, ℕ, List, Ok, Some};
ghost use Rattle.join_check.specs.Runs.{IsCubesRun, IsPiecesRun};
ghost use Rattle.join_check.specs.Texts.{IsRefutedByParts, IsRefutedByReceipts};

use crate::fault::RunFault;
use crate::judging::{judge_cubes, judge_text};
use crate::verdict::Verdict;
use receipts::laws::{parts_are_refuted, shown_is_refuted};
use receipts::{read_digested, read_receipts};
use sat_formula::{DimacsFault, read_formula};
use std::alloc::Global;
use std::io::Read;

/// Reads receipts and the text of a formula, and returns the verdict whether the receipts lead from
/// the digest of the text to a formula that is refuted.
///
/// # Errors
///
/// `Receipts` or `Formula` if one of the two can't be read, or `OutOfMemory`.
pub fn run_pieces<F: Read + Drop, P: Read + Drop>(
    alloc: Global,
    cnf: F,
    receipts: P,
) -> Result<Verdict, RunFault>
    ensures run { IsPiecesRun (F.remaining cnf) (P.remaining receipts) result }
    ensures refutes { (text said : List ℕ) → F.remaining cnf ≡ Some text
        → P.remaining receipts ≡ Some said
        → (count : ℕ) → result ≡ Ok (Verdict.Verified count) → IsRefutedByReceipts said text }
{
    shown_is_refuted();
    let receipts = match read_receipts(alloc, receipts) {
        Ok(receipts) => receipts,
        Err(fault) => return Err(RunFault::Receipts(fault)),
    };
    let read = match read_digested(alloc, cnf) {
        Ok(read) => read,
        Err(fault) => return Err(RunFault::Formula(DimacsFault::of_error(fault))),
    };
    match judge_text(alloc, &read.1, &receipts) {
        Ok(verdict) => Ok(verdict),
        Err(_) => Err(RunFault::OutOfMemory),
    }
}

/// Reads receipts, a formula and cubes in DIMACS CNF, each cube as a clause, and returns the
/// verdict whether the receipts show all parts of the formula.
///
/// The part of a cube is the formula and a unit clause for each literal of the cube; the closing
/// part is the formula and, against each cube, a clause of the negations of its literals. Of each
/// the text is made in memory, as `write_formula` of `sat_output` writes it.
///
/// # Errors
///
/// `Receipts`, `Formula` or `Cubes` if one of them can't be read, or `OutOfMemory`.
pub fn run_cubes<F: Read + Drop, C: Read + Drop, P: Read + Drop>(
    alloc: Global,
    cnf: F,
    cubes: C,
    receipts: P,
) -> Result<Verdict, RunFault>
    ensures run { IsCubesRun (F.remaining cnf) (C.remaining cubes) (P.remaining receipts) result }
    ensures refutes { (text split said : List ℕ) → F.remaining cnf ≡ Some text
        → C.remaining cubes ≡ Some split → P.remaining receipts ≡ Some said
        → (count : ℕ) → result ≡ Ok (Verdict.Verified count) → IsRefutedByParts said split text }
{
    parts_are_refuted();
    let receipts = match read_receipts(alloc, receipts) {
        Ok(receipts) => receipts,
        Err(fault) => return Err(RunFault::Receipts(fault)),
    };
    let formula = match read_formula(alloc, cnf, &mut None) {
        Ok(formula) => formula,
        Err(fault) => return Err(RunFault::Formula(fault)),
    };
    let cubes = match read_formula(alloc, cubes, &mut None) {
        Ok(cubes) => cubes,
        Err(fault) => return Err(RunFault::Cubes(fault)),
    };
    match judge_cubes(alloc, &formula, &cubes, &receipts) {
        Ok(verdict) => Ok(verdict),
        Err(_) => Err(RunFault::OutOfMemory),
    }
}
