//! Runs: a proof is checked, and its verdict is written.
ghost use Rattle.std.specs.Prelude.{◌≡◌, ◌≤◌, ℕ, Bool, true, false, List, OnErr, OnOk, IfOk, Ok, Err, Some};
ghost use Rattle.std.specs.Io.KnownBytes.{Appends};
ghost use Rattle.varisat_checker.specs.Common.{IsCovered, RecordsFailure, Step, holds, shown_inputs, shown_unsat};
ghost use Rattle.varisat_checker.specs.ProofRun.{ProofRun};
ghost use Rattle.varisat_checker.specs.Shown.{listeners, state};
ghost use Rattle.sat_formula.specs.Refuted.{IsRefuted};
ghost use Rattle.whole_writes.specs.Beginnings.{AppendsBeginning};
ghost use Rattle.varisat_check.specs.Runs.{BeginsLine, CheckRun, IsFailedRun, IsRefusedRun, IsUnwritten, OnProof, RunTellsLie};
ghost use Rattle.varisat_check.specs.Verdicts.{shown_line, verdict_of};
ghost use Rattle.varisat_check.specs.declared.verdict.Verdict.TheVariants.{Unsatisfiable};

use crate::fault::RunFault;
use crate::line::Line;
use crate::verdict::Verdict;
use checker_parts::processor::{ProofProcessor, ProofTranscriptProcessor};
use log::Log;
use sat_formula::LyingHeader;
use std::alloc::Global;
use std::io;
use std::io::{Read, Write};
use varisat_checker::Checker;
use varisat_checker::checker::CheckerOf;
use whole_writes::write_whole;

/// Checks a proof with a checker that has its formula, writes the verdict's line, and returns the
/// verdict.
///
/// Nothing is written unless the whole proof is accepted. The checker keeps the state that
/// `check_proof` leaves.
///
/// # Errors
///
/// `Proof` if the proof was not accepted, with nothing written; `Write` if the line of a verdict
/// that was reached could not be written whole: a beginning of it is.
pub fn run_proof<L: Log, R: Read + Drop, W: Write, P: ProofProcessor, T: ProofTranscriptProcessor>(
    rt: &L,
    checker: &mut CheckerOf<P, T>,
    proof: R,
    out: &mut W,
) -> Result<Verdict, RunFault>
    ensures failed { (state checker.old).failed ≡ true
        → IsFailedRun result × (checker.new ≡ checker.old) }
    ensures run { (state checker.old).failed ≡ false → OnProof (λ answer.
        ProofRun (R.remaining proof) (state checker.old) answer (state checker.new)
        P.ProofProcessor T.ProofTranscriptProcessor
        (listeners checker.old) (listeners checker.new)) result }
    ensures records { OnProof (λ answer. RecordsFailure answer (state checker.new)) result }
    ensures verdict { IfOk result (λ verdict. verdict
        ≡ verdict_of (shown_inputs (state checker.old)) (state checker.new)) }
    ensures line { IfOk result (λ verdict. Appends (W.contents out.old) (W.contents out.new)
        (shown_line verdict)) }
    ensures silent { IsRefusedRun result → out.new ≡ out.old }
    ensures unwritten { IsUnwritten result → AppendsBeginning (W.contents out.old)
        (W.contents out.new)
        (shown_line (verdict_of (shown_inputs (state checker.old)) (state checker.new))) }
    ensures refutes { result ≡ Ok Unsatisfiable → (before : List Step)
        → IsCovered before (state checker.old) → (a : ℕ → Bool) → holds before a ≡ false }
{
    let inputs = checker.input_clauses();
    if let Err(fault) = checker.check_proof(rt, proof) {
        return Err(RunFault::Proof(fault));
    }
    let verdict = verdict_after(checker, inputs);
    match write_line(out, verdict) {
        Ok(()) => Ok(verdict),
        Err(fault) => Err(RunFault::Write(fault)),
    }
}

/// Adds a formula in DIMACS CNF to a new checker, checks the proof, writes the verdict's line, and
/// returns the verdict.
///
/// The proof is read only after the whole formula. `lie` gets the mismatch of the formula's header,
/// if there is one.
///
/// # Errors
///
/// `Formula` if the formula was not added whole, with nothing written and `lie` `None`; else as for
/// `run_proof`.
pub fn run_check<L: Log, F: Read + Drop, P: Read + Drop, W: Write>(
    rt: &L,
    alloc: Global,
    cnf: F,
    proof: P,
    out: &mut W,
    lie: &mut Option<LyingHeader>,
) -> Result<Verdict, RunFault>
    ensures run { CheckRun (F.remaining cnf) (P.remaining proof) result }
    ensures line { IfOk result (λ verdict. Appends (W.contents out.old) (W.contents out.new)
        (shown_line verdict)) }
    ensures silent { IsRefusedRun result → out.new ≡ out.old }
    ensures unwritten { IsUnwritten result → BeginsLine (F.remaining cnf) (P.remaining proof)
        (W.contents out.old) (W.contents out.new) }
    ensures refutes { (text : List ℕ) → F.remaining cnf ≡ Some text
        → result ≡ Ok Unsatisfiable → IsRefuted text }
    ensures lie { RunTellsLie (F.remaining cnf) result lie.new }
{
    let mut checker = Checker::new(alloc);
    if let Err(fault) = checker.add_dimacs_cnf_with_lie(rt, cnf, lie) {
        return Err(RunFault::Formula(fault));
    }
    run_proof(rt, &mut checker, proof, out)
}

/// Returns the verdict of a checker that accepted a proof, and whose count of input clauses was
/// this before it.
pub(crate) fn verdict_after<P: ProofProcessor, T: ProofTranscriptProcessor>(
    checker: &CheckerOf<P, T>,
    inputs: u64,
) -> Verdict
    requires { shown_unsat (state checker.now) ≡ true → inputs ≤ shown_inputs (state checker.now) }
    ensures { result ≡ verdict_of inputs (state checker.now) }
{
    if !checker.unsat() {
        return Verdict::NotShown;
    }
    match checker.input_clauses() - inputs {
        0 => Verdict::Unsatisfiable,
        added => Verdict::UnsatisfiableWithAdded(added),
    }
}

/// Writes a verdict's line at once, so that no fault between two writes leaves a part of it.
pub(crate) fn write_line<W: Write>(out: &mut W, verdict: Verdict) -> io::Result<()>
    ensures whole { OnOk result
        (Appends (W.contents out.old) (W.contents out.new) (shown_line verdict)) }
    ensures beginning { OnErr result
        (AppendsBeginning (W.contents out.old) (W.contents out.new) (shown_line verdict)) }
{
    let mut line = Line::new();
    writeln!(line, "{verdict}")?;
    write_whole(out, line.as_slice())
}
