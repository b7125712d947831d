//! Runs whose checked steps a processor writes.
ghost use Rattle.std.specs.Prelude.{◌≡◌, ℕ, Bool, false, IfOk, IfErr, OnErr, OnOk};
ghost use Rattle.std.specs.Io.KnownBytes.{Appends};
ghost use Rattle.sat_rules.specs.Clauses.{all_true};
ghost use Rattle.varisat_check.specs.LratRuns.{IsRefusedRun, LratRun, RefusesRun, StopsInTurn, StopsWriting};
ghost use Rattle.varisat_check.specs.Runs.{IsUnwritten};
ghost use Rattle.varisat_check.specs.Verdicts.{shown_line};
ghost use Rattle.varisat_check.specs.declared.verdict.Verdict.TheVariants.{Unsatisfiable};

use crate::fault::RunFault;
use crate::run::{verdict_after, write_line};
use crate::verdict::Verdict;
use checker_parts::error::DimacsError;
use checker_parts::processor::{ProofProcessor, ProofTranscriptProcessor};
use log::Log;
use sat_formula::CnfFormula;
use std::alloc::Global;
use std::io;
use std::io::{Read, Write};
use varisat_checker::checker::CheckerOf;
use whole_writes::write_whole;

/// A checker with processors of one type, and no transcripts.
type WriterChecker<P> = CheckerOf<P, Box<dyn ProofTranscriptProcessor>>;

/// Adds a formula to a new checker with a writer, checks the proof, writes the writer's output and
/// then the verdict's line. Returns the verdict and the writer.
///
/// The writer is registered first, so it receives every step. Nothing is written unless the whole
/// proof is accepted.
///
/// # Errors
///
/// `Formula` if the formula was not added, `Proof` if the proof was not accepted, both with nothing
/// written. `Write` if a write failed after the verdict was reached: a beginning of the output is
/// written and nothing of the line, or the whole output and a beginning of the line. The writer is
/// dropped.
pub fn run_lrat<L: Log, P: ProofProcessor, R: Read + Drop, W: Write, V: Write>(
    rt: &L,
    alloc: Global,
    formula: &CnfFormula,
    writer: P,
    proof: R,
    out: &mut W,
    lrat: &mut V,
) -> Result<(Verdict, P), RunFault>
    ensures run { IfOk result (λ given. LratRun
        P.took (R.remaining proof) formula.now writer given.0 given.1) }
    ensures lrat { IfOk result (λ given. Appends (V.contents lrat.old) (V.contents lrat.new)
        (P.shown given.1)) }
    ensures line { IfOk result (λ given. Appends (W.contents out.old) (W.contents out.new)
        (shown_line given.0)) }
    ensures refused { IfErr result (λ fault. RefusesRun (R.remaining proof) formula.now fault) }
    ensures silent { IsRefusedRun result → (out.new ≡ out.old) × (lrat.new ≡ lrat.old) }
    ensures unwritten { IsUnwritten result → StopsWriting
        P.took P.shown (R.remaining proof) formula.now writer
        (V.contents lrat.old) (V.contents lrat.new) (W.contents out.old) (W.contents out.new) }
    ensures refutes { IfOk result (λ given. given.0 ≡ Unsatisfiable → (a : ℕ → Bool)
        → all_true a formula.now ≡ false) }
{
    let mut checker: WriterChecker<P> = CheckerOf::new(alloc);
    if let Err((_, fault)) = checker.add_processor(writer) {
        return Err(RunFault::Formula(DimacsError::Checker(fault)));
    }
    if let Err(fault) = checker.add_formula(formula) {
        return Err(RunFault::Formula(DimacsError::Checker(fault)));
    }
    let inputs = checker.input_clauses();
    if let Err(fault) = checker.check_proof(rt, proof) {
        return Err(RunFault::Proof(fault));
    }
    let verdict = verdict_after(&checker, inputs);
    let (mut processors, _) = checker.into_processors();
    let writer = processors.swap_remove(0);
    match write_both(out, lrat, writer.output(), verdict) {
        Ok(()) => Ok((verdict, writer)),
        Err(fault) => Err(RunFault::Write(fault)),
    }
}

/// Writes an output whole, and then a verdict's line.
fn write_both<W: Write, V: Write>(
    out: &mut W,
    lrat: &mut V,
    output: &[u8],
    verdict: Verdict,
) -> io::Result<()>
    ensures lrat { OnOk result
        (Appends (V.contents lrat.old) (V.contents lrat.new) output.now) }
    ensures line { OnOk result
        (Appends (W.contents out.old) (W.contents out.new) (shown_line verdict)) }
    ensures stops { OnErr result (StopsInTurn
        (V.contents lrat.old) (V.contents lrat.new) output.now
        (W.contents out.old) (W.contents out.new) (shown_line verdict)) }
{
    write_whole(lrat, output)?;
    write_line(out, verdict)
}
