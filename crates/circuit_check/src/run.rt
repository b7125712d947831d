//! Runs: circuits are read, a proof is checked against their formula, and the verdict is written.
ghost use Rattle.std.specs.Prelude.{◌≡◌, ℕ, List, IfErr, IfOk, OnOk, Ok, Some};
ghost use Rattle.std.specs.Io.KnownBytes.{Appends};
ghost use Rattle.circuit_check.specs.Claims.{HasWritten, IsNeverFormula, IsNeverText, IsSameFormula, IsSameText};
ghost use Rattle.circuit_check.specs.Reads.{FailsNever, FailsSame};
ghost use Rattle.circuit_check.specs.Runs.{BeginsClaim, BeginsText, IsClaimRun, IsSilent, IsUnmade, IsUnwritten, IsWritten};
ghost use Rattle.circuit_check.specs.Verdicts.{claim_line};
ghost use Rattle.circuit_check.specs.declared.line.Claim.TheVariants as claims;
ghost use Rattle.refutation_rules.specs.Cubes.{IsRefuted};
ghost use Rattle.drat_check.specs.Runs.{IsProofRun};
ghost use Rattle.sat_output.specs.FormulaTexts.{formula_text};
ghost use Rattle.verdicts.specs.declared.verdict.Verdict.TheVariants.{Verified};
ghost use Rattle.whole_writes.specs.Beginnings.{AppendsBeginning};

use crate::fault::CircuitFault;
use crate::formulas::{read_never, read_same};
use crate::line::Claim;
use crate::pair::PairTexts;
use drat_check::{Outputs, ProofFormat, RunFault, Verdict, run_proof};
use log::Log;
use sat_formula::CnfFormula;
use sat_output::write_formula;
use std::alloc::Global;
use std::io::{Read, Write};
use whole_writes::write_whole;

/// Reads a circuit, checks a proof that no input makes an output true, and writes the verdict's
/// line.
///
/// Returns whether the proof shows it.
///
/// # Errors
///
/// `Unread` if the circuit can't be read, `Sequential` if it has more than gates, `NoFormula` if
/// there is no formula of it, `Proof` if the proof is rejected or can't be read; nothing is written
/// then. `Write` if the line of a verdict that was reached could not be written whole: a beginning
/// of it is.
pub fn run_never<R: Log, A: Read + Drop, P: Read + Drop, W: Write>(
    rt: &R,
    alloc: Global,
    text: A,
    proof: P,
    format: ProofFormat,
    out: &mut W,
) -> Result<Verdict, CircuitFault>
    ensures run { IsClaimRun (IsNeverFormula (A.remaining text)) (FailsNever (A.remaining text))
        result }
    ensures line { IfOk result (λ verdict.
        Appends (W.contents out.old) (W.contents out.new) (claim_line claims.Never verdict)) }
    ensures silent { IsSilent result → out.new ≡ out.old }
    ensures unwritten { IsUnwritten result → BeginsClaim (IsNeverFormula (A.remaining text))
        claims.Never (W.contents out.old) (W.contents out.new) }
    ensures never { (said : List ℕ) → A.remaining text ≡ Some said
        → result ≡ Ok Verified → IsNeverText said }
{
    let formula = match read_never(alloc, text) {
        Ok(formula) => formula,
        Err(fault) => return Err(fault),
    };
    let verdict = match check_proof(rt, alloc, &formula, proof, format) {
        Ok(verdict) => verdict,
        Err(fault) => return Err(CircuitFault::Proof(fault)),
    };
    write_verdict(out, Claim::Never, verdict)
}

/// Reads two circuits, checks a proof that they have the same outputs for the same input, and
/// writes the verdict's line. Inputs and outputs are compared with those with which they are
/// paired.
///
/// Returns whether the proof shows it.
///
/// # Errors
///
/// As `run_never`; also `OtherUnread` if the second circuit can't be read, `Unpaired` if the names
/// can't be paired, and `NoFormula` if the circuits have not as many inputs or outputs.
pub fn run_same<R: Log, P: Read + Drop, W: Write>(
    rt: &R,
    alloc: Global,
    pair: PairTexts<'_>,
    proof: P,
    format: ProofFormat,
    out: &mut W,
) -> Result<Verdict, CircuitFault>
    ensures run { IsClaimRun (IsSameFormula pair.entry.pairing pair.entry.text.now
        pair.entry.other.now) (FailsSame pair.entry.pairing pair.entry.text.now
        pair.entry.other.now) result }
    ensures line { IfOk result (λ verdict.
        Appends (W.contents out.old) (W.contents out.new) (claim_line claims.Same verdict)) }
    ensures silent { IsSilent result → out.new ≡ out.old }
    ensures unwritten { IsUnwritten result
        → BeginsClaim (IsSameFormula pair.entry.pairing pair.entry.text.now pair.entry.other.now)
        claims.Same (W.contents out.old) (W.contents out.new) }
    ensures same { result ≡ Ok Verified
        → IsSameText pair.entry.pairing pair.entry.text.now pair.entry.other.now }
{
    let formula = match read_same(alloc, pair) {
        Ok(formula) => formula,
        Err(fault) => return Err(fault),
    };
    let verdict = match check_proof(rt, alloc, &formula, proof, format) {
        Ok(verdict) => verdict,
        Err(fault) => return Err(CircuitFault::Proof(fault)),
    };
    write_verdict(out, Claim::Same, verdict)
}

/// Reads a circuit, and writes the formula that is refuted if the circuit is never true.
///
/// # Errors
///
/// `Unread`, `Sequential` and `NoFormula` as `run_never`, with nothing written; `Formula` if it
/// could not be written whole: a beginning of it is.
pub fn write_never<A: Read + Drop, W: Write>(
    alloc: Global,
    text: A,
    out: &mut W,
) -> Result<(), CircuitFault>
    ensures whole { OnOk result (HasWritten (IsNeverFormula (A.remaining text))
        (W.contents out.old) (W.contents out.new)) }
    ensures fault { IfErr result (IsUnmade (IsNeverFormula (A.remaining text))
        (FailsNever (A.remaining text)) W.contents out.old out.new) }
{
    match read_never(alloc, text) {
        Ok(formula) => write_text(alloc, &formula, out),
        Err(fault) => Err(fault),
    }
}

/// Reads two circuits, and writes the formula that is refuted if they are the same.
///
/// # Errors
///
/// As `write_never`, and those of `run_same` for the second circuit.
pub fn write_same<W: Write>(
    alloc: Global,
    pair: PairTexts<'_>,
    out: &mut W,
) -> Result<(), CircuitFault>
    ensures whole { OnOk result (HasWritten (IsSameFormula pair.entry.pairing pair.entry.text.now
        pair.entry.other.now) (W.contents out.old) (W.contents out.new)) }
    ensures fault { IfErr result (IsUnmade (IsSameFormula pair.entry.pairing pair.entry.text.now
        pair.entry.other.now) (FailsSame pair.entry.pairing pair.entry.text.now
        pair.entry.other.now) W.contents out.old out.new) }
{
    match read_same(alloc, pair) {
        Ok(formula) => write_text(alloc, &formula, out),
        Err(fault) => Err(fault),
    }
}

/// Writes a formula as DIMACS text.
pub(crate) fn write_text<W: Write>(
    alloc: Global,
    formula: &CnfFormula,
    out: &mut W,
) -> Result<(), CircuitFault>
    ensures whole { OnOk result (Appends (W.contents out.old) (W.contents out.new)
        (formula_text formula.now)) }
    ensures beginning { IfErr result (BeginsText W.contents out.old out.new formula.now) }
{
    match write_formula(alloc, out, formula) {
        Ok(()) => Ok(()),
        Err(fault) => Err(CircuitFault::Formula(fault)),
    }
}

/// Checks a proof of a formula, and writes nothing.
pub(crate) fn check_proof<R: Log, P: Read + Drop>(
    rt: &R,
    alloc: Global,
    formula: &CnfFormula,
    proof: P,
    format: ProofFormat,
) -> Result<Verdict, RunFault>
    ensures run { IsProofRun formula.now result }
    ensures refutes { result ≡ Ok Verified → IsRefuted formula.now }
{
    run_proof(rt, alloc, formula, proof, format, &mut Outputs::none())
}

/// Writes the line of a verdict.
pub(crate) fn write_verdict<W: Write>(
    out: &mut W,
    claim: Claim,
    verdict: Verdict,
) -> Result<Verdict, CircuitFault>
    ensures line { IfOk result (λ verdict.
        Appends (W.contents out.old) (W.contents out.new) (claim_line claim verdict)) }
    ensures same { IfOk result (λ written. written ≡ verdict) }
    ensures written { IsWritten result }
    ensures unwritten { IsUnwritten result → AppendsBeginning (W.contents out.old)
        (W.contents out.new) (claim_line claim verdict) }
{
    match write_whole(out, claim.line(verdict)) {
        Ok(()) => Ok(verdict),
        Err(fault) => Err(CircuitFault::Write(fault)),
    }
}
