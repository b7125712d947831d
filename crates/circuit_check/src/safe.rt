//! Runs of a machine and an invariant: three proofs are checked, and the verdict is written.
ghost use Rattle.std.specs.Prelude.{◌≡◌, ℕ, List, IfErr, IfOk, OnOk, Ok, Some};
ghost use Rattle.std.specs.Io.KnownBytes.{Appends};
ghost use Rattle.circuit_check.specs.Claims.{HaveWritten, IsAppended, IsSafeText, RefutesAll};
ghost use Rattle.circuit_check.specs.Runs.{AreUnmade, BeginsSafe, IsFaultOf, IsPartFault, IsPartUnmade, IsSafeRun, IsSilent, IsUnwritten, proof_fault};
ghost use Rattle.circuit_check.specs.Verdicts.{claim_line};
ghost use Rattle.circuit_check.specs.declared.line.Claim.TheVariants as claims;
ghost use Rattle.circuit_clauses.specs.Machines.{part_clauses};
ghost use Rattle.refutation_rules.specs.Cubes.{IsRefuted};
ghost use Rattle.verdicts.specs.declared.verdict.Verdict.TheVariants.{Verified};

use crate::fault::CircuitFault;
use crate::formulas::read_safe;
use crate::line::Claim;
use crate::run::{check_proof, write_text, write_verdict};
use circuit_clauses::{Induction, Part};
use drat_check::{ProofFormat, RunFault, Verdict};
use log::Log;
use std::alloc::Global;
use std::io::{Read, Write};

/// Proofs of the three formulas of a machine and an invariant.
#[derive(Drop)]
pub struct PartProofs<P: Drop> {
    /// That the invariant is true at first.
    pub initial: P,
    /// That it stays true.
    pub step: P,
    /// That it excludes bad outputs.
    pub bad: P,
}

/// Reads a machine and an invariant, checks proofs that the invariant is true at first, that it
/// stays true, and that no bad output is true where it is, and writes the verdict's line: whether
/// no run of the machine makes a bad output true.
///
/// The invariant is a circuit with one output, whose inputs are the machine's inputs and then its
/// latches. All outputs of the machine are bad, where it names none as bad.
///
/// Returns whether the proofs show it.
///
/// # Errors
///
/// `Unread` and `OtherUnread` if the machine or the invariant can't be read, `NoFormula` if their
/// shapes do not fit, `InitialProof`, `StepProof` and `BadProof` if that proof is rejected or can't
/// be read; nothing is written then. `Write` if the line of a verdict that was reached could not be
/// written whole: a beginning of it is.
pub fn run_safe<R: Log, A: Read + Drop, B: Read + Drop, P: Read + Drop, W: Write>(
    rt: &R,
    alloc: Global,
    machine: A,
    invariant: B,
    proofs: PartProofs<P>,
    format: ProofFormat,
    out: &mut W,
) -> Result<Verdict, CircuitFault>
    ensures run { IsSafeRun (A.remaining machine) (B.remaining invariant) result }
    ensures line { IfOk result (λ verdict.
        Appends (W.contents out.old) (W.contents out.new) (claim_line claims.Safe verdict)) }
    ensures silent { IsSilent result → out.new ≡ out.old }
    ensures unwritten { IsUnwritten result → BeginsSafe (A.remaining machine)
        (B.remaining invariant) (W.contents out.old) (W.contents out.new) }
    ensures safe { (said : List ℕ) → A.remaining machine ≡ Some said
        → result ≡ Ok Verified → IsSafeText said }
{
    let induction = match read_safe(alloc, machine, invariant) {
        Ok(induction) => induction,
        Err(fault) => return Err(fault),
    };
    let verdict = match judge_parts(rt, alloc, &induction, proofs, format) {
        Ok(verdict) => verdict,
        Err(fault) => return Err(fault),
    };
    write_verdict(out, Claim::Safe, verdict)
}

/// Reads a machine and an invariant, and writes the three formulas that are refuted if the
/// invariant shows that the machine is safe.
///
/// # Errors
///
/// `Unread`, `OtherUnread` and `NoFormula` as `run_safe`, with nothing written; `Formula` if a
/// formula could not be written whole: a beginning of it is, and those before it are. So they are
/// if memory runs out at a later one.
pub fn write_safe<A: Read + Drop, B: Read + Drop, W: Write>(
    alloc: Global,
    machine: A,
    invariant: B,
    initial: &mut W,
    step: &mut W,
    bad: &mut W,
) -> Result<(), CircuitFault>
    ensures whole { OnOk result (HaveWritten (A.remaining machine) (B.remaining invariant)
        (W.contents initial.old) (W.contents initial.new)
        (W.contents step.old) (W.contents step.new)
        (W.contents bad.old) (W.contents bad.new)) }
    ensures fault { IfErr result (AreUnmade (A.remaining machine) (B.remaining invariant)
        W.contents initial.old initial.new step.old step.new bad.old bad.new) }
{
    let induction = match read_safe(alloc, machine, invariant) {
        Ok(induction) => induction,
        Err(fault) => return Err(fault),
    };
    write_part(alloc, &induction, Part::Initial, initial)?;
    write_part(alloc, &induction, Part::Step, step)?;
    write_part(alloc, &induction, Part::Bad, bad)
}

/// Writes the formula of a part.
fn write_part<W: Write>(
    alloc: Global,
    induction: &Induction,
    part: Part,
    out: &mut W,
) -> Result<(), CircuitFault>
    ensures whole { OnOk result (IsAppended (W.contents out.old) (W.contents out.new)
        (part_clauses induction.now part)) }
    ensures fault { IfErr result (IsPartUnmade induction.now part W.contents out.old out.new) }
{
    match induction.formula(alloc, part) {
        Ok(formula) => write_text(alloc, &formula, out),
        Err(fault) => Err(CircuitFault::NoFormula(fault)),
    }
}

/// What three proofs show: each is checked, and `Verified` says that all formulas are refuted.
fn judge_parts<R: Log, P: Read + Drop>(
    rt: &R,
    alloc: Global,
    induction: &Induction,
    proofs: PartProofs<P>,
    format: ProofFormat,
) -> Result<Verdict, CircuitFault>
    ensures refutes { result ≡ Ok Verified → RefutesAll induction.now }
    ensures fault { IfErr result (IsPartFault induction.now) }
{
    let PartProofs { initial, step, bad } = proofs;
    let initial = judge_part(rt, alloc, induction, Part::Initial, initial, format)?;
    let step = judge_part(rt, alloc, induction, Part::Step, step, format)?;
    let bad = judge_part(rt, alloc, induction, Part::Bad, bad, format)?;
    Ok(match (initial, step, bad) {
        (Verdict::Verified, Verdict::Verified, Verdict::Verified) => Verdict::Verified,
        _ => Verdict::NotVerified,
    })
}

/// What a proof shows of the formula of a part.
fn judge_part<R: Log, P: Read + Drop>(
    rt: &R,
    alloc: Global,
    induction: &Induction,
    part: Part,
    proof: P,
    format: ProofFormat,
) -> Result<Verdict, CircuitFault>
    ensures refutes { result ≡ Ok Verified → IsRefuted (part_clauses induction.now part) }
    ensures fault { IfErr result (IsFaultOf induction.now part) }
{
    let formula = match induction.formula(alloc, part) {
        Ok(formula) => formula,
        Err(fault) => return Err(CircuitFault::NoFormula(fault)),
    };
    match check_proof(rt, alloc, &formula, proof, format) {
        Ok(verdict) => Ok(verdict),
        Err(fault) => Err(proof_fault(part, fault)),
    }
}

/// Returns the fault of a run of the proof of a part.
fn proof_fault(part: Part, fault: RunFault) -> CircuitFault
    ensures { result ≡ proof_fault part fault }
{
    match part {
        Part::Initial => CircuitFault::InitialProof(fault),
        Part::Step => CircuitFault::StepProof(fault),
        Part::Bad => CircuitFault::BadProof(fault),
    }
}
