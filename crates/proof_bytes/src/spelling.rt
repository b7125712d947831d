//! Steps as bytes, appended one after the other.
//!
//! What was there before stays in front, also where there is no memory for the rest.
ghost use Rattle.std.specs.Prelude.{◌≡◌, ◌++◌, ◌<◌, ◌≤◌, ◌^◌, true, map, OnOk};
ghost use Rattle.sat_formula.specs.Vars.{index_of, indexes_of};
ghost use Rattle.proof_bytes.specs.Formats.{bytes_of, IsFormat};
ghost use Rattle.proof_bytes.specs.NextStep.{view, why};
ghost use Rattle.proof_bytes.specs.Version2.{writing, mark};
ghost use Rattle.proof_bytes.specs.Spelling.{all_fit, hashes_of, IsStep, IsName, IsUnit, AreLits, AreHashes, Listed, spells, fields_of, numbers, flag, name, justification, listed, hash, unit, little};
ghost use Rattle.written_numbers.specs.GroupedBytes.{number_bytes};
ghost use Rattle.written_numbers.specs.Growing.{Grows};

use crate::format::Format;
use crate::hash::ClauseHash;
use crate::step::{DeleteClauseProof, ProofStep};
use crate::tag;
use sat_formula::{Lit, Var};
use std::alloc::AllocError;
use written_numbers::groups::push_number;

fn push_step(out: &mut Vec<u8>, format: Format, step: &ProofStep) -> Result<(), AllocError>
    requires in_force { IsFormat format }
    requires narrow { all_fit format (hashes_of (view step.now)) ≡ true }
    ensures ok { OnOk result (out.new.items ≡ out.old.items ++ spells format (view step.now)) }
    ensures fits { OnOk result (IsStep format (view step.now)) }
    ensures grows { Grows out.old.items out.new.items }
{
    out.push(step.tag())?;
    push_fields(out, format, step)
}

/// The step, after the mark where it begins a text of version 2.
pub(crate) fn push_marked(
    out: &mut Vec<u8>,
    format: Format,
    step: &ProofStep,
) -> Result<(), AllocError>
    requires in_force { IsFormat format }
    requires narrow { all_fit (writing format) (hashes_of (view step.now)) ≡ true }
    ensures ok { OnOk result (out.new.items
        ≡ out.old.items ++ (mark format ++ spells (writing format) (view step.now))) }
    ensures fits { OnOk result (IsStep (writing format) (view step.now)) }
    ensures grows { Grows out.old.items out.new.items }
{
    if let Format::Start = format {
        out.push(tag::MARK)?;
        out.push(tag::VERSION)?;
    }
    push_step(out, format.writing(), step)
}

fn push_fields(out: &mut Vec<u8>, format: Format, step: &ProofStep) -> Result<(), AllocError>
    requires in_force { IsFormat format }
    requires narrow { all_fit format (hashes_of (view step.now)) ≡ true }
    ensures ok { OnOk result (out.new.items ≡ out.old.items ++ fields_of format (view step.now)) }
    ensures fits { OnOk result (IsStep format (view step.now)) }
    ensures grows { Grows out.old.items out.new.items }
{
    match *step {
        ProofStep::SolverVarName { global, solver } => push_naming(out, global, solver),
        ProofStep::UserVarName { global, user } => push_naming(out, global, user),
        ProofStep::DeleteVar { var } => push_var(out, var),
        ProofStep::ChangeSamplingMode { var, sample } => {
            push_var(out, var)?;
            push_flag(out, sample)
        }
        ProofStep::AddClause { clause } => push_lits(out, clause),
        ProofStep::AtClause {
            redundant,
            clause,
            propagation_hashes,
        } => {
            push_flag(out, redundant)?;
            push_check(out, format, clause, propagation_hashes)
        }
        ProofStep::DeleteClause { clause, proof } => {
            push_justification(out, proof)?;
            push_lits(out, clause)
        }
        ProofStep::UnitClauses { units } => push_units(out, format, units),
        ProofStep::ChangeHashBits { bits } => push_number(out, bits as u64),
        ProofStep::Model { assignment } => push_lits(out, assignment),
        ProofStep::Assumptions { assumptions } => push_lits(out, assumptions),
        ProofStep::FailedAssumptions {
            failed_core,
            propagation_hashes,
        } => push_check(out, format, failed_core, propagation_hashes),
        ProofStep::End => Ok(()),
    }
}

fn push_naming(out: &mut Vec<u8>, global: Var, named: Option<Var>) -> Result<(), AllocError>
    ensures ok { OnOk result (out.new.items
        ≡ out.old.items ++ (number_bytes (index_of global)
        ++ number_bytes (name (indexes_of named)))) }
    ensures fits { (index_of global < 2 ^ 28) × IsName (indexes_of named) }
    ensures grows { Grows out.old.items out.new.items }
{
    push_var(out, global)?;
    push_name(out, named)
}

fn push_check(
    out: &mut Vec<u8>,
    format: Format,
    lits: &[Lit],
    hashes: &[ClauseHash],
) -> Result<(), AllocError>
    requires in_force { IsFormat format }
    requires narrow { all_fit format hashes.now ≡ true }
    ensures ok { OnOk result (out.new.items
        ≡ out.old.items ++ (numbers lits.now ++ listed (hash format) hashes.now)) }
    ensures fits { OnOk result (AreLits lits.now × AreHashes format hashes.now) }
    ensures grows { Grows out.old.items out.new.items }
{
    push_lits(out, lits)?;
    push_hashes(out, format, hashes)
}

fn push_flag(out: &mut Vec<u8>, b: bool) -> Result<(), AllocError>
    ensures ok { OnOk result (out.new.items ≡ out.old.items ++ number_bytes (flag b)) }
    ensures grows { Grows out.old.items out.new.items }
{
    push_number(out, b as u64)
}

fn push_var(out: &mut Vec<u8>, var: Var) -> Result<(), AllocError>
    ensures ok { OnOk result (out.new.items ≡ out.old.items ++ number_bytes (index_of var)) }
    ensures fits { index_of var < 2 ^ 28 }
    ensures grows { Grows out.old.items out.new.items }
{
    push_number(out, var.index() as u64)
}

fn push_name(out: &mut Vec<u8>, named: Option<Var>) -> Result<(), AllocError>
    ensures ok { OnOk result (out.new.items
        ≡ out.old.items ++ number_bytes (name (indexes_of named))) }
    ensures fits { IsName (indexes_of named) }
    ensures grows { Grows out.old.items out.new.items }
{
    match named {
        Some(var) => push_number(out, var.index() as u64 + 1),
        None => push_number(out, 0),
    }
}

fn push_justification(out: &mut Vec<u8>, proof: DeleteClauseProof) -> Result<(), AllocError>
    ensures ok { OnOk result (out.new.items
        ≡ out.old.items ++ number_bytes (justification (why proof))) }
    ensures grows { Grows out.old.items out.new.items }
{
    match proof {
        DeleteClauseProof::Redundant => push_number(out, 0),
        DeleteClauseProof::Satisfied => push_number(out, 1),
        DeleteClauseProof::Simplified => push_number(out, 2),
    }
}

fn push_lits(out: &mut Vec<u8>, lits: &[Lit]) -> Result<(), AllocError>
    ensures ok { OnOk result (out.new.items ≡ out.old.items ++ numbers lits.now) }
    ensures fits { OnOk result (AreLits lits.now) }
    ensures grows { Grows out.old.items out.new.items }
{
    push_number(out, lits.len() as u64)?;
    'items: for lit in lits {
        push_number(out, lit.code() as u64)?;
    }
    Ok(())
}

fn push_hash(out: &mut Vec<u8>, format: Format, n: u64) -> Result<(), AllocError>
    requires { IsFormat format }
    ensures ok { OnOk result (out.new.items ≡ out.old.items ++ hash format n) }
    ensures grows { Grows out.old.items out.new.items }
{
    match format {
        Format::Bytes { width } => push_wide(out, width, n),
        _ => push_number(out, n),
    }
}

fn push_wide(out: &mut Vec<u8>, width: u32, n: u64) -> Result<(), AllocError>
    requires { width ≤ 64 }
    ensures ok { OnOk result (out.new.items ≡ out.old.items ++ little (bytes_of width) n) }
    ensures grows { Grows out.old.items out.new.items }
{
    let count = (width + 7) / 8;
    let mut rest = n;
    'bytes: for _ in 0..count {
        out.push((rest % 256) as u8)?;
        rest /= 256;
    }
    Ok(())
}

fn push_hashes(out: &mut Vec<u8>, format: Format, hashes: &[ClauseHash]) -> Result<(), AllocError>
    requires in_force { IsFormat format }
    requires narrow { all_fit format hashes.now ≡ true }
    ensures ok { OnOk result (out.new.items ≡ out.old.items ++ listed (hash format) hashes.now) }
    ensures fits { OnOk result (AreHashes format hashes.now) }
    ensures grows { Grows out.old.items out.new.items }
{
    push_number(out, hashes.len() as u64)?;
    'items: for hash in hashes {
        push_hash(out, format, *hash)?;
    }
    Ok(())
}

fn push_units(
    out: &mut Vec<u8>,
    format: Format,
    units: &[(Lit, ClauseHash)],
) -> Result<(), AllocError>
    requires in_force { IsFormat format }
    requires narrow { all_fit format (map (λ u. u.1) units.now) ≡ true }
    ensures ok { OnOk result (out.new.items ≡ out.old.items ++ listed (unit format) units.now) }
    ensures fits { OnOk result (Listed (IsUnit format) units.now) }
    ensures grows { Grows out.old.items out.new.items }
{
    push_number(out, units.len() as u64)?;
    'items: for entry in units {
        push_number(out, entry.0.code() as u64)?;
        push_hash(out, format, entry.1)?;
    }
    Ok(())
}
