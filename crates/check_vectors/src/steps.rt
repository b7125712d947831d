//! Proof steps as lines of text.
//!
//! Literals and variables are DIMACS numbers. A hash is a hexadecimal number, or a capital letter
//! of [`crate::words::hash`]'s table.
//!
//! | line | step |
//! |---|---|
//! | `add LITS` | an input clause |
//! | `at irr LITS : HASHES`, `at red LITS : HASHES` | a derived clause, irredundant or redundant |
//! | `units LIT:HASH ..` | derived units, each by one hash |
//! | `del redundant LITS`, `del satisfied LITS`, `del simplified LITS` | deletes a clause |
//! | `delvar VAR` | deletes a variable |
//! | `solver VAR NAME`, `solver VAR -` | names a variable for the solver, or takes its name |
//! | `user VAR NAME`, `user VAR -` | names a variable for the user, or takes its name |
//! | `mode VAR sample`, `mode VAR witness` | changes the mode of a variable |
//! | `bits NUMBER` | changes the width of hashes |
//! | `model LITS`, `assume LITS`, `core LITS : HASHES` | a model, assumptions, a failed core |
//! | `end` | ends the proof |
use crate::words::{by_hashes, first_word, hashed_lits, hashes, lits, optional_var, var};
use proof_bytes::{ClauseHash, DeleteClauseProof, ProofStep};
use sat_formula::{Lit, Var};
use std::alloc::Global;
use std::test::Fail;

/// The step of a line, with the lists that it is over.
#[derive(Drop)]
pub struct Step {
    kind: Kind,
    lits: Vec<Lit>,
    hashes: Vec<ClauseHash>,
    units: Vec<(Lit, ClauseHash)>,
}

/// What a step is, without its lists.
#[derive(Clone, Copy)]
enum Kind {
    Add,
    At { redundant: bool },
    Units,
    Delete(DeleteClauseProof),
    DeleteVar(Var),
    SolverName(Var, Option<Var>),
    UserName(Var, Option<Var>),
    Mode { var: Var, sample: bool },
    Bits(u32),
    Model,
    Assumptions,
    FailedCore,
    End,
}

impl Step {
    /// Returns the step of a line.
    ///
    /// # Errors
    ///
    /// If the line is no step, or there is no memory.
    pub fn of(alloc: Global, line: &str) -> Result<Step, Fail> {
        let (kind, lists) = kind_of(line)?;
        if let Kind::Units = kind {
            return Ok(Step {
                kind,
                lits: Vec::new(alloc),
                hashes: Vec::new(alloc),
                units: hashed_lits(alloc, lists)?,
            });
        }
        let (numbers, names) = by_hashes(lists);
        Ok(Step {
            kind,
            lits: lits(alloc, numbers)?,
            hashes: hashes(alloc, names)?,
            units: Vec::new(alloc),
        })
    }

    /// Returns its literals.
    pub fn lits(&self) -> &[Lit] {
        &self.lits
    }

    /// Returns the step as the checker takes it.
    pub fn as_step(&self) -> ProofStep<'_> {
        let (clause, propagation_hashes) = (self.lits.as_slice(), self.hashes.as_slice());
        match self.kind {
            Kind::Add => ProofStep::AddClause { clause },
            Kind::At { redundant } => ProofStep::AtClause {
                redundant,
                clause,
                propagation_hashes,
            },
            Kind::Units => ProofStep::UnitClauses { units: &self.units },
            Kind::Delete(proof) => ProofStep::DeleteClause { clause, proof },
            Kind::DeleteVar(var) => ProofStep::DeleteVar { var },
            Kind::SolverName(global, solver) => ProofStep::SolverVarName { global, solver },
            Kind::UserName(global, user) => ProofStep::UserVarName { global, user },
            Kind::Mode { var, sample } => ProofStep::ChangeSamplingMode { var, sample },
            Kind::Bits(bits) => ProofStep::ChangeHashBits { bits },
            Kind::Model => ProofStep::Model { assignment: clause },
            Kind::Assumptions => ProofStep::Assumptions {
                assumptions: clause,
            },
            Kind::FailedCore => ProofStep::FailedAssumptions {
                failed_core: clause,
                propagation_hashes,
            },
            Kind::End => ProofStep::End,
        }
    }
}

/// Returns the kind of a line's step, and its lists.
fn kind_of(line: &str) -> Result<(Kind, &str), Fail> {
    let (name, rest) = first_word(line);
    let (word, lists) = first_word(rest);
    match name {
        "add" => Ok((Kind::Add, rest)),
        "at" => Ok((derivation(word)?, lists)),
        "units" => Ok((Kind::Units, rest)),
        "del" => Ok((deletion(word)?, lists)),
        "model" => Ok((Kind::Model, rest)),
        "assume" => Ok((Kind::Assumptions, rest)),
        "core" => Ok((Kind::FailedCore, rest)),
        "end" => Ok((Kind::End, rest)),
        "bits" => Ok((Kind::Bits(word.parse::<u32>()?), lists)),
        _ => Ok((kind_over_var(name, word, lists)?, "")),
    }
}

/// Returns the kind of a derived clause, irredundant or redundant.
fn derivation(kind: &str) -> Result<Kind, Fail> {
    match kind {
        "irr" => Ok(Kind::At { redundant: false }),
        "red" => Ok(Kind::At { redundant: true }),
        _ => Err("neither irr nor red".into()),
    }
}

/// Returns the kind of a deletion, by its reason.
fn deletion(reason: &str) -> Result<Kind, Fail> {
    match reason {
        "redundant" => Ok(Kind::Delete(DeleteClauseProof::Redundant)),
        "satisfied" => Ok(Kind::Delete(DeleteClauseProof::Satisfied)),
        "simplified" => Ok(Kind::Delete(DeleteClauseProof::Simplified)),
        _ => Err("no such reason".into()),
    }
}

/// Returns the kind of a step over a variable, its name or its mode.
fn kind_over_var(name: &str, number: &str, value: &str) -> Result<Kind, Fail> {
    match (name, value) {
        ("delvar", _) => Ok(Kind::DeleteVar(var(number)?)),
        ("solver", _) => Ok(Kind::SolverName(var(number)?, optional_var(value)?)),
        ("user", _) => Ok(Kind::UserName(var(number)?, optional_var(value)?)),
        ("mode", "sample") => mode(number, true),
        ("mode", "witness") => mode(number, false),
        _ => Err("no such call".into()),
    }
}

/// Returns the kind of a change of a mode.
fn mode(number: &str, sample: bool) -> Result<Kind, Fail> {
    Ok(Kind::Mode {
        var: var(number)?,
        sample,
    })
}
