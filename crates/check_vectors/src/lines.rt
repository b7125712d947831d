//! Steps as lines of text. Literals and variables are DIMACS numbers; the ids of propagations are
//! in round brackets.
use checker_parts::processor::CheckerData;
use checker_parts::step::{
    CheckedProofStep as Step, CheckedSamplingMode, CheckedUserVar, ProofTranscriptStep,
};
use sat_formula::{Lit, Var};
use std::alloc::{AllocError, Global};
use std::fmt;

/// Returns the line of a step.
pub(crate) fn step_line(alloc: Global, step: &Step) -> Result<String, AllocError> {
    match step {
        Step::UserVar { var, user_var } => user_var_line(alloc, *var, user_var),
        Step::AddClause { id, clause } => clause_line(alloc, "AddClause", *id, clause),
        Step::DuplicatedClause {
            id,
            same_as_id,
            clause,
        } => format!(in alloc;
            "DuplicatedClause {id} same {same_as_id} {}\n",
            Lits(clause)
        ),
        Step::TautologicalClause { id, clause } => {
            clause_line(alloc, "TautologicalClause", *id, clause)
        }
        Step::AtClause {
            id,
            redundant,
            clause,
            propagations,
        } => {
            let kind = if *redundant { "red" } else { "irr" };
            let clause = Propagated(clause, propagations);
            format!(in alloc; "AtClause {id} {kind} {clause}\n")
        }
        Step::DeleteClause { id, clause } => clause_line(alloc, "DeleteClause", *id, clause),
        Step::DeleteAtClause {
            id,
            keep_as_redundant,
            clause,
            propagations,
        } => format!(in alloc;
            "DeleteAtClause {id} {} {}\n",
            kept(*keep_as_redundant),
            Propagated(clause, propagations)
        ),
        Step::DeleteRatClause {
            id,
            keep_as_redundant,
            clause,
            pivot,
            ..
        } => format!(in alloc;
            "DeleteRatClause {id} {} {} pivot {}\n",
            kept(*keep_as_redundant),
            Lits(clause),
            pivot.to_dimacs()
        ),
        Step::MakeIrredundant { id, clause } => clause_line(alloc, "MakeIrredundant", *id, clause),
        Step::Model { assignment } => lits_line(alloc, "Model", assignment),
        Step::Assumptions { assumptions } => lits_line(alloc, "Assumptions", assumptions),
        Step::FailedAssumptions {
            failed_core,
            propagations,
        } => format!(in alloc;
            "FailedAssumptions {}\n",
            Propagated(failed_core, propagations)
        ),
    }
}

/// Returns the line of a step on a clause.
fn clause_line(alloc: Global, name: &str, id: u64, clause: &[Lit]) -> Result<String, AllocError> {
    format!(in alloc; "{name} {id} {}\n", Lits(clause))
}

/// Returns the line of a step on literals.
fn lits_line(alloc: Global, name: &str, lits: &[Lit]) -> Result<String, AllocError> {
    format!(in alloc; "{name} {}\n", Lits(lits))
}

/// Returns the line of a step on a variable.
fn var_line(alloc: Global, name: &str, var: Var) -> Result<String, AllocError> {
    format!(in alloc; "{name} {}\n", var.to_dimacs())
}

/// Returns the word for a deleted clause that is kept as redundant, or is not.
fn kept(keep_as_redundant: bool) -> &'static str {
    if keep_as_redundant { "keep" } else { "gone" }
}

/// Returns the line of a name that is given, kept in another mode, or removed.
fn user_var_line(
    alloc: Global,
    var: Var,
    user_var: &Option<CheckedUserVar>,
) -> Result<String, AllocError> {
    let number = var.to_dimacs();
    match user_var {
        None => format!(in alloc; "UserVar {number} none\n"),
        Some(named) => {
            let name = named.user_var.to_dimacs();
            let mode = match named.sampling_mode {
                CheckedSamplingMode::Sample => "Sample",
                CheckedSamplingMode::Witness => "Witness",
            };
            let change = if named.new_var { "new" } else { "changed" };
            format!(in alloc; "UserVar {number} -> {name} {mode} {change}\n")
        }
    }
}

/// Returns the line of a step of a transcript.
pub(crate) fn transcript_line(
    alloc: Global,
    step: &ProofTranscriptStep,
) -> Result<String, AllocError> {
    match step {
        ProofTranscriptStep::WitnessVar { var } => var_line(alloc, "WitnessVar", *var),
        ProofTranscriptStep::SampleVar { var } => var_line(alloc, "SampleVar", *var),
        ProofTranscriptStep::HideVar { var } => var_line(alloc, "HideVar", *var),
        ProofTranscriptStep::ObserveInternalVar { var } => {
            var_line(alloc, "ObserveInternalVar", *var)
        }
        ProofTranscriptStep::AddClause { clause } => lits_line(alloc, "AddClause", clause),
        ProofTranscriptStep::Unsat => format!(in alloc; "Unsat\n"),
        ProofTranscriptStep::Model { assignment } => lits_line(alloc, "Model", assignment),
        ProofTranscriptStep::Assume { assumptions } => lits_line(alloc, "Assume", assumptions),
        ProofTranscriptStep::FailedAssumptions { failed_core } => {
            lits_line(alloc, "FailedAssumptions", failed_core)
        }
    }
}

/// Returns the line of a step on one variable, and an empty text for another step.
pub(crate) fn name_line(
    alloc: Global,
    step: &Step,
    names: CheckerData,
) -> Result<String, AllocError> {
    let var = match step {
        Step::UserVar { var, .. } => *var,
        Step::DeleteRatClause { pivot, .. } => pivot.var(),
        _ => return Ok(String::new(alloc)),
    };
    let number = var.to_dimacs();
    match names.user_from_proof_var(var) {
        Some(user_var) => format!(in alloc; "{number} is {}\n", user_var.to_dimacs()),
        None => format!(in alloc; "{number} is hidden\n"),
    }
}

/// Literals as DIMACS numbers.
#[derive(Drop)]
struct Lits<'a>(&'a [Lit]);

impl fmt::Display for Lits<'_> {
    fn fmt<W: fmt::Write>(&self, f: &mut fmt::Formatter<W>) -> fmt::Result {
        write!(f, "[")?;
        for (place, lit) in self.0.iter().enumerate() {
            if place > 0 {
                write!(f, " ")?;
            }
            write!(f, "{}", lit.to_dimacs())?;
        }
        write!(f, "]")
    }
}

/// Literals, and the ids of propagations.
#[derive(Drop)]
struct Propagated<'a>(&'a [Lit], &'a [u64]);

impl fmt::Display for Propagated<'_> {
    fn fmt<W: fmt::Write>(&self, f: &mut fmt::Formatter<W>) -> fmt::Result {
        write!(f, "{} (", Lits(self.0))?;
        for (place, id) in self.1.iter().enumerate() {
            if place > 0 {
                write!(f, " ")?;
            }
            write!(f, "{id}")?;
        }
        write!(f, ")")
    }
}
