//! Kinds of steps.
ghost use Rattle.std.specs.Prelude.{◌≡◌};
ghost use Rattle.handles.specs.CheckerSteps.{kind_of, step_of};
ghost use Rattle.checker_rules.specs.Step.{at_clause, delete_clause};
ghost use Rattle.proof_bytes.specs.NextStep.{view, why};

use proof_bytes::{DeleteClauseProof, ProofStep};
use sat_formula::Lit;

/// A kind of step.
#[derive(Clone, Copy, Debug, PartialEq, Eq)]
pub enum StepKind {
    /// A clause joins the formula.
    AddClause,
    /// An irredundant clause follows by unit propagation over the clauses with the hashes.
    AtClause,
    /// The same of a redundant clause.
    RedundantAtClause,
    /// A clause is deleted, since it is redundant.
    DeleteRedundant,
    /// A clause is deleted, since a unit clause makes it true.
    DeleteSatisfied,
    /// A clause is deleted, since the clause added last is a proper subset of it.
    DeleteSimplified,
    /// The literals satisfy the formula.
    Model,
    /// The literals are assumed from here on.
    Assumptions,
    /// The literals, which are assumed, fail together, by unit propagation over the clauses with
    /// the hashes.
    FailedAssumptions,
    /// The proof ends. It claims nothing.
    End,
}

impl StepKind {
    /// Returns the kind of a number: they are numbered from 1.
    pub fn of(number: u8) -> Option<StepKind>
        ensures { result ≡ kind_of number }
    {
        match number {
            1 => Some(StepKind::AddClause),
            2 => Some(StepKind::AtClause),
            3 => Some(StepKind::RedundantAtClause),
            4 => Some(StepKind::DeleteRedundant),
            5 => Some(StepKind::DeleteSatisfied),
            6 => Some(StepKind::DeleteSimplified),
            7 => Some(StepKind::Model),
            8 => Some(StepKind::Assumptions),
            9 => Some(StepKind::FailedAssumptions),
            10 => Some(StepKind::End),
            _ => None,
        }
    }
}

/// Returns the step of a kind. Most kinds have no hashes, and `End` has no literals.
pub(crate) fn make_step<'a>(kind: StepKind, lits: &'a [Lit], hashes: &'a [u64]) -> ProofStep<'a>
    ensures { view result ≡ step_of kind lits.now hashes.now }
{
    match kind {
        StepKind::AddClause => ProofStep::AddClause { clause: lits },
        StepKind::AtClause => derived(false, lits, hashes),
        StepKind::RedundantAtClause => derived(true, lits, hashes),
        StepKind::DeleteRedundant => deleted(lits, DeleteClauseProof::Redundant),
        StepKind::DeleteSatisfied => deleted(lits, DeleteClauseProof::Satisfied),
        StepKind::DeleteSimplified => deleted(lits, DeleteClauseProof::Simplified),
        StepKind::Model => ProofStep::Model { assignment: lits },
        StepKind::Assumptions => ProofStep::Assumptions { assumptions: lits },
        StepKind::FailedAssumptions => ProofStep::FailedAssumptions {
            failed_core: lits,
            propagation_hashes: hashes,
        },
        StepKind::End => ProofStep::End,
    }
}

/// Returns the step of a clause that follows.
fn derived<'a>(redundant: bool, clause: &'a [Lit], hashes: &'a [u64]) -> ProofStep<'a>
    ensures { view result ≡ at_clause redundant clause.now hashes.now }
{
    ProofStep::AtClause {
        redundant,
        clause,
        propagation_hashes: hashes,
    }
}

/// Returns the step of a deletion.
fn deleted<'a>(clause: &'a [Lit], proof: DeleteClauseProof) -> ProofStep<'a>
    ensures { view result ≡ delete_clause (why proof) clause.now }
{
    ProofStep::DeleteClause { clause, proof }
}
