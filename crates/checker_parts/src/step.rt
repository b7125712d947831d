//! What processors and transcripts receive.
use sat_formula::lit::{Lit, Var};

/// A step of a checked proof.
///
/// Ids are given to clauses by the checker and rise. Clauses, assumptions and cores are in
/// canonical form; a model is as it was given. Propagations are the ids of the clauses that become
/// unit one after the other under the negated clause, last of the one that is falsified.
#[derive(Debug, Drop)]
pub enum CheckedProofStep<'a> {
    /// A variable gets a user name, keeps it in another mode, or loses it.
    UserVar {
        var: Var,
        user_var: Option<CheckedUserVar>,
    },
    /// A new input clause.
    AddClause {
        id: u64,
        clause: &'a [Lit],
    },
    /// An input clause that is stored already. The id is in no other step.
    DuplicatedClause {
        id: u64,
        same_as_id: u64,
        clause: &'a [Lit],
    },
    /// An input clause that says nothing. The id is in no other step.
    TautologicalClause {
        id: u64,
        clause: &'a [Lit],
    },
    /// A clause that follows by unit propagation.
    AtClause {
        id: u64,
        redundant: bool,
        clause: &'a [Lit],
        propagations: &'a [u64],
    },
    /// A redundant clause is deleted.
    DeleteClause {
        id: u64,
        clause: &'a [Lit],
    },
    /// An irredundant clause that the clause of the one propagation implies is deleted, or becomes
    /// redundant.
    DeleteAtClause {
        id: u64,
        keep_as_redundant: bool,
        clause: &'a [Lit],
        propagations: &'a [u64],
    },
    /// The unit of a deleted variable is deleted.
    DeleteRatClause {
        id: u64,
        keep_as_redundant: bool,
        clause: &'a [Lit],
        pivot: Lit,
        propagations: &'a ResolutionPropagations,
    },
    /// A redundant clause becomes irredundant.
    MakeIrredundant {
        id: u64,
        clause: &'a [Lit],
    },
    /// Literals whose extensions satisfy the formula and the assumptions.
    Model {
        assignment: &'a [Lit],
    },
    /// The assumptions from here on.
    Assumptions {
        assumptions: &'a [Lit],
    },
    /// Assumptions that fail together.
    FailedAssumptions {
        failed_core: &'a [Lit],
        propagations: &'a [u64],
    },
}

/// The mode of a variable that has a user name.
#[derive(Debug, Drop)]
pub enum CheckedSamplingMode {
    Sample,
    Witness,
}

/// The user name of a variable, as a checked step shows it.
#[derive(Debug, Drop)]
pub struct CheckedUserVar {
    pub user_var: Var,
    pub sampling_mode: CheckedSamplingMode,
    /// Whether the name was not there before.
    pub new_var: bool,
}

/// How resolvents of a deleted clause follow. It is empty so far.
#[derive(Debug, Drop)]
pub struct ResolutionPropagations {}

/// A query of the solver, or what the proof shows of one. Variables are user variables.
#[derive(Debug, Drop)]
pub enum ProofTranscriptStep<'a> {
    WitnessVar { var: Var },
    SampleVar { var: Var },
    HideVar { var: Var },
    ObserveInternalVar { var: Var },
    AddClause { clause: &'a [Lit] },
    Unsat,
    Model { assignment: &'a [Lit] },
    Assume { assumptions: &'a [Lit] },
    FailedAssumptions { failed_core: &'a [Lit] },
}
