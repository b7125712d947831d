//! What is recorded in addition to the clauses.
use sat_formula::Lit;
use std::alloc::Global;

/// What was recorded: the number of steps; whether unsatisfiability is recorded, the proof has
/// ended, and the checker has failed; how many input clauses took an id; the assumptions, in
/// canonical form; the id and the literals of the previous clause, if there is one.
#[derive(Drop)]
pub struct CheckerState {
    pub step: u64,
    pub unsat: bool,
    pub ended: bool,
    pub failed: bool,
    pub input_clauses: u64,
    pub assumptions: Vec<Lit>,
    pub previous_id: Option<u64>,
    pub previous_lits: Vec<Lit>,
}

impl CheckerState {
    ghost use Rattle.clause_store.specs.NewParts.{IsNewState};

    /// Returns a state in which nothing is recorded. Allocates no memory.
    pub fn new(alloc: Global) -> CheckerState
        ensures { IsNewState result }
    {
        CheckerState {
            step: 0,
            unsat: false,
            ended: false,
            failed: false,
            input_clauses: 0,
            assumptions: Vec::new(alloc),
            previous_id: None,
            previous_lits: Vec::new(alloc),
        }
    }
}
