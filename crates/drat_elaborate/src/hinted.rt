//! The hints that a proof gives, and the check of a clause by them.
use crate::arena::Block;
use crate::check::Check;
use crate::clauses::{Clause, ClauseIndex, narrow};
use crate::fault::ElaborateFault;
use crate::propagator::Propagator;
use crate::standing::Standing;
use std::alloc::Global;

/// Where the hints of a clause begin.
#[derive(Clone, Copy)]
struct Span {
    clause: ClauseIndex,
    start: u32,
}

/// The hints of the clauses that have some, in the order of the clauses.
#[derive(Drop)]
pub(crate) struct GivenHints {
    spans: Vec<Span>,
    hints: Vec<ClauseIndex>,
}

impl GivenHints {
    pub(crate) fn new(alloc: Global) -> GivenHints {
        GivenHints {
            spans: Vec::new(alloc),
            hints: Vec::new(alloc),
        }
    }

    /// Begins the hints of a clause, which comes after all that have some.
    pub(crate) fn begin(&mut self, clause: ClauseIndex) -> Result<(), ElaborateFault> {
        let start = narrow(self.hints.len())?;
        self.spans.push(Span { clause, start })?;
        Ok(())
    }

    /// Adds a hint of the clause that was begun last.
    pub(crate) fn push(&mut self, hint: ClauseIndex) -> Result<(), ElaborateFault> {
        self.hints.push(hint)?;
        Ok(())
    }

    /// Returns the hints of a clause, if it is the last one that has some; else none.
    pub(crate) fn last_of(&self, clause: ClauseIndex) -> &[ClauseIndex] {
        match self.spans.last() {
            Some(span) if span.clause == clause => {
                self.hints.get(span.start as usize..).unwrap_or(&[])
            }
            _ => &[],
        }
    }

    /// Drops the hints of a clause, if it is the last one that has some.
    pub(crate) fn drop_last_of(&mut self, clause: ClauseIndex) {
        if let Some(span) = self.spans.last().copied() {
            if span.clause == clause {
                self.hints.truncate(span.start as usize);
                self.spans.pop();
            }
        }
    }
}

impl Check {
    /// Assumes the negated literals of a clause, and follows these hints once, in order. Returns
    /// the clause of a conflict, or the reason of a literal of the clause that is true already.
    /// Without one the trail is not propagated.
    pub(crate) fn refute_along(
        &mut self,
        propagator: &mut Propagator,
        clause: ClauseIndex,
        hints: &[ClauseIndex],
    ) -> Result<Option<Block>, ElaborateFault> {
        let satisfied = self.assume(propagator, clause)?;
        if satisfied.is_some() {
            return Ok(satisfied);
        }
        for hint in hints {
            let found = *propagator.clauses.get(*hint)?;
            match standing_of(propagator, &found)? {
                Standing::False => return Ok(Some(found.block)),
                Standing::Unit(lit) => {
                    propagator.trail.assign(lit, found.block)?;
                }
                Standing::Other => {}
            }
        }
        Ok(None)
    }
}

/// Returns the status of a clause under the assignment. A deleted clause and a tautology can't be
/// used.
fn standing_of(propagator: &Propagator, clause: &Clause) -> Result<Standing, ElaborateFault> {
    if !clause.is_active || clause.is_tautology {
        return Ok(Standing::Other);
    }
    let lits = propagator.clauses.arena.lits(clause.block)?;
    Ok(Standing::of(lits, propagator.trail.values()))
}
