//! The target clauses of a piece of a proof. They are checked as a conflict is.
use crate::clauses::{ClauseIndex, Use};
use crate::fault::ElaborateFault;
use crate::forward::Forward;
use crate::lit_set::LitSet;
use crate::local::LocalLit;
use crate::lookup::{Lookup, Reasons};
use sat_formula::Lit;
use std::alloc::Global;

/// A target clause that is a tautology, and a literal of it whose negation it has too.
#[derive(Clone, Copy)]
pub(crate) struct Tautology {
    pub(crate) clause: ClauseIndex,
    pub(crate) lit: LocalLit,
}

/// The clauses that have to be stored after the last line.
#[derive(Drop)]
pub(crate) struct Wanted {
    clauses: Vec<ClauseIndex>,
    /// Those of them that are tautologies and have no lines yet.
    tautologies: Vec<Tautology>,
    /// The steps are a piece of a proof.
    pub(crate) is_piece: bool,
    /// All live clauses are in the table.
    is_table_whole: bool,
}

impl Wanted {
    pub(crate) fn new(alloc: Global) -> Wanted {
        Wanted {
            clauses: Vec::new(alloc),
            tautologies: Vec::new(alloc),
            is_piece: false,
            is_table_whole: false,
        }
    }

    /// Makes a clause with these literals a target, to be checked unless it is a tautology. Returns
    /// whether one is live.
    pub(crate) fn want(
        &mut self,
        forward: &mut Forward,
        lits: &[Lit],
    ) -> Result<bool, ElaborateFault> {
        forward.normalize(lits)?;
        let propagator = &mut forward.propagator;
        // Of clauses with ids, live ones may not be in the table, and deleted ones may be in it.
        if !self.is_table_whole {
            forward.table.enter_all(&mut propagator.clauses)?;
            self.is_table_whole = true;
        }
        let found = forward
            .table
            .take(propagator, &forward.lits, &forward.set, Reasons::Take)?;
        let Lookup::Found(clause) = found else {
            return Ok(false);
        };
        forward.table.enter(&mut propagator.clauses, clause)?;
        match opposed(&forward.lits, &forward.set) {
            Some(lit) => self.tautologies.push(Tautology { clause, lit })?,
            None => propagator.clauses.get_mut(clause)?.used = Use::Wanted,
        }
        self.clauses.push(clause)?;
        Ok(true)
    }

    /// Takes out a tautology that has no lines yet, and returns it, if there is one.
    pub(crate) fn take_tautology(&mut self) -> Option<Tautology> {
        self.tautologies.pop()
    }

    /// Returns the target clause of an index.
    pub(crate) fn get(&self, place: usize) -> Option<ClauseIndex> {
        self.clauses.get(place).copied()
    }
}

/// Returns a literal whose negation is among them too, if there is one. The set has the same
/// literals.
fn opposed(lits: &[LocalLit], set: &LitSet) -> Option<LocalLit> {
    for lit in lits {
        if set.contains(!*lit) {
            return Some(*lit);
        }
    }
    None
}
