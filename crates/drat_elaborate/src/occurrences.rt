//! The used clauses that each literal occurs in.
use crate::clauses::{ClauseIndex, Clauses};
use crate::fault::ElaborateFault;
use crate::local::LocalLit;
use std::alloc::Global;

/// For each literal the used clauses that it occurs in: all live ones, and perhaps some that are
/// deleted. In the backward pass a used clause that is removed is never restored.
#[derive(Drop)]
pub(crate) struct Occurrences {
    alloc: Global,
    /// By code.
    lists: Vec<Vec<ClauseIndex>>,
    /// The literals of the clause that is being entered.
    lits: Vec<LocalLit>,
}

impl Occurrences {
    /// Returns the occurrences in the clauses before `end`.
    pub(crate) fn collect(
        alloc: Global,
        clauses: &Clauses,
        end: ClauseIndex,
    ) -> Result<Occurrences, ElaborateFault> {
        let mut found = Occurrences {
            alloc,
            lists: Vec::new(alloc),
            lits: Vec::new(alloc),
        };
        for index in 0..end.get() {
            found.enter(clauses, ClauseIndex::new(index)?)?;
        }
        Ok(found)
    }

    /// Enters clauses that were used for the first time.
    pub(crate) fn enter_all(
        &mut self,
        clauses: &Clauses,
        fresh: &[ClauseIndex],
    ) -> Result<(), ElaborateFault> {
        for clause in fresh {
            self.enter(clauses, *clause)?;
        }
        Ok(())
    }

    /// Enters a clause, if it is live and used.
    fn enter(&mut self, clauses: &Clauses, clause: ClauseIndex) -> Result<(), ElaborateFault> {
        if !clauses.get(clause)?.is_candidate() {
            return Ok(());
        }
        clauses.read(clause, &mut self.lits)?;
        for lit in &self.lits {
            for _ in self.lists.len()..lit.place().saturating_add(1) {
                self.lists.push(Vec::new(self.alloc))?;
            }
            if let Some(list) = self.lists.get_mut(lit.place()) {
                list.push(clause)?;
            }
        }
        Ok(())
    }

    /// Returns the live used clauses in which a literal occurs.
    pub(crate) fn of(
        &mut self,
        clauses: &Clauses,
        lit: LocalLit,
    ) -> Result<&[ClauseIndex], ElaborateFault> {
        let Some(list) = self.lists.get_mut(lit.place()) else {
            return Ok(&[]);
        };
        let mut kept = 0usize;
        for place in 0..list.len() {
            let Some(clause) = list.get(place).copied() else {
                break;
            };
            if clauses.get(clause)?.is_candidate() {
                if let Some(slot) = list.get_mut(kept) {
                    *slot = clause;
                }
                kept = kept.saturating_add(1);
            }
        }
        list.truncate(kept);
        Ok(list.as_slice())
    }
}
