//! Clauses by the ids that a proof gives them.
use crate::clauses::{ClauseIndex, ClauseLink};
use crate::fault::ElaborateFault;
use std::alloc::Global;
use std::collections::HashMap;

/// `near` has this many slots in addition to `PLACES_EACH` for each clause that got an id.
const SPARE_PLACES: u64 = 1 << 12;

const PLACES_EACH: u64 = 4;

/// The clauses that have ids.
#[derive(Drop)]
pub(crate) struct Names {
    /// By id.
    near: Vec<ClauseLink>,
    /// Those whose ids were too large for `near`.
    far: HashMap<u64, ClauseIndex>,
    /// How many ids were given so far.
    given: u64,
}

impl Names {
    pub(crate) fn new(alloc: Global) -> Names {
        Names {
            near: Vec::new(alloc),
            far: HashMap::new(alloc),
            given: 0,
        }
    }

    /// Returns the clause of an id, if there is one.
    pub(crate) fn get(&self, id: u64) -> Option<ClauseIndex> {
        let near = match self.near.get(id as usize) {
            Some(link) => link.get(),
            None => None,
        };
        match near {
            Some(clause) => Some(clause),
            None => self.far.get(&id).copied(),
        }
    }

    /// Gives a clause an id. If another one had it, that one has none any more.
    pub(crate) fn put(&mut self, id: u64, clause: ClauseIndex) -> Result<(), ElaborateFault> {
        let room = self
            .given
            .saturating_mul(PLACES_EACH)
            .saturating_add(SPARE_PLACES);
        self.given = self.given.saturating_add(1);
        if id >= room {
            self.far.insert(id, clause)?;
            return Ok(());
        }
        self.far.remove(&id);
        let place = id as usize;
        if self.near.len() <= place {
            self.near.resize(place + 1, ClauseLink::none())?;
        }
        self.near[place] = ClauseLink::to(clause);
        Ok(())
    }

    /// Takes an id back. Returns the clause that had it, if there was one.
    pub(crate) fn take(&mut self, id: u64) -> Option<ClauseIndex> {
        if let Some(link) = self.near.get_mut(id as usize) {
            if let Some(clause) = link.get() {
                *link = ClauseLink::none();
                return Some(clause);
            }
        }
        self.far.remove(&id)
    }
}
