//! Sets of literals that are emptied in one step.
use crate::fault::ElaborateFault;
use crate::local::LocalLit;
use std::alloc::Global;

/// A set of literals.
#[derive(Drop)]
pub(crate) struct LitSet {
    /// By code, the period in which the literal was inserted last.
    stamps: Vec<u32>,
    now: u32,
}

impl LitSet {
    pub(crate) fn new(alloc: Global) -> LitSet {
        LitSet {
            stamps: Vec::new(alloc),
            now: 1,
        }
    }

    /// Empties the set.
    ///
    /// # Errors
    ///
    /// `TooLong` if 32 bits can't count the calls.
    pub(crate) fn clear(&mut self) -> Result<(), ElaborateFault> {
        self.now = self.now.checked_add(1).ok_or(ElaborateFault::TooLong)?;
        Ok(())
    }

    /// Returns whether the literal is in the set.
    #[inline(always)]
    pub(crate) fn contains(&self, lit: LocalLit) -> bool {
        self.stamps.get(lit.place()).copied().unwrap_or(0) == self.now
    }

    /// Inserts a literal. Returns whether it was not in the set before.
    #[inline(always)]
    pub(crate) fn insert(&mut self, lit: LocalLit) -> Result<bool, ElaborateFault> {
        let place = lit.place();
        if self.stamps.len() <= place {
            self.stamps.resize(place.saturating_add(1), 0)?;
        }
        match self.stamps.get_mut(place) {
            Some(stamp) => {
                let is_new = *stamp != self.now;
                *stamp = self.now;
                Ok(is_new)
            }
            None => Err(ElaborateFault::Internal),
        }
    }

    /// Removes a literal.
    pub(crate) fn remove(&mut self, lit: LocalLit) {
        if let Some(stamp) = self.stamps.get_mut(lit.place()) {
            *stamp = 0;
        }
    }
}
