//! Which variables a clause has.
use std::alloc::{AllocError, Global};
use std::mem;

/// The variables of the clause that is read. Each has a place, which several can share: so a new
/// variable can count as one that was seen, and never the other way round.
#[derive(Drop)]
pub(crate) struct SeenVars {
    /// The number of the last clause that has a variable with this place.
    rounds: Vec<u32>,
    round: u32,
}

impl SeenVars {
    /// How many places there are: few, so that they stay in a cache.
    const PLACES: usize = 1 << 16;

    pub(crate) fn new(alloc: Global) -> SeenVars {
        SeenVars {
            rounds: Vec::new(alloc),
            round: u32::MAX,
        }
    }

    /// Begins a clause. Returns the places, and its number.
    #[inline(always)]
    pub(crate) fn begin(&mut self) -> Result<(&mut [u32], u32), AllocError> {
        if self.round == u32::MAX {
            self.rounds.clear();
            self.rounds.resize(SeenVars::PLACES, 0)?;
            self.round = 0;
        }
        self.round = self.round.wrapping_add(1);
        Ok((self.rounds.as_mut_slice(), self.round))
    }
}

/// Notes a variable by its number. Returns whether it has a place in which none was seen in this
/// clause.
#[inline(always)]
pub(crate) fn is_new(rounds: &mut [u32], round: u32, number: usize) -> bool {
    match rounds.get_mut(number % SeenVars::PLACES) {
        Some(last) => mem::replace(last, round) != round,
        None => false,
    }
}
