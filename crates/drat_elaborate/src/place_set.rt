//! Sets of positions on the trail.
use std::alloc::{AllocError, Global};

/// A set of positions: a bit each, 64 in a word, and for each 64 words the marks of those that may
/// be nonzero. So the positions on a long trail are found without visiting each word.
#[derive(Drop)]
pub(crate) struct PlaceSet {
    words: Vec<u64>,
    marks: Vec<u64>,
}

impl PlaceSet {
    pub(crate) fn new(alloc: Global) -> PlaceSet {
        PlaceSet {
            words: Vec::new(alloc),
            marks: Vec::new(alloc),
        }
    }

    /// Allocates slots for the positions below `len`. Others are not stored.
    pub(crate) fn make_room(&mut self, len: usize) -> Result<(), AllocError> {
        let words = len.div_ceil(64);
        if self.words.len() < words {
            self.words.resize(words, 0)?;
            self.marks.resize(words.div_ceil(64), 0)?;
        }
        Ok(())
    }

    /// Inserts a position below the length of `make_room`; another one is ignored.
    #[inline(always)]
    pub(crate) fn insert(&mut self, place: usize) {
        let Some(word) = self.words.get_mut(place / 64) else {
            return;
        };
        let held = *word;
        *word = held | bit(place);
        if held == 0 {
            self.mark(place / 64);
        }
    }

    /// Marks a word that may be nonzero.
    fn mark(&mut self, word: usize) {
        if let Some(marks) = self.marks.get_mut(word / 64) {
            *marks |= bit(word);
        }
    }

    /// Returns the number of words.
    pub(crate) fn word_count(&self) -> usize {
        self.words.len()
    }

    /// Returns the last word below `end` that may be nonzero, if there is one.
    pub(crate) fn word_before(&self, end: usize) -> Option<usize> {
        let last = end.checked_sub(1)?;
        let below = u64::MAX.wrapping_shr(63u32.wrapping_sub((last % 64) as u32));
        let group = last / 64;
        let marks = self.marks.get(group).copied().unwrap_or(0) & below;
        if marks != 0 {
            return Some(highest(group, marks));
        }
        for group in (0..group).rev() {
            let marks = self.marks.get(group).copied().unwrap_or(0);
            if marks != 0 {
                return Some(highest(group, marks));
            }
        }
        None
    }

    /// Returns the positions of a word, as bits.
    #[inline(always)]
    pub(crate) fn word(&self, word: usize) -> u64 {
        self.words.get(word).copied().unwrap_or(0)
    }

    /// Removes positions of a word.
    pub(crate) fn remove(&mut self, word: usize, places: u64) {
        let Some(found) = self.words.get_mut(word) else {
            return;
        };
        *found &= !places;
        if *found == 0 {
            if let Some(marks) = self.marks.get_mut(word / 64) {
                *marks &= !bit(word);
            }
        }
    }
}

/// Returns the bit of a position within its word.
#[inline(always)]
fn bit(place: usize) -> u64 {
    1u64.wrapping_shl((place % 64) as u32)
}

/// Returns the number of the highest marked word of a group of 64, of which one is marked.
fn highest(group: usize, marks: u64) -> usize {
    let within = 63u32.saturating_sub(marks.leading_zeros());
    group.wrapping_mul(64).wrapping_add(within as usize)
}
