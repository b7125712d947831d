//! The lemmas right before the one that is checked.
//!
//! An unused clause that a check needs is mostly one of them. So they are visited one by one before
//! the watches of all unused clauses are. In a proof of which little is needed that brings lemmas
//! into use that others would have spared: there they are not visited.

use crate::clauses::ClauseIndex;
use std::alloc::{AllocError, Global};

/// At most this many lemmas are looked at, and no more than 64.
const WINDOW: usize = 32;

/// A lemma that is unit or false pays for this many that are visited.
const PAY: u32 = 24;

/// The greatest credit, so that visits end soon after they stopped being worth it.
const MOST_CREDIT: u32 = 4096;

/// How many lemmas a period has.
const PERIOD: u32 = 4096;

/// Its first ones are a sample, during which none is looked at.
const SAMPLE: u32 = 512;

/// Where this many of them are used, lemmas are looked at in the rest of the period.
const MANY_USED: u32 = SAMPLE / 5 * 2;

/// Which lemmas are looked at, and how many may be.
///
/// Where few of them are found, other clauses serve the proof better: then their credit runs out.
#[derive(Drop)]
pub(crate) struct Recent {
    /// By number, 64 in a word, which clauses are there and watched, and are used by nothing that
    /// was checked.
    unused: Vec<u64>,
    /// The number of the lemma that is checked.
    end: usize,
    /// Of the 64 numbers before it, the last one as the highest bit, those that may be looked at.
    within: u64,
    credit: u32,
    /// How many lemmas of this period were gone over, and how many of the sample are used.
    passed: u32,
    used: u32,
    is_worth_it: bool,
}

impl Recent {
    /// No lemma is checked yet.
    pub(crate) fn new(alloc: Global) -> Recent {
        Recent {
            unused: Vec::new(alloc),
            end: 0,
            within: 0,
            credit: MOST_CREDIT,
            passed: SAMPLE,
            used: 0,
            is_worth_it: true,
        }
    }

    /// Notes that the clause is live, watched and unused.
    pub(crate) fn insert(&mut self, clause: ClauseIndex) -> Result<(), AllocError> {
        let word = clause.get() / 64;
        if self.unused.len() <= word {
            self.unused.resize(word.saturating_add(1), 0)?;
        }
        if let Some(found) = self.unused.get_mut(word) {
            *found |= bit(clause);
        }
        Ok(())
    }

    /// Notes that the clause is used or deleted.
    #[inline(always)]
    pub(crate) fn remove(&mut self, clause: ClauseIndex) {
        if let Some(found) = self.unused.get_mut(clause.get() / 64) {
            *found &= !bit(clause);
        }
    }

    /// Notes that the last lemma was undone, and whether it is used, which means that it is
    /// checked.
    pub(crate) fn pass(&mut self, is_used: bool) {
        if self.passed == PERIOD {
            self.passed = 0;
            self.used = 0;
            self.is_worth_it = false;
        }
        self.passed = self.passed.saturating_add(1);
        self.used = self.used.saturating_add(is_used as u32);
        if self.passed == SAMPLE {
            self.is_worth_it = self.used >= MANY_USED;
        }
    }

    /// Begins the check of the lemma of this number; clauses before `formula_len` are no lemmas.
    /// Each check gives a little credit, so that visits are tried again.
    pub(crate) fn begin(&mut self, lemma: usize, formula_len: usize) {
        let count = lemma.saturating_sub(formula_len).min(WINDOW);
        self.end = lemma;
        self.within = !u64::MAX.checked_shr(count as u32).unwrap_or(0);
        self.earn(1);
    }

    /// Returns the lemmas to be visited, each as a bit: the one right before the checked one is the
    /// highest.
    #[inline(always)]
    pub(crate) fn lemmas(&self) -> u64 {
        if self.credit == 0 || !self.is_worth_it {
            return 0;
        }
        let (word, shift) = (self.end / 64, (self.end % 64) as u32);
        let below = match word.checked_sub(1) {
            Some(before) => self.unused.get(before).copied().unwrap_or(0),
            None => 0,
        };
        let above = self.unused.get(word).copied().unwrap_or(0);
        let joined = if shift == 0 {
            below
        } else {
            below.wrapping_shr(shift) | above.wrapping_shl(64u32.wrapping_sub(shift))
        };
        joined & self.within
    }

    /// Returns the number of the lemma that is this many positions before the one right before the
    /// checked one.
    #[inline(always)]
    pub(crate) fn number(&self, places: u32) -> usize {
        self.end.saturating_sub(1).saturating_sub(places as usize)
    }

    /// Notes that a lemma was visited.
    pub(crate) fn spend(&mut self) {
        self.credit = self.credit.saturating_sub(1);
    }

    /// Notes that the lemma is unit or false.
    pub(crate) fn reward(&mut self) {
        self.earn(PAY);
    }

    /// Adds credit, up to the greatest.
    fn earn(&mut self, credit: u32) {
        self.credit = self.credit.saturating_add(credit).min(MOST_CREDIT);
    }
}

/// Returns the bit of a clause within its word.
#[inline(always)]
fn bit(clause: ClauseIndex) -> u64 {
    1u64.wrapping_shl((clause.get() % 64) as u32)
}
