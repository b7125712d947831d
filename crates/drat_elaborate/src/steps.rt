//! The steps of the proof, and where they extended the trail.
use crate::byte_stack::ByteStack;
use crate::clauses::{ClauseIndex, ClauseLink, narrow};
use crate::fault::ElaborateFault;
use std::alloc::Global;

/// This many deletions with no addition among them are a batch.
const BATCH: u32 = 100;

/// A step of the proof.
#[derive(Clone, Copy)]
pub(crate) enum Step {
    Add(ClauseIndex),
    Delete(ClauseIndex),
    /// A step that changes nothing.
    Nothing,
}

/// The length of the trail before a step that extended it.
#[derive(Clone, Copy)]
struct Growth {
    /// Steps count from 1.
    step: u32,
    len: u32,
}

/// The steps so far, and which of them extended the trail.
///
/// Clauses are added in the order of their numbers. So a step is one number: that of an addition is
/// fixed, and that of a deletion has how many clauses were added since the deleted one.
#[derive(Drop)]
pub(crate) struct Steps {
    numbers: ByteStack,
    len: u64,
    /// How many clauses there are after the last step.
    clauses: u32,
    /// The clause that the last step added.
    last_added: ClauseLink,
    growths: Vec<Growth>,
    /// How many deletions there are after the last addition.
    deletions: u32,
    /// The numbers of the last steps of batches.
    batches: Vec<u32>,
}

impl Steps {
    const ADD: u32 = 0;

    const NOTHING: u32 = 1;

    /// Deletions have the numbers from here on.
    const DELETE: u32 = 2;

    pub(crate) fn new(alloc: Global) -> Steps {
        Steps {
            numbers: ByteStack::new(alloc),
            len: 0,
            clauses: 0,
            last_added: ClauseLink::none(),
            growths: Vec::new(alloc),
            deletions: 0,
            batches: Vec::new(alloc),
        }
    }

    /// Begins the proof, after this many clauses.
    pub(crate) fn begin(&mut self, formula_len: usize) -> Result<(), ElaborateFault> {
        self.clauses = narrow(formula_len)?;
        Ok(())
    }

    /// Returns how many steps there are.
    pub(crate) fn len(&self) -> u64 {
        self.len
    }

    /// Adds a step.
    ///
    /// # Errors
    ///
    /// `TooLong` if 32 bits can't count it.
    pub(crate) fn push(&mut self, step: Step) -> Result<(), ElaborateFault> {
        let number = match step {
            Step::Add(clause) => {
                self.end_deletions()?;
                self.clauses = clause.number().wrapping_add(1);
                self.last_added = ClauseLink::to(clause);
                Steps::ADD
            }
            Step::Delete(clause) => {
                self.last_added = ClauseLink::none();
                self.deletions = self.deletions.saturating_add(1);
                self.clauses
                    .wrapping_sub(clause.number())
                    .wrapping_add(Steps::DELETE)
            }
            Step::Nothing => {
                self.last_added = ClauseLink::none();
                Steps::NOTHING
            }
        };
        self.numbers.push(number)?;
        self.len = self.len.saturating_add(1);
        Ok(())
    }

    /// Notes whether the deletions after the last addition are a batch.
    fn end_deletions(&mut self) -> Result<(), ElaborateFault> {
        if self.deletions >= BATCH {
            self.batches.push(narrow(self.len as usize)?)?;
        }
        self.deletions = 0;
        Ok(())
    }

    /// Returns whether the steps right before the one that was taken off last, which was an
    /// addition, end with a batch.
    pub(crate) fn pop_batch(&mut self) -> bool {
        match self.batches.last().copied() {
            Some(end) if end as u64 == self.len => {
                self.batches.pop();
                true
            }
            _ => false,
        }
    }

    /// Notes that the last step extended the trail, which had this length before.
    pub(crate) fn push_growth(&mut self, len: usize) -> Result<(), ElaborateFault> {
        let growth = Growth {
            step: narrow(self.len as usize)?,
            len: narrow(len)?,
        };
        self.growths.push(growth)?;
        Ok(())
    }

    /// Returns the clause that the last step added, if it added one.
    pub(crate) fn last_added(&self) -> Option<ClauseIndex> {
        self.last_added.get()
    }

    /// Takes the last step off and returns it, if there is one.
    pub(crate) fn pop(&mut self) -> Option<Step> {
        if self.numbers.is_empty() {
            return None;
        }
        self.len = self.len.saturating_sub(1);
        let number = self.numbers.pop();
        if number == Steps::ADD {
            self.clauses = self.clauses.wrapping_sub(1);
            return Some(Step::Add(ClauseIndex::from_number(self.clauses)));
        }
        if number == Steps::NOTHING {
            return Some(Step::Nothing);
        }
        let since = number.wrapping_sub(Steps::DELETE);
        let deleted = self.clauses.wrapping_sub(since);
        Some(Step::Delete(ClauseIndex::from_number(deleted)))
    }

    /// Returns the length of the trail before the step that was taken off last, if that step
    /// extended it.
    pub(crate) fn pop_growth(&mut self) -> Option<usize> {
        let (step, len) = match self.growths.last() {
            Some(growth) => (growth.step as u64, growth.len as usize),
            None => return None,
        };
        if step != self.len.saturating_add(1) {
            return None;
        }
        self.growths.pop();
        Some(len)
    }
}
