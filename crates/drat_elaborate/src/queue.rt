//! Queued lines, in order.
use crate::fault::ElaborateFault;
use lrat_text::{Hint, LratLine};
use sat_formula::Lit;
use std::alloc::Global;

/// Where a list of a line begins and ends.
#[derive(Clone, Copy)]
struct Span {
    start: usize,
    end: usize,
}

/// A line without its lists.
#[derive(Clone, Copy)]
enum WaitingLine {
    Add { id: u64, clause: Span, hints: Span },
    Delete { ids: Span },
}

/// The queued lines, and the one that was begun.
#[derive(Drop)]
pub(crate) struct LineQueue {
    lines: Vec<WaitingLine>,
    /// How many were returned.
    told: usize,
    lits: Vec<Lit>,
    hints: Vec<Hint>,
    ids: Vec<u64>,
    /// Where the lists of the line that was begun begin.
    lits_start: usize,
    hints_start: usize,
    ids_start: usize,
}

impl LineQueue {
    pub(crate) fn new(alloc: Global) -> LineQueue {
        LineQueue {
            lines: Vec::new(alloc),
            told: 0,
            lits: Vec::new(alloc),
            hints: Vec::new(alloc),
            ids: Vec::new(alloc),
            lits_start: 0,
            hints_start: 0,
            ids_start: 0,
        }
    }

    /// Empties the queue.
    pub(crate) fn clear(&mut self) {
        self.lines.clear();
        self.told = 0;
        self.lits.clear();
        self.hints.clear();
        self.ids.clear();
        self.lits_start = 0;
        self.hints_start = 0;
        self.ids_start = 0;
    }

    /// Adds a literal to the clause of the next addition.
    pub(crate) fn push_lit(&mut self, lit: Lit) -> Result<(), ElaborateFault> {
        self.lits.push(lit)?;
        Ok(())
    }

    /// Adds a hint of the next addition.
    pub(crate) fn push_hint(&mut self, hint: Hint) -> Result<(), ElaborateFault> {
        self.hints.push(hint)?;
        Ok(())
    }

    /// Queues the addition that was begun, under an id.
    pub(crate) fn end_addition(&mut self, id: u64) -> Result<(), ElaborateFault> {
        let clause = Span {
            start: self.lits_start,
            end: self.lits.len(),
        };
        let hints = Span {
            start: self.hints_start,
            end: self.hints.len(),
        };
        self.lits_start = clause.end;
        self.hints_start = hints.end;
        self.lines.push(WaitingLine::Add { id, clause, hints })?;
        Ok(())
    }

    /// Adds an id to the next deletion.
    pub(crate) fn push_id(&mut self, id: u64) -> Result<(), ElaborateFault> {
        self.ids.push(id)?;
        Ok(())
    }

    /// Queues the deletion that was begun, if it has an id.
    pub(crate) fn end_deletion(&mut self) -> Result<(), ElaborateFault> {
        let ids = Span {
            start: self.ids_start,
            end: self.ids.len(),
        };
        if ids.start < ids.end {
            self.ids_start = ids.end;
            self.lines.push(WaitingLine::Delete { ids })?;
        }
        Ok(())
    }

    /// Moves to the next line. Returns whether there is one.
    pub(crate) fn advance(&mut self) -> bool {
        if self.told >= self.lines.len() {
            return false;
        }
        self.told = self.told.saturating_add(1);
        true
    }

    /// Returns the present line.
    ///
    /// # Errors
    ///
    /// `Internal` before the first `advance`.
    pub(crate) fn line(&self) -> Result<LratLine<'_>, ElaborateFault> {
        let told = self.told.checked_sub(1).ok_or(ElaborateFault::Internal)?;
        match self.lines.get(told).copied() {
            Some(WaitingLine::Add { id, clause, hints }) => {
                let clause = self.lits.get(clause.start..clause.end);
                let hints = self.hints.get(hints.start..hints.end);
                match (clause, hints) {
                    (Some(clause), Some(hints)) => Ok(LratLine::Add { id, clause, hints }),
                    _ => Err(ElaborateFault::Internal),
                }
            }
            Some(WaitingLine::Delete { ids }) => match self.ids.get(ids.start..ids.end) {
                Some(ids) => Ok(LratLine::Delete { ids }),
                None => Err(ElaborateFault::Internal),
            },
            None => Err(ElaborateFault::Internal),
        }
    }
}
