//! The line that is read.
ghost use Rattle.std.specs.Prelude.{◌≡◌};
ghost use Rattle.lrat_binary.specs.Drafts.{slot_of, line_of, BeginsLine, TakesNumber};
ghost use Rattle.lrat_binary.specs.Places.{begun, said};
ghost use Rattle.lrat_binary.specs.declared.draft.Due.TheVariants as dues;
ghost use Rattle.lrat_binary.specs.declared.ids.Ids.{Ids};
ghost use Rattle.lrat_text.specs.NextLine.{view};

use crate::ids::Ids;
use crate::number::{hint_said, id_said, lit_said};
use drat_text::DratKind;
use lrat_text::LratLine;
use lrat_text::row::{Head, Row};
use sat_formula::stop::Stop;
use std::alloc::Global;

/// The kind of the next number of a line.
#[derive(Clone, Copy)]
pub(crate) enum Due {
    /// The id of its clause.
    Id,
    /// A literal of the clause of this id, or the 0 after the last.
    Lit(u64),
    /// A hint of this clause, or the 0 after the last.
    Hint(u64),
    /// An id that is deleted, or the 0 after the last.
    Deleted,
}

/// A partly read line.
#[derive(Drop)]
pub(crate) struct Draft {
    due: Due,
    row: Row,
}

impl Draft {
    /// Returns an empty draft. Allocates no memory.
    pub(crate) fn new(alloc: Global) -> Draft {
        Draft {
            due: Due::Id,
            row: Row::new(alloc),
        }
    }

    /// Begins a line by its letter, in place of the line before.
    pub(crate) fn begin(&mut self, letter: u8) -> Result<(), Stop<DratKind>>
        ensures { BeginsLine self.new (begun letter) result }
    {
        match letter {
            b'a' => self.due = Due::Id,
            b'd' => {
                self.due = Due::Deleted;
                self.row.ids.clear();
            }
            _ => return Err(Stop::Wrong(DratKind::Malformed)),
        }
        Ok(())
    }

    /// Adds the next number. Returns the line's head if the number ends it.
    #[inline(always)]
    pub(crate) fn take(&mut self, ids: Ids, number: u64) -> Result<Option<Head>, Stop<DratKind>>
        ensures { TakesNumber self.new (said ids (slot_of self.old) number) result }
    {
        match self.due {
            Due::Hint(id) => self.take_hint(id, number),
            Due::Lit(id) => self.take_lit(id, ids, number),
            Due::Deleted => self.take_deleted(ids, number),
            Due::Id => self.take_id(ids, number),
        }
    }

    /// Adds the id of a clause.
    fn take_id(&mut self, ids: Ids, number: u64) -> Result<Option<Head>, Stop<DratKind>>
        requires { self.old.due ≡ dues.Id }
        ensures { TakesNumber self.new (said ids (slot_of self.old) number) result }
    {
        match id_said(ids, number) {
            Ok(Some(id)) => {
                self.due = Due::Lit(id);
                self.row.lits.clear();
                Ok(None)
            }
            Ok(None) => Err(Stop::Wrong(DratKind::Malformed)),
            Err(kind) => Err(Stop::Wrong(kind)),
        }
    }

    /// Adds a literal of a clause, or the 0 after the last.
    #[inline(always)]
    fn take_lit(&mut self, id: u64, ids: Ids, number: u64) -> Result<Option<Head>, Stop<DratKind>>
        requires { self.old.due ≡ dues.Lit id }
        ensures { TakesNumber self.new (said ids (slot_of self.old) number) result }
    {
        match lit_said(number) {
            Ok(Some(lit)) => {
                self.row.lits.push(lit)?;
                Ok(None)
            }
            Ok(None) => {
                self.due = Due::Hint(id);
                self.row.hints.clear();
                Ok(None)
            }
            Err(kind) => Err(Stop::Wrong(kind)),
        }
    }

    /// Adds a hint, or the 0 after the last.
    #[inline(always)]
    fn take_hint(&mut self, id: u64, number: u64) -> Result<Option<Head>, Stop<DratKind>>
        requires { self.old.due ≡ dues.Hint id }
        ensures { (ids : Ids) → TakesNumber self.new (said ids (slot_of self.old) number) result }
    {
        match hint_said(number) {
            Ok(Some(hint)) => {
                self.row.hints.push(hint)?;
                Ok(None)
            }
            Ok(None) => Ok(Some(Head::Add { id })),
            Err(kind) => Err(Stop::Wrong(kind)),
        }
    }

    /// Adds an id that is deleted, or the 0 after the last.
    fn take_deleted(&mut self, ids: Ids, number: u64) -> Result<Option<Head>, Stop<DratKind>>
        requires { self.old.due ≡ dues.Deleted }
        ensures { TakesNumber self.new (said ids (slot_of self.old) number) result }
    {
        match id_said(ids, number) {
            Ok(Some(id)) => {
                self.row.ids.push(id)?;
                Ok(None)
            }
            Ok(None) => Ok(Some(Head::Delete)),
            Err(kind) => Err(Stop::Wrong(kind)),
        }
    }

    /// Returns the line with this head, which was read whole.
    pub(crate) fn line(&self, head: Head) -> LratLine<'_>
        ensures { view result ≡ line_of self.now head }
    {
        self.row.shown(head)
    }
}
