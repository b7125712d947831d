//! The ids whose candidates passed.
ghost use Rattle.std.specs.Prelude.{◌≡◌, ◌+◌, ◌*◌, ◌<◌, ◌≤◌, ℕ, length, max, nat_eq, slice_index, OnOk};
ghost use Rattle.std.specs.HashSet.{contains};
ghost use Rattle.clause_table.specs.Room.{spare_places};
ghost use Rattle.lrat_rules.specs.Tables.{add_id, no_id};

use crate::counts::make_room;
use clause_table::gets_place;
use std::alloc::{AllocError, Global};
use std::collections::HashSet;

/// The ids whose candidates passed in one line. Dense ones have slots with the number of the last
/// line in which they passed, so nothing is cleared for the next line. Sparse ones are in a set.
#[derive(Drop)]
pub(crate) struct MetIds {
    alloc: Global,
    /// By ids: 0, or the last line in which the candidate passed.
    lines: Vec<u32>,
    far: HashSet<u64>,
    /// The number of the line among those with candidates, from 1 on.
    line: u32,
    ghost begun: { 0 < line },
    ghost past: { (id : ℕ) → slice_index lines.items id ≤ line },
}

impl MetIds {
    ghost use Rattle.lrat_checker.specs.Met.{is_met};

    /// Returns a set without ids.
    pub(crate) fn new(alloc: Global) -> MetIds
        ensures { is_met result ≡ no_id }
    {
        MetIds {
            alloc,
            lines: Vec::new(alloc),
            far: HashSet::new(alloc),
            line: 1,
        }
    }

    /// Forgets all candidates: another line begins. A set that was large once would cost its size
    /// at each line, and so grows anew.
    pub(crate) fn forget(&mut self)
        ensures { is_met self.new ≡ no_id }
    {
        self.far = HashSet::new(self.alloc);
        match self.line.checked_add(1) {
            Some(line) => self.line = line,
            None => {
                self.lines.clear();
                self.line = 1;
            }
        }
    }

    /// Returns whether the candidate of an id passed.
    pub(crate) fn has(&self, id: u64) -> bool
        ensures { result ≡ is_met self.now id }
    {
        let line = self.lines.get(id as usize).copied().unwrap_or(0);
        line == self.line || self.has_far(id)
    }

    fn has_far(&self, id: u64) -> bool
        ensures { result ≡ contains nat_eq self.now.far id }
    {
        !self.far.is_empty() && self.far.contains(&id)
    }

    /// Records that the candidate of an id passed. There are slots for ids as for clauses, of which
    /// `stored` were stored.
    pub(crate) fn insert(&mut self, id: u64, stored: u64) -> Result<(), AllocError>
        ensures met { OnOk result (is_met self.new ≡ add_id id (is_met self.old)) }
        ensures places { length self.new.lines.items
            ≤ max (length self.old.lines.items) (4 * (stored + spare_places) + 4) }
    {
        if !gets_place(id, stored) {
            return self.insert_far(id);
        }
        let place = id as usize;
        make_room(&mut self.lines, place)?;
        self.lines[place] = self.line;
        Ok(())
    }

    fn insert_far(&mut self, id: u64) -> Result<(), AllocError>
        ensures met { OnOk result (is_met self.new ≡ add_id id (is_met self.old)) }
        ensures lines { self.new.lines ≡ self.old.lines }
    {
        match self.far.insert(id) {
            Ok(_) => Ok(()),
            Err(_) => Err(AllocError),
        }
    }
}
