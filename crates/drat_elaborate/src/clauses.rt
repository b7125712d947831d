//! The clauses: their literals and their states.
use crate::arena::{Arena, Block};
use crate::fault::ElaborateFault;
use crate::local::LocalLit;
use crate::written::Written;
use std::alloc::Global;

/// The number of a clause. Those of the formula come first.
#[derive(Clone, Copy, Debug, PartialEq, Eq)]
pub(crate) struct ClauseIndex(u32);

impl ClauseIndex {
    /// There are at most this many clauses.
    const MAX_COUNT: usize = 0x4000_0000;

    /// Returns the number of the clause with this index.
    ///
    /// # Errors
    ///
    /// `TooLong` from `MAX_COUNT` on.
    pub(crate) fn new(index: usize) -> Result<ClauseIndex, ElaborateFault> {
        if index < ClauseIndex::MAX_COUNT {
            Ok(ClauseIndex(index as u32))
        } else {
            Err(ElaborateFault::TooLong)
        }
    }

    /// Returns the index.
    pub(crate) fn get(self) -> usize {
        self.0 as usize
    }

    /// Returns the index as a number of 32 bits.
    pub(crate) fn number(self) -> u32 {
        self.0
    }

    /// Returns the clause of a number that `number` returned.
    pub(crate) fn from_number(number: u32) -> ClauseIndex {
        ClauseIndex(number)
    }
}

/// A clause or none, in four bytes.
#[derive(Clone, Copy)]
pub(crate) struct ClauseLink(u32);

impl ClauseLink {
    /// No clause has this number.
    const NONE: u32 = u32::MAX;

    /// Returns the link to no clause.
    pub(crate) fn none() -> ClauseLink {
        ClauseLink(ClauseLink::NONE)
    }

    /// Returns the link to a clause.
    pub(crate) fn to(clause: ClauseIndex) -> ClauseLink {
        ClauseLink(clause.0)
    }

    /// Returns the number of the clause; that of no clause is the highest one.
    pub(crate) fn number(self) -> u32 {
        self.0
    }

    /// Returns the link of a number that `number` returned.
    pub(crate) fn from_number(number: u32) -> ClauseLink {
        ClauseLink(number)
    }

    /// Returns the clause, if there is one.
    #[inline(always)]
    pub(crate) fn get(self) -> Option<ClauseIndex> {
        if self.0 == ClauseLink::NONE {
            None
        } else {
            Some(ClauseIndex(self.0))
        }
    }
}

/// How much a clause is used by the conflict and by what was checked so far.
#[derive(Clone, Copy, PartialEq, Eq)]
pub(crate) enum Use {
    Never,
    /// It was not used, and is among the clauses that are visited last.
    Dying,
    /// It was not used, but it is a target clause of the piece.
    Wanted,
    /// It was not used in the last round of checks.
    Before,
    /// It was used in the last round, and not yet in this one.
    Lately,
    /// It was used in this round.
    Now,
}

impl Use {
    /// Returns whether it is no target clause, and used by nothing.
    #[inline(always)]
    pub(crate) fn is_none(self) -> bool {
        self == Use::Never || self == Use::Dying
    }

    /// Returns whether clauses of the two uses are watched in the same lists.
    pub(crate) fn shares_lists(self, other: Use) -> bool {
        match self {
            Use::Never | Use::Wanted => other == Use::Never || other == Use::Wanted,
            Use::Dying => other == Use::Dying,
            Use::Before => other == Use::Before,
            Use::Lately | Use::Now => other == Use::Lately || other == Use::Now,
        }
    }
}

/// The state of a clause.
#[derive(Clone, Copy)]
pub(crate) struct Clause {
    /// Its block while it is live; else none.
    pub(crate) block: Block,
    /// The position of its literals as they were written.
    written: u32,
    /// The next clause of the same bucket.
    pub(crate) next: ClauseLink,
    pub(crate) used: Use,
    /// It is live at the present step.
    pub(crate) is_active: bool,
    /// Its first two literals are watched while it is live.
    pub(crate) is_watched: bool,
    pub(crate) is_tautology: bool,
}

impl Clause {
    /// Returns whether it is a target clause, or used by the conflict or by a clause of the core.
    pub(crate) fn is_core(&self) -> bool {
        !self.used.is_none()
    }

    /// Returns whether it is live and used, so that RAT and PR checks have to visit it.
    pub(crate) fn is_candidate(&self) -> bool {
        self.is_active && self.is_core() && !self.is_tautology
    }
}

/// All clauses.
#[derive(Drop)]
pub(crate) struct Clauses {
    alloc: Global,
    /// The live clauses.
    pub(crate) arena: Arena,
    written: Written,
    table: Vec<Clause>,
    /// The literals of a clause that is restored.
    restored: Vec<LocalLit>,
}

impl Clauses {
    pub(crate) fn new(alloc: Global) -> Clauses {
        Clauses {
            alloc,
            arena: Arena::new(alloc),
            written: Written::new(alloc),
            table: Vec::new(alloc),
            restored: Vec::new(alloc),
        }
    }

    /// Frees the memory of the blocks.
    pub(crate) fn end(&mut self) {
        self.arena = Arena::new(self.alloc);
    }

    /// Returns how many clauses were stored.
    pub(crate) fn len(&self) -> usize {
        self.table.len()
    }

    /// Stores a clause, which is live from now on. Returns its number.
    pub(crate) fn push(
        &mut self,
        lits: &[LocalLit],
        is_tautology: bool,
    ) -> Result<ClauseIndex, ElaborateFault> {
        let index = ClauseIndex::new(self.table.len())?;
        let written = self.written.push(lits)?;
        let block = self.arena.push(index, lits)?;
        self.table.push(Clause {
            block,
            written,
            next: ClauseLink::none(),
            used: Use::Never,
            is_active: true,
            is_watched: false,
            is_tautology,
        })?;
        Ok(index)
    }

    /// Returns the state of a clause.
    ///
    /// # Errors
    ///
    /// `Internal` if there is no such clause.
    #[inline(always)]
    pub(crate) fn get(&self, clause: ClauseIndex) -> Result<&Clause, ElaborateFault> {
        self.table.get(clause.get()).ok_or(ElaborateFault::Internal)
    }

    /// Returns the state of a clause, to be changed. Fails as `get` does.
    #[inline(always)]
    pub(crate) fn get_mut(&mut self, clause: ClauseIndex) -> Result<&mut Clause, ElaborateFault> {
        self.table
            .get_mut(clause.get())
            .ok_or(ElaborateFault::Internal)
    }

    /// Returns the literals of a live clause, in the order in which they are watched.
    pub(crate) fn lits(&self, clause: ClauseIndex) -> Result<&[LocalLit], ElaborateFault> {
        self.arena.lits(self.get(clause)?.block)
    }

    /// Reads the literals of a clause into a list, in the order in which they were written: the
    /// first one is the pivot, by which the clause may be redundant.
    pub(crate) fn read(
        &self,
        clause: ClauseIndex,
        lits: &mut Vec<LocalLit>,
    ) -> Result<(), ElaborateFault> {
        self.written.read(self.get(clause)?.written, lits)?;
        Ok(())
    }

    /// Frees the block of a deleted clause.
    pub(crate) fn free(&mut self, clause: ClauseIndex) -> Result<(), ElaborateFault> {
        let block = self.get(clause)?.block;
        self.arena.free(block)?;
        self.get_mut(clause)?.block = Block::none();
        Ok(())
    }

    /// Stores a deleted clause in a block again. Returns its state.
    pub(crate) fn restore(&mut self, clause: ClauseIndex) -> Result<Clause, ElaborateFault> {
        let written = self.get(clause)?.written;
        self.written.read(written, &mut self.restored)?;
        let block = self.arena.push(clause, &self.restored)?;
        let found = self.get_mut(clause)?;
        found.block = block;
        found.is_active = true;
        Ok(*found)
    }
}

/// Returns the number in 32 bits.
///
/// # Errors
///
/// `TooLong` from 2^32 on.
pub(crate) fn narrow(number: usize) -> Result<u32, ElaborateFault> {
    u32::try_from(number).map_err(|_| ElaborateFault::TooLong)
}
