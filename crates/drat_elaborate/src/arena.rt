//! The literals of the live clauses in one buffer, each clause after its number and its length.
//!
//! A long clause has a mark in place of the length, and after the mark its length and the place
//! where a literal to watch was last found. The next search starts there: if the literals of a long
//! clause become false one by one, each is visited once.
use crate::clauses::{ClauseIndex, narrow};
use crate::fault::ElaborateFault;
use crate::local::LocalLit;
use crate::room::{LONG, Room};
use std::alloc::Global;

/// The position of a clause in the arena.
#[derive(Clone, Copy, PartialEq, Eq)]
pub(crate) struct Block(u32);

impl Block {
    /// All blocks begin below this place.
    const END: u32 = 1 << 31;

    /// Returns the block at a position.
    ///
    /// # Errors
    ///
    /// `TooLong` from position 2^31 on.
    fn new(start: usize) -> Result<Block, ElaborateFault> {
        if start < Block::END as usize {
            Ok(Block(start as u32))
        } else {
            Err(ElaborateFault::TooLong)
        }
    }

    /// Returns no block: none begins at its position.
    pub(crate) fn none() -> Block {
        Block(Block::END)
    }

    /// Returns the block, or `None` if it is no block.
    #[inline(always)]
    pub(crate) fn known(self) -> Option<Block> {
        if self.0 == Block::END {
            None
        } else {
            Some(self)
        }
    }

    /// Returns the position as a number of 32 bits.
    pub(crate) fn code(self) -> u32 {
        self.0
    }

    /// Returns the block of a number that `code` returned.
    pub(crate) fn from_code(code: u32) -> Block {
        Block(code)
    }
}

/// The blocks. Propagation reads nothing else. The block of a deleted clause is reused.
#[derive(Drop)]
pub(crate) struct Arena {
    /// Of each clause its number and its length, each as the code of a literal, then its literals;
    /// of a long one its number, `IS_LONG`, its length, a place and its literals.
    words: Vec<LocalLit>,
    /// For each size class the last block of it that became free. In place of a number it has the
    /// one that became free before it.
    free: Vec<Block>,
}

impl Arena {
    /// No clause has a number with this bit.
    const MARK: u32 = 1 << 31;

    /// The mark in place of the length of a long clause. There are at most this many words, so no
    /// clause has this length.
    const IS_LONG: u32 = u32::MAX;

    pub(crate) fn new(alloc: Global) -> Arena {
        Arena {
            words: Vec::new(alloc),
            free: Vec::new(alloc),
        }
    }

    /// Stores a clause under its number, in a free block of its size class if there is one. Returns
    /// its block.
    pub(crate) fn push(
        &mut self,
        clause: ClauseIndex,
        lits: &[LocalLit],
    ) -> Result<Block, ElaborateFault> {
        let room = Room::of(lits.len());
        let len = narrow(lits.len())?;
        match self.take_free(room) {
            Some(block) => {
                self.fill(block, clause, len, lits)?;
                Ok(block)
            }
            None => self.append(room, clause, len, lits),
        }
    }

    /// Stores a clause after all others. Returns its block.
    fn append(
        &mut self,
        room: Room,
        clause: ClauseIndex,
        len: u32,
        lits: &[LocalLit],
    ) -> Result<Block, ElaborateFault> {
        let block = Block::new(self.words.len())?;
        let end = self.words.len().saturating_add(room.words());
        narrow(end)?;
        self.words.push(LocalLit::from_code(clause.number()))?;
        if lits.len() >= LONG {
            self.words.push(LocalLit::from_code(Arena::IS_LONG))?;
            self.words.push(LocalLit::from_code(len))?;
            self.words.push(LocalLit::from_code(0))?;
        } else {
            self.words.push(LocalLit::from_code(len))?;
        }
        self.words.extend_from_slice(lits)?;
        if self.words.len() < end {
            self.words.resize(end, LocalLit::from_code(0))?;
        }
        Ok(block)
    }

    /// Stores a clause in a block of its size class.
    fn fill(
        &mut self,
        block: Block,
        clause: ClauseIndex,
        len: u32,
        lits: &[LocalLit],
    ) -> Result<(), ElaborateFault> {
        let start = block.0 as usize;
        if start >= self.words.len() {
            return Err(ElaborateFault::Internal);
        }
        let [number, count, rest @ ..] = &mut self.words[start..] else {
            return Err(ElaborateFault::Internal);
        };
        *number = LocalLit::from_code(clause.number());
        if lits.len() < LONG {
            *count = LocalLit::from_code(len);
            copy(lits, rest);
            return Ok(());
        }
        *count = LocalLit::from_code(Arena::IS_LONG);
        let [count, place, rest @ ..] = rest else {
            return Err(ElaborateFault::Internal);
        };
        *count = LocalLit::from_code(len);
        *place = LocalLit::from_code(0);
        copy(lits, rest);
        Ok(())
    }

    /// Returns a free block of a size class and takes it off the list, if there is one.
    fn take_free(&mut self, room: Room) -> Option<Block> {
        let head = self.free.get_mut(room.class())?;
        let block = *head;
        let next = self.words.get(block.0 as usize)?;
        *head = Block(next.code());
        Some(block)
    }

    /// Puts the block of a clause on the free list of its size class.
    pub(crate) fn free(&mut self, block: Block) -> Result<(), ElaborateFault> {
        let class = Room::of(self.lits(block)?.len()).class();
        if self.free.len() <= class {
            self.free.resize(class.saturating_add(1), Block::none())?;
        }
        let head = self.free.get_mut(class);
        let word = self.words.get_mut(block.0 as usize);
        match (head, word) {
            (Some(head), Some(word)) => {
                *word = LocalLit::from_code(head.0);
                *head = block;
                Ok(())
            }
            _ => Err(ElaborateFault::Internal),
        }
    }

    /// Marks a block, or removes the mark. While it is marked, no clause has its number.
    pub(crate) fn turn_mark(&mut self, block: Block) -> Result<(), ElaborateFault> {
        match self.words.get_mut(block.0 as usize) {
            Some(word) => {
                *word = LocalLit::from_code(word.code() ^ Arena::MARK);
                Ok(())
            }
            None => Err(ElaborateFault::Internal),
        }
    }

    /// Returns the number of a clause.
    pub(crate) fn clause(&self, block: Block) -> Result<ClauseIndex, ElaborateFault> {
        match self.words.get(block.0 as usize) {
            Some(word) => Ok(ClauseIndex::from_number(word.code())),
            None => Err(ElaborateFault::Internal),
        }
    }

    /// Returns the literals of a clause, in the order in which they are watched.
    #[inline(always)]
    pub(crate) fn lits(&self, block: Block) -> Result<&[LocalLit], ElaborateFault> {
        match self.words.get(block.0 as usize..) {
            Some([_, len, rest @ ..]) => match rest.get(..len.code() as usize) {
                Some(lits) => Ok(lits),
                None => long_lits(rest),
            },
            _ => Err(ElaborateFault::Internal),
        }
    }

    /// Returns the watched literals of a clause, and whether it has no more.
    pub(crate) fn watched(
        &self,
        block: Block,
    ) -> Result<(LocalLit, LocalLit, bool), ElaborateFault> {
        match self.lits(block)? {
            [first, second, rest @ ..] => Ok((*first, *second, rest.is_empty())),
            _ => Err(ElaborateFault::Internal),
        }
    }

    /// Returns all the words, as `lits` reads them.
    #[inline(always)]
    pub(crate) fn words_mut(&mut self) -> &mut [LocalLit] {
        self.words.as_mut_slice()
    }

    /// Returns the literals of a clause, so that they can be permuted.
    #[inline(always)]
    pub(crate) fn lits_mut(&mut self, block: Block) -> Result<&mut [LocalLit], ElaborateFault> {
        let start = block.0 as usize;
        if start >= self.words.len() {
            return Err(ElaborateFault::Internal);
        }
        match &mut self.words[start..] {
            [_, len, rest @ ..] => {
                let len = len.code() as usize;
                if len <= rest.len() {
                    Ok(&mut rest[..len])
                } else {
                    long_lits_mut(rest)
                }
            }
            _ => Err(ElaborateFault::Internal),
        }
    }
}

/// Copies literals to the beginning of the words.
fn copy(lits: &[LocalLit], words: &mut [LocalLit]) {
    for (word, lit) in words.iter_mut().zip(lits) {
        *word = *lit;
    }
}

/// Returns the literals of a long clause. The words are those after its mark.
#[inline(never)]
fn long_lits(words: &[LocalLit]) -> Result<&[LocalLit], ElaborateFault> {
    match words {
        [len, _, rest @ ..] => {
            rest.get(..len.code() as usize)
                .ok_or(ElaborateFault::Internal)
        }
        _ => Err(ElaborateFault::Internal),
    }
}

/// Returns what `long_lits` does, so that the literals can be permuted.
#[inline(never)]
fn long_lits_mut(words: &mut [LocalLit]) -> Result<&mut [LocalLit], ElaborateFault> {
    match words {
        [len, _, rest @ ..] => {
            let len = len.code() as usize;
            if len <= rest.len() {
                Ok(&mut rest[..len])
            } else {
                Err(ElaborateFault::Internal)
            }
        }
        _ => Err(ElaborateFault::Internal),
    }
}
