//! The lists of watches.
use crate::arena::Block;
use crate::clauses::Use;
use crate::fault::ElaborateFault;
use crate::local::LocalLit;
use crate::stale::StaleLists;
use std::alloc::{AllocError, Global};
use std::mem;

/// A clause is searched for among this many watches at the end of a list,
const NEAR: usize = 1024;

/// or in the last one of this many parts of it.
const FAR_SHARE: usize = 8;

/// A clause that watches a literal, and another literal of it: where that is true, the clause is.
#[derive(Clone, Copy)]
pub(crate) struct Watch {
    /// The code of the block, and `BINARY`.
    tagged: u32,
    pub(crate) blocker: LocalLit,
}

impl Watch {
    /// The clause has two literals, so that the blocker is the other one.
    const BINARY: u32 = 1 << 31;

    /// Returns the watch of a block with its blocker.
    pub(crate) fn new(block: Block, blocker: LocalLit, is_binary: bool) -> Watch {
        let tag = if is_binary { Watch::BINARY } else { 0 };
        Watch {
            tagged: block.code() | tag,
            blocker,
        }
    }

    /// Returns whether the clause has two literals.
    #[inline(always)]
    pub(crate) fn is_binary(self) -> bool {
        self.tagged & Watch::BINARY != 0
    }

    /// Returns the block.
    #[inline(always)]
    pub(crate) fn block(self) -> Block {
        Block::from_code(self.tagged & !Watch::BINARY)
    }

    /// Returns the watch with another blocker.
    #[inline(always)]
    pub(crate) fn with_blocker(self, blocker: LocalLit) -> Watch {
        Watch {
            tagged: self.tagged,
            blocker,
        }
    }
}

/// For each literal the clauses of one use that watch it.
#[derive(Drop)]
pub(crate) struct Watches {
    alloc: Global,
    /// The use of the clauses, or another one that shares its lists.
    pub(crate) used: Use,
    lists: Vec<Vec<Watch>>,
    pub(crate) stale: StaleLists,
}

impl Watches {
    pub(crate) fn new(alloc: Global, used: Use) -> Watches {
        Watches {
            alloc,
            used,
            lists: Vec::new(alloc),
            stale: StaleLists::new(alloc),
        }
    }

    /// Allocates lists for this many variables.
    pub(crate) fn make_room(&mut self, count: usize) -> Result<(), AllocError> {
        for _ in self.lists.len()..count.saturating_mul(2) {
            self.lists.push(Vec::new(self.alloc))?;
        }
        Ok(())
    }

    /// Allocates memory for this many more watches of each literal, by its code.
    pub(crate) fn reserve(&mut self, counts: &[u32]) -> Result<(), AllocError> {
        for (list, count) in self.lists.iter_mut().zip(counts) {
            if *count > 0 {
                list.reserve_exact(*count as usize)?;
            }
        }
        Ok(())
    }

    /// Adds a watch to the list of a literal.
    pub(crate) fn push(&mut self, lit: LocalLit, watch: Watch) -> Result<(), ElaborateFault> {
        push_watch(self.lists.as_mut_slice(), lit, watch)
    }

    /// Returns the allocator of the lists.
    #[inline(always)]
    pub(crate) fn alloc(&self) -> Global {
        self.alloc
    }

    /// Returns the lists, by code of the literal.
    #[inline(always)]
    pub(crate) fn all(&mut self) -> &mut [Vec<Watch>] {
        self.lists.as_mut_slice()
    }

    /// Removes a clause from the list of a literal, if it is close to its end. Returns whether it
    /// was.
    #[inline(always)]
    pub(crate) fn remove(&mut self, lit: LocalLit, block: Block) -> Result<bool, ElaborateFault> {
        match self.lists.get_mut(lit.place()) {
            Some(list) => Ok(remove_from(list, block)),
            None => Err(ElaborateFault::Internal),
        }
    }

    /// Returns the first position from one on of a literal whose negation is watched; else how many
    /// literals there are.
    #[inline(always)]
    pub(crate) fn skip_unwatched(&self, lits: &[LocalLit], from: usize) -> usize {
        let mut place = from;
        while place < lits.len() {
            match self.lists.get((!lits[place]).place()) {
                Some(list) if !list.is_empty() => break,
                _ => place += 1,
            }
        }
        place
    }

    /// Takes the list of a literal away, until it is put back.
    pub(crate) fn take(&mut self, lit: LocalLit) -> Vec<Watch> {
        take_list(self.alloc, self.lists.as_mut_slice(), lit)
    }

    /// Puts the list of a literal back.
    pub(crate) fn put(&mut self, lit: LocalLit, watches: Vec<Watch>) {
        put_list(self.lists.as_mut_slice(), lit, watches);
    }
}

/// Returns how many clauses a literal watches.
#[inline(always)]
pub(crate) fn len_of(lists: &[Vec<Watch>], lit: LocalLit) -> usize {
    match lists.get(lit.place()) {
        Some(list) => list.len(),
        None => 0,
    }
}

/// Takes the list of a literal away, until it is put back.
#[inline(always)]
pub(crate) fn take_list(alloc: Global, lists: &mut [Vec<Watch>], lit: LocalLit) -> Vec<Watch> {
    match lists.get_mut(lit.place()) {
        Some(list) => mem::replace(list, Vec::new(alloc)),
        None => Vec::new(alloc),
    }
}

/// Puts the list of a literal back.
#[inline(always)]
pub(crate) fn put_list(lists: &mut [Vec<Watch>], lit: LocalLit, watches: Vec<Watch>) {
    if let Some(list) = lists.get_mut(lit.place()) {
        *list = watches;
    }
}

/// Adds a watch to the list of a literal.
#[inline(always)]
pub(crate) fn push_watch(
    lists: &mut [Vec<Watch>],
    lit: LocalLit,
    watch: Watch,
) -> Result<(), ElaborateFault> {
    match lists.get_mut(lit.place()) {
        Some(list) => list.push(watch)?,
        None => return Err(ElaborateFault::Internal),
    }
    Ok(())
}

/// Removes the last watch of a clause from a list, if it is close to its end. Returns whether it
/// was.
#[inline(always)]
fn remove_from(list: &mut Vec<Watch>, block: Block) -> bool {
    let reach = (list.len() / FAR_SHARE).max(NEAR);
    for index in (list.len().saturating_sub(reach)..list.len()).rev() {
        if list[index].block() == block {
            list.swap_remove(index);
            return true;
        }
    }
    false
}
