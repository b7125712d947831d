//! Lists of watches that still have deleted clauses.
//!
//! To take a clause out of a list costs a visit of each watch after it. In a long list a clause
//! that is not close to the end stays, and so do those that are removed from that list next. The
//! list is cleaned when it is next visited, in one pass, which costs no more than the visit. What
//! stays keeps its order, so that what was close to the end still is.
use crate::arena::Block;
use crate::clauses::{Clauses, Use};
use crate::fault::ElaborateFault;
use crate::lit_set::LitSet;
use crate::local::LocalLit;
use crate::propagator::Propagator;
use crate::watches::{Watch, Watches};
use std::alloc::Global;

/// All stale lists are cleaned once this many watches were left in them.
const MANY: usize = 1 << 18;

/// Which lists have deleted clauses.
#[derive(Drop)]
pub(crate) struct StaleLists {
    /// The literals of these lists, and how many there are.
    set: LitSet,
    count: usize,
    /// The literal of each watch that was left, since no list was stale.
    left: Vec<LocalLit>,
}

impl StaleLists {
    pub(crate) fn new(alloc: Global) -> StaleLists {
        StaleLists {
            set: LitSet::new(alloc),
            count: 0,
            left: Vec::new(alloc),
        }
    }

    /// Returns whether no list is stale.
    #[inline(always)]
    pub(crate) fn is_empty(&self) -> bool {
        self.count == 0
    }

    /// Returns whether the list of a literal is stale.
    #[inline(always)]
    fn contains(&self, lit: LocalLit) -> bool {
        self.count > 0 && self.set.contains(lit)
    }

    /// Notes that a watch was left in the list of a literal.
    fn insert(&mut self, lit: LocalLit) -> Result<(), ElaborateFault> {
        if self.set.insert(lit)? {
            self.count = self.count.saturating_add(1);
        }
        self.left.push(lit)?;
        Ok(())
    }

    /// Notes that a stale list is cleaned.
    fn remove(&mut self, lit: LocalLit) {
        self.set.remove(lit);
        self.count = self.count.saturating_sub(1);
        if self.count == 0 {
            self.left.clear();
        }
    }
}

impl Propagator {
    /// Cleans the stale lists of a kind in which many watches were left.
    #[inline(always)]
    pub(crate) fn clean_if_many(&mut self) -> Result<(), ElaborateFault> {
        self.lately.clean_if_many(&mut self.clauses)?;
        self.used.clean_if_many(&mut self.clauses)?;
        self.unused.clean_if_many(&mut self.clauses)?;
        self.dying.watches.clean_if_many(&mut self.clauses)
    }
}

impl Watches {
    /// Removes the watch of a clause from the list of a literal, or notes that the list is stale.
    #[inline(always)]
    pub(crate) fn unwatch(&mut self, lit: LocalLit, block: Block) -> Result<(), ElaborateFault> {
        if self.stale.contains(lit) || !self.remove(lit, block)? {
            self.stale.insert(lit)?;
        }
        Ok(())
    }

    /// Returns the first position from one on of a literal whose negation has a stale list; else
    /// how many literals there are.
    pub(crate) fn first_stale(&self, lits: &[LocalLit], from: usize) -> usize {
        for (place, lit) in lits.iter().enumerate().skip(from) {
            if self.stale.contains(!*lit) {
                return place;
            }
        }
        lits.len()
    }

    /// Cleans the stale lists, if many watches were left in them.
    #[inline(always)]
    fn clean_if_many(&mut self, clauses: &mut Clauses) -> Result<(), ElaborateFault> {
        if self.stale.left.len() >= MANY {
            self.clean_all(clauses)?;
        }
        Ok(())
    }

    /// Cleans the stale lists.
    #[inline(never)]
    pub(crate) fn clean_all(&mut self, clauses: &mut Clauses) -> Result<(), ElaborateFault> {
        for place in 0..self.stale.left.len() {
            if let Some(lit) = self.stale.left.get(place).copied() {
                self.clean(clauses, lit)?;
            }
        }
        Ok(())
    }

    /// Cleans the list of a literal, if it is stale.
    #[inline(never)]
    pub(crate) fn clean(
        &mut self,
        clauses: &mut Clauses,
        lit: LocalLit,
    ) -> Result<(), ElaborateFault> {
        if !self.stale.contains(lit) {
            return Ok(());
        }
        self.stale.remove(lit);
        let mut watches = self.take(lit);
        keep_current(clauses, &mut watches, self.used, lit)?;
        for watch in &watches {
            clauses.arena.turn_mark(watch.block())?;
        }
        self.put(lit, watches);
        Ok(())
    }
}

/// Keeps one watch of each clause that is still watched so, in their order. Their blocks are
/// marked.
fn keep_current(
    clauses: &mut Clauses,
    watches: &mut Vec<Watch>,
    used: Use,
    lit: LocalLit,
) -> Result<(), ElaborateFault> {
    let mut kept = 0usize;
    for place in 0..watches.len() {
        let Some(block) = watches.get(place).map(|watch| watch.block()) else {
            break;
        };
        if let Some(watch) = current(clauses, block, used, lit)? {
            clauses.arena.turn_mark(block)?;
            if let Some(slot) = watches.get_mut(kept) {
                *slot = watch;
            }
            kept = kept.saturating_add(1);
        }
    }
    watches.truncate(kept);
    Ok(())
}

/// Returns the watch by which a literal watches the clause of a block, among those of this use, if
/// it does. A block that is marked or free has the number of no live clause.
fn current(
    clauses: &Clauses,
    block: Block,
    used: Use,
    lit: LocalLit,
) -> Result<Option<Watch>, ElaborateFault> {
    let Ok(found) = clauses.get(clauses.arena.clause(block)?) else {
        return Ok(None);
    };
    let is_watched = found.block == block && found.is_active && found.is_watched;
    if !is_watched || !found.used.shares_lists(used) {
        return Ok(None);
    }
    let (first, second, is_binary) = clauses.arena.watched(block)?;
    Ok(if lit == first {
        Some(Watch::new(block, second, is_binary))
    } else if lit == second {
        Some(Watch::new(block, first, is_binary))
    } else {
        None
    })
}
