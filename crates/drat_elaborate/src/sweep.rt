//! One list of watches, visited when its literal became false.
use crate::arena::Block;
use crate::fault::ElaborateFault;
use crate::local::LocalLit;
use crate::look::{Found, forced, known, look, look_in_long};
use crate::trail::{Growing, Value};
use crate::watches::{Watch, len_of, push_watch, put_list, take_list};
use std::alloc::Global;

/// A list of at most this many watches is visited in its table. A longer one is taken out of it
/// first, which costs as much as it saves in some ten visits.
const FEW: usize = 16;

/// The result of visiting a list, up to the first clause that is unit or false.
#[derive(Clone, Copy)]
pub(crate) enum Sweep {
    End,
    /// The clause forces the literal. This many clauses of the list are left.
    Unit {
        lit: LocalLit,
        block: Block,
        end: usize,
    },
    Conflict(Block),
}

/// The result of visiting a watch.
#[derive(Clone, Copy)]
enum Visited {
    /// Its clause is true, or is watched by another literal now.
    Open,
    Unit(LocalLit, Block),
    Conflict(Block),
    /// It is that of a long clause, which was not visited.
    Long,
}

impl Visited {
    /// Returns what the sweep of a list came to that ended here, with this many clauses left.
    #[inline(always)]
    fn sweep(self, end: usize) -> Sweep {
        match self {
            Visited::Open | Visited::Long => Sweep::End,
            Visited::Unit(lit, block) => Sweep::Unit { lit, block, end },
            Visited::Conflict(block) => Sweep::Conflict(block),
        }
    }
}

/// Visits the first `end` clauses of a literal's list, the last one first, down to the first that
/// is unit or false. Returns which it is.
#[inline(always)]
pub(crate) fn sweep_list(
    alloc: Global,
    words: &mut [LocalLit],
    trail: &mut Growing<'_>,
    lists: &mut [Vec<Watch>],
    falsified: LocalLit,
    end: usize,
) -> Result<Sweep, ElaborateFault> {
    let (ended, left) = visit_list(alloc, words, trail, lists, falsified, end, true)?;
    Ok(ended.sweep(left))
}

/// Visits a whole list, and assigns what its clauses imply. Returns the clause of a conflict, if
/// there is one.
#[inline(always)]
pub(crate) fn sweep_whole(
    alloc: Global,
    words: &mut [LocalLit],
    trail: &mut Growing<'_>,
    lists: &mut [Vec<Watch>],
    falsified: LocalLit,
) -> Result<Option<Block>, ElaborateFault> {
    let end = len_of(lists, falsified);
    match visit_list(alloc, words, trail, lists, falsified, end, false)? {
        (Visited::Conflict(block), _) => Ok(Some(block)),
        _ => Ok(None),
    }
}

/// Visits the first `end` clauses of a list, down to the first that is false, or with `stops` that
/// is unit or false; else what is implied is assigned. Returns how it ended, and how many clauses
/// are left.
#[inline(always)]
fn visit_list(
    alloc: Global,
    words: &mut [LocalLit],
    trail: &mut Growing<'_>,
    lists: &mut [Vec<Watch>],
    falsified: LocalLit,
    end: usize,
    stops: bool,
) -> Result<(Visited, usize), ElaborateFault> {
    let (ended, left) = if end <= FEW {
        sweep_few(words, trail, lists, falsified, end, stops)?
    } else {
        sweep_many(alloc, words, trail, lists, falsified, end, stops)?
    };
    match ended {
        Visited::Long => {
            sweep_with_long(
                words,
                trail,
                lists,
                falsified,
                left.saturating_add(1),
                stops,
            )
        }
        _ => Ok((ended, left)),
    }
}

/// Does what `visit_list` does, up to a long clause, for a list that stays in its table.
#[inline(always)]
fn sweep_few(
    words: &mut [LocalLit],
    trail: &mut Growing<'_>,
    lists: &mut [Vec<Watch>],
    falsified: LocalLit,
    end: usize,
    stops: bool,
) -> Result<(Visited, usize), ElaborateFault> {
    for at in (0..end).rev() {
        match visit(words, trail.values, lists, falsified, at)? {
            Visited::Open => {}
            Visited::Unit(lit, block) if !stops => trail.assign(lit, block)?,
            ended => return Ok((ended, at)),
        }
    }
    Ok((Visited::Open, 0))
}

/// Does what `sweep_few` does for a list that is taken out of its table meanwhile.
#[inline(always)]
fn sweep_many(
    alloc: Global,
    words: &mut [LocalLit],
    trail: &mut Growing<'_>,
    lists: &mut [Vec<Watch>],
    falsified: LocalLit,
    end: usize,
    stops: bool,
) -> Result<(Visited, usize), ElaborateFault> {
    let mut taken = take_list(alloc, lists, falsified);
    let watches = taken.as_mut_slice();
    let mut len = watches.len();
    let mut result = (Visited::Open, 0);
    for at in (0..end.min(watches.len())).rev() {
        match visit_taken(words, trail.values, lists, falsified, watches, &mut len, at)? {
            Visited::Open => {}
            Visited::Unit(lit, block) if !stops => trail.assign(lit, block)?,
            ended => {
                result = (ended, at);
                break;
            }
        }
    }
    taken.truncate(len);
    put_list(lists, falsified, taken);
    Ok(result)
}

/// Continues `visit_list` at a long clause. It is a function of its own, so that long clauses cost
/// the others nothing.
#[cold]
#[inline(never)]
fn sweep_with_long(
    words: &mut [LocalLit],
    trail: &mut Growing<'_>,
    lists: &mut [Vec<Watch>],
    falsified: LocalLit,
    end: usize,
    stops: bool,
) -> Result<(Visited, usize), ElaborateFault> {
    for at in (0..end).rev() {
        match visit_any(words, trail.values, lists, falsified, at)? {
            Visited::Open | Visited::Long => {}
            Visited::Unit(lit, block) if !stops => trail.assign(lit, block)?,
            ended => return Ok((ended, at)),
        }
    }
    Ok((Visited::Open, 0))
}

/// Returns the status of the clause of a watch whose blocker is not true.
#[inline(always)]
fn status(
    words: &mut [LocalLit],
    values: &[Value],
    falsified: LocalLit,
    watch: Watch,
    value: Value,
) -> Found {
    if watch.is_binary() {
        forced(watch.blocker, value)
    } else {
        look(words, watch.block(), falsified, values)
    }
}

/// Visits one watch of a literal that became false. If a second literal of the clause is
/// unassigned, the watch moves to the list of that one, and the last watch of the list, which was
/// visited before, takes its slot. If a literal is true, the watch stays: what one propagation
/// assigns is unassigned all at once.
#[inline(always)]
fn visit(
    words: &mut [LocalLit],
    values: &[Value],
    lists: &mut [Vec<Watch>],
    falsified: LocalLit,
    at: usize,
) -> Result<Visited, ElaborateFault> {
    let list = falsified.place();
    if list >= lists.len() || at >= lists[list].len() {
        return Err(ElaborateFault::Internal);
    }
    let watch = lists[list][at];
    let value = known(values, watch.blocker);
    if value == Value::True {
        return Ok(Visited::Open);
    }
    match status(words, values, falsified, watch, value) {
        Found::True(blocker) => lists[list][at] = watch.with_blocker(blocker),
        Found::Moved(to, blocker) => {
            lists[list].swap_remove(at);
            push_watch(lists, to, watch.with_blocker(blocker))?;
        }
        Found::Unit(lit) => return Ok(Visited::Unit(lit, watch.block())),
        Found::Conflict => return Ok(Visited::Conflict(watch.block())),
        Found::Long => return Ok(Visited::Long),
    }
    Ok(Visited::Open)
}

/// Does what `visit` does in a list that was taken out of its table. The first `len` watches are
/// those of the list.
#[inline(always)]
fn visit_taken(
    words: &mut [LocalLit],
    values: &[Value],
    lists: &mut [Vec<Watch>],
    falsified: LocalLit,
    watches: &mut [Watch],
    len: &mut usize,
    at: usize,
) -> Result<Visited, ElaborateFault> {
    if at >= watches.len() {
        return Err(ElaborateFault::Internal);
    }
    let watch = watches[at];
    let value = known(values, watch.blocker);
    if value == Value::True {
        return Ok(Visited::Open);
    }
    match status(words, values, falsified, watch, value) {
        Found::True(blocker) => watches[at] = watch.with_blocker(blocker),
        Found::Moved(to, blocker) => {
            *len = len.saturating_sub(1);
            if let Some(last) = watches.get(*len).copied() {
                watches[at] = last;
            }
            push_watch(lists, to, watch.with_blocker(blocker))?;
        }
        Found::Unit(lit) => return Ok(Visited::Unit(lit, watch.block())),
        Found::Conflict => return Ok(Visited::Conflict(watch.block())),
        Found::Long => return Ok(Visited::Long),
    }
    Ok(Visited::Open)
}

/// Visits one watch, whether or not its clause is long.
fn visit_any(
    words: &mut [LocalLit],
    values: &[Value],
    lists: &mut [Vec<Watch>],
    falsified: LocalLit,
    at: usize,
) -> Result<Visited, ElaborateFault> {
    match visit(words, values, lists, falsified, at)? {
        Visited::Long => visit_long(words, values, lists, falsified, at),
        visited => Ok(visited),
    }
}

/// Visits one watch of a long clause.
fn visit_long(
    words: &mut [LocalLit],
    values: &[Value],
    lists: &mut [Vec<Watch>],
    falsified: LocalLit,
    at: usize,
) -> Result<Visited, ElaborateFault> {
    let list = falsified.place();
    if list >= lists.len() || at >= lists[list].len() {
        return Err(ElaborateFault::Internal);
    }
    let watch = lists[list][at];
    match look_in_long(words, watch.block(), falsified, values)? {
        Found::True(blocker) => lists[list][at] = watch.with_blocker(blocker),
        Found::Moved(to, blocker) => {
            lists[list].swap_remove(at);
            push_watch(lists, to, watch.with_blocker(blocker))?;
        }
        Found::Unit(lit) => return Ok(Visited::Unit(lit, watch.block())),
        Found::Conflict => return Ok(Visited::Conflict(watch.block())),
        Found::Long => {}
    }
    Ok(Visited::Open)
}
