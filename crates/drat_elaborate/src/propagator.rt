//! Unit propagation over two watched literals, first in the clauses that are used.
use crate::arena::{Arena, Block};
use crate::clauses::{ClauseIndex, Clauses, Use};
use crate::dying::Dying;
use crate::fault::ElaborateFault;
use crate::local::LocalLit;
use crate::recent::Recent;
use crate::standing::Standing;
use crate::sweep::{Sweep, sweep_list, sweep_whole};
use crate::trail::Trail;
use crate::watches::{Watches, len_of};
use std::alloc::{AllocError, Global};

/// The highest bit of 64.
const HIGHEST: u64 = 1 << 63;

/// The clauses, their watches and the trail.
#[derive(Drop)]
pub(crate) struct Propagator {
    pub(crate) alloc: Global,
    pub(crate) clauses: Clauses,
    pub(crate) trail: Trail,
    /// The watches of the clauses that were used lately, which are visited first.
    pub(crate) lately: Watches,
    /// Those of the clauses that were used before.
    pub(crate) used: Watches,
    /// Those of the others.
    pub(crate) unused: Watches,
    /// Unused clauses that are visited last.
    pub(crate) dying: Dying,
    /// The clauses that are watched in `lately`.
    pub(crate) used_lately: Vec<ClauseIndex>,
    pub(crate) recent: Recent,
}

/// How far the trail has been propagated in clauses that are visited up to the next unit.
#[derive(Drop)]
struct Head {
    /// The place on the trail.
    place: usize,
    /// At most this many clauses of the list of the literal there are left.
    end: usize,
}

impl Head {
    /// Returns a head at a position of the trail.
    fn at(place: usize) -> Head {
        Head {
            place,
            end: usize::MAX,
        }
    }

    /// Moves to a position of the trail, at the start of its list.
    #[inline(always)]
    fn go_to(&mut self, place: usize) {
        if place != self.place {
            *self = Head::at(place);
        }
    }
}

/// How far the trail has been propagated.
#[derive(Drop)]
struct Heads {
    /// In the clauses that were used lately.
    lately: usize,
    /// In those that were used before.
    used: Head,
    /// In the others.
    unused: Head,
    /// In those that are visited last.
    dying: Head,
    /// The recent lemmas were looked at up to here.
    recent: usize,
}

/// The result of a step of propagation.
#[derive(Clone, Copy)]
enum Progress {
    Going,
    Done,
    Conflict(Block),
}

impl Propagator {
    pub(crate) fn new(alloc: Global) -> Propagator {
        Propagator {
            alloc,
            clauses: Clauses::new(alloc),
            trail: Trail::new(alloc),
            lately: Watches::new(alloc, Use::Lately),
            used: Watches::new(alloc, Use::Before),
            unused: Watches::new(alloc, Use::Never),
            dying: Dying::new(alloc),
            used_lately: Vec::new(alloc),
            recent: Recent::new(alloc),
        }
    }

    /// Frees the memory of all but the clauses as they were written, once nothing is propagated any
    /// more.
    pub(crate) fn end(&mut self) {
        self.clauses.end();
        self.trail = Trail::new(self.alloc);
        self.lately = Watches::new(self.alloc, Use::Lately);
        self.used = Watches::new(self.alloc, Use::Before);
        self.unused = Watches::new(self.alloc, Use::Never);
        self.dying = Dying::new(self.alloc);
        self.used_lately = Vec::new(self.alloc);
        self.recent = Recent::new(self.alloc);
    }

    /// Allocates slots for this many variables.
    pub(crate) fn make_room(&mut self, count: usize) -> Result<(), AllocError> {
        if self.trail.lit_count() / 2 >= count {
            return Ok(());
        }
        self.trail.make_room(count)?;
        self.unused.make_room(count)
    }

    /// Allocates lists for the clauses that will be used, which the backward pass needs.
    pub(crate) fn make_room_for_used(&mut self) -> Result<(), AllocError> {
        let count = self.trail.lit_count() / 2;
        self.lately.make_room(count)?;
        self.used.make_room(count)?;
        self.dying.watches.make_room(count)
    }

    /// Propagates the trail from a position on. Returns the clause of a conflict, if there is one.
    pub(crate) fn propagate(&mut self, from: usize) -> Result<Option<Block>, ElaborateFault> {
        self.clean_if_many()?;
        let mut heads = Heads {
            lately: from,
            used: Head::at(from),
            unused: Head::at(from),
            dying: Head::at(from),
            recent: from,
        };
        // Each step but the last makes a literal true.
        for _ in 0..self.trail.lit_count().saturating_add(1) {
            match self.advance(&mut heads)? {
                Progress::Going => {}
                Progress::Done => return Ok(None),
                Progress::Conflict(block) => return Ok(Some(block)),
            }
        }
        Err(ElaborateFault::Internal)
    }

    /// Propagates up to the first clause that is unit or false, used clauses first.
    #[inline(always)]
    fn advance(&mut self, heads: &mut Heads) -> Result<Progress, ElaborateFault> {
        if let Some(block) = self.advance_lately(heads)? {
            return Ok(Progress::Conflict(block));
        }
        let (clauses, trail) = (&mut self.clauses, &mut self.trail);
        match advance_to_unit(clauses, trail, &mut self.used, &mut heads.used)? {
            Progress::Done => {}
            progress => return Ok(progress),
        }
        if heads.unused.place < self.trail.len() && heads.recent < self.trail.len() {
            if let Some(progress) = self.advance_recent()? {
                return Ok(progress);
            }
            heads.recent = self.trail.len();
        }
        let (clauses, trail) = (&mut self.clauses, &mut self.trail);
        match advance_to_unit(clauses, trail, &mut self.unused, &mut heads.unused)? {
            Progress::Done if !self.dying.is_empty() => {
                advance_to_unit(clauses, trail, &mut self.dying.watches, &mut heads.dying)
            }
            progress => Ok(progress),
        }
    }

    /// Propagates the trail to its end in the clauses that were used lately. Returns the clause of
    /// a conflict, if there is one.
    #[inline(always)]
    fn advance_lately(&mut self, heads: &mut Heads) -> Result<Option<Block>, ElaborateFault> {
        let from = self.lately.skip_unwatched(self.trail.lits(), heads.lately);
        if from < self.trail.len() {
            let (clauses, trail) = (&mut self.clauses, &mut self.trail);
            let conflict = if self.lately.stale.is_empty() {
                let end = trail.lit_count();
                sweep_on(&mut clauses.arena, trail, &mut self.lately, from, end)?
            } else {
                sweep_stale(clauses, trail, &mut self.lately, from)?
            };
            if conflict.is_some() {
                return Ok(conflict);
            }
        }
        heads.lately = self.trail.len();
        Ok(None)
    }

    /// Visits the recent lemmas, up to the first that is unit or false.
    fn advance_recent(&mut self) -> Result<Option<Progress>, ElaborateFault> {
        let mut lemmas = self.recent.lemmas();
        // Each bit is looked at once.
        for _ in 0..64 {
            if lemmas == 0 {
                break;
            }
            let places = lemmas.leading_zeros();
            lemmas &= !HIGHEST.wrapping_shr(places);
            let clause = ClauseIndex::new(self.recent.number(places))?;
            if let Some(progress) = self.look_at(clause)? {
                return Ok(Some(progress));
            }
        }
        Ok(None)
    }

    /// Returns what a recent lemma leads to, if it is unit or false; a unit is assigned.
    #[inline(always)]
    fn look_at(&mut self, clause: ClauseIndex) -> Result<Option<Progress>, ElaborateFault> {
        self.recent.spend();
        let block = self.clauses.get(clause)?.block;
        match Standing::of(self.clauses.arena.lits(block)?, self.trail.values()) {
            Standing::Other => Ok(None),
            Standing::False => {
                self.recent.reward();
                Ok(Some(Progress::Conflict(block)))
            }
            Standing::Unit(lit) => {
                self.recent.reward();
                self.trail.assign(lit, block)?;
                Ok(Some(Progress::Going))
            }
        }
    }
}

/// Propagates along the trail, up to the first clause that is unit or false.
#[inline(always)]
fn advance_to_unit(
    clauses: &mut Clauses,
    trail: &mut Trail,
    watches: &mut Watches,
    head: &mut Head,
) -> Result<Progress, ElaborateFault> {
    for _ in head.place..trail.lit_count() {
        let place = watches.skip_unwatched(trail.lits(), head.place);
        head.go_to(place);
        let Some(lit) = trail.get(head.place) else {
            break;
        };
        if !watches.stale.is_empty() {
            watches.clean(clauses, !lit)?;
        }
        let end = head.end.min(len_of(watches.all(), !lit));
        let (alloc, words) = (watches.alloc(), clauses.arena.words_mut());
        let growing = &mut trail.growing();
        match sweep_list(alloc, words, growing, watches.all(), !lit, end)? {
            Sweep::End => {
                let next = head.place.saturating_add(1);
                head.go_to(next);
            }
            Sweep::Conflict(block) => return Ok(Progress::Conflict(block)),
            Sweep::Unit { lit, block, end } => {
                head.end = end;
                trail.assign(lit, block)?;
                return Ok(Progress::Going);
            }
        }
    }
    Ok(Progress::Done)
}

/// Does what `sweep_on` does to the end of the trail, where some lists are stale.
#[inline(never)]
fn sweep_stale(
    clauses: &mut Clauses,
    trail: &mut Trail,
    watches: &mut Watches,
    from: usize,
) -> Result<Option<Block>, ElaborateFault> {
    let mut place = from;
    for _ in from..trail.lit_count() {
        let Some(lit) = trail.get(place) else {
            break;
        };
        watches.clean(clauses, !lit)?;
        let end = watches.first_stale(trail.lits(), place.saturating_add(1));
        if let Some(block) = sweep_on(&mut clauses.arena, trail, watches, place, end)? {
            return Ok(Some(block));
        }
        place = end;
    }
    Ok(None)
}

/// Propagates along the trail from a position to another one, or its end. Returns the clause of a
/// conflict, if there is one.
#[inline(never)]
fn sweep_on(
    arena: &mut Arena,
    trail: &mut Trail,
    watches: &mut Watches,
    from: usize,
    end: usize,
) -> Result<Option<Block>, ElaborateFault> {
    let alloc = watches.alloc();
    let (words, lists) = (arena.words_mut(), watches.all());
    let mut growing = trail.growing();
    for place in from..end {
        let Some(lit) = growing.get(place) else {
            break;
        };
        if let Some(block) = sweep_whole(alloc, words, &mut growing, lists, !lit)? {
            return Ok(Some(block));
        }
    }
    Ok(None)
}
