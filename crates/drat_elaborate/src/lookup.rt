//! Clauses by their literals.
use crate::clauses::{ClauseIndex, ClauseLink, Clauses};
use crate::fault::ElaborateFault;
use crate::lit_set::LitSet;
use crate::local::LocalLit;
use crate::propagator::Propagator;
use std::alloc::Global;

/// The result of a search for a clause.
#[derive(Clone, Copy)]
pub(crate) enum Lookup {
    /// This clause, which is no longer in the table; where reasons are kept, it is none.
    Found(ClauseIndex),
    /// Each such clause is the reason of a literal.
    Reason,
    Missing,
}

/// Whether reasons are taken too.
#[derive(Clone, Copy, PartialEq, Eq)]
pub(crate) enum Reasons {
    Take,
    Keep,
}

/// Live clauses, in buckets by a hash of their literals.
#[derive(Drop)]
pub(crate) struct ClauseTable {
    /// The first clause of each bucket; each has a link to the next one.
    buckets: Vec<ClauseLink>,
    /// Selects the hash.
    seed: u64,
}

impl ClauseTable {
    const FIRST_SIZE: usize = 1024;

    pub(crate) fn new(alloc: Global) -> ClauseTable {
        ClauseTable {
            buckets: Vec::new(alloc),
            seed: 0,
        }
    }

    /// Mixes a literal of the formula into the seed, before the first clause is entered. So no
    /// list of clauses has equal hashes for every formula.
    #[inline(always)]
    pub(crate) fn stir(&mut self, lit: LocalLit) {
        self.seed = mixed((lit.code() as u64).wrapping_add(self.seed.rotate_left(23)));
    }

    /// Enters all live clauses, in place of those that the table had.
    pub(crate) fn enter_all(&mut self, clauses: &mut Clauses) -> Result<(), ElaborateFault> {
        let count = clauses.len();
        self.refill(clauses, count)
    }

    /// Enters the clause that was stored last.
    pub(crate) fn enter_new(
        &mut self,
        clauses: &mut Clauses,
        clause: ClauseIndex,
    ) -> Result<(), ElaborateFault> {
        if clauses.len() > self.buckets.len() {
            self.refill(clauses, clause.get())?;
        }
        self.enter(clauses, clause)
    }

    /// Makes as many buckets as there are clauses, or up to twice as many, and enters the live ones
    /// of the first `end` clauses.
    fn refill(&mut self, clauses: &mut Clauses, end: usize) -> Result<(), ElaborateFault> {
        let count = clauses.len().max(ClauseTable::FIRST_SIZE);
        let size = count.checked_next_power_of_two().unwrap_or(usize::MAX);
        self.buckets.clear();
        self.buckets.resize(size, ClauseLink::none())?;
        for index in 0..end {
            let clause = ClauseIndex::new(index)?;
            if clauses.get(clause)?.is_active {
                self.enter(clauses, clause)?;
            }
        }
        Ok(())
    }

    /// Enters a live clause that is not in the table.
    pub(crate) fn enter(
        &mut self,
        clauses: &mut Clauses,
        clause: ClauseIndex,
    ) -> Result<(), ElaborateFault> {
        let hash = hash(clauses.lits(clause)?, self.seed);
        let bucket = bucket_of(&mut self.buckets, hash)?;
        clauses.get_mut(clause)?.next = *bucket;
        *bucket = ClauseLink::to(clause);
        Ok(())
    }

    /// Takes out a clause with these literals, if there is one. Each literal is in `lits` once, and
    /// `set` has the same ones.
    pub(crate) fn take(
        &mut self,
        propagator: &mut Propagator,
        lits: &[LocalLit],
        set: &LitSet,
        reasons: Reasons,
    ) -> Result<Lookup, ElaborateFault> {
        if self.buckets.is_empty() {
            return Ok(Lookup::Missing);
        }
        let bucket = bucket_of(&mut self.buckets, hash(lits, self.seed))?;
        let mut before = None;
        let mut at = *bucket;
        let mut answer = Lookup::Missing;
        for _ in 0..propagator.clauses.len() {
            let Some(clause) = at.get() else {
                return Ok(answer);
            };
            at = propagator.clauses.get(clause)?.next;
            if is_same(propagator.clauses.lits(clause)?, lits, set) {
                if reasons == Reasons::Take || !propagator.is_reason(clause)? {
                    match before {
                        None => *bucket = at,
                        Some(before) => propagator.clauses.get_mut(before)?.next = at,
                    }
                    return Ok(Lookup::Found(clause));
                }
                answer = Lookup::Reason;
            }
            before = Some(clause);
        }
        Ok(answer)
    }
}

/// Returns the bucket of a hash.
fn bucket_of(buckets: &mut Vec<ClauseLink>, hash: u32) -> Result<&mut ClauseLink, ElaborateFault> {
    let mask = buckets.len().wrapping_sub(1);
    buckets
        .get_mut(hash as usize & mask)
        .ok_or(ElaborateFault::Internal)
}

/// Returns whether a clause has just these literals.
fn is_same(clause: &[LocalLit], lits: &[LocalLit], set: &LitSet) -> bool {
    clause.len() == lits.len() && clause.iter().all(|lit| set.contains(*lit))
}

/// Returns a hash that does not depend on the order of the literals: the upper half of the sum of
/// their mixed codes.
fn hash(lits: &[LocalLit], seed: u64) -> u32 {
    let mut sum = 0u64;
    for lit in lits {
        sum = sum.wrapping_add(mixed((lit.code() as u64).wrapping_add(seed)));
    }
    (sum >> 32) as u32
}

/// Returns a mixed number: each bit of the argument changes many of its bits.
#[inline(always)]
fn mixed(number: u64) -> u64 {
    let spread = number.wrapping_add(1).wrapping_mul(0x9E37_79B9_7F4A_7C15);
    (spread ^ (spread >> 29)).wrapping_mul(0xBF58_476D_1CE4_E5B9)
}
