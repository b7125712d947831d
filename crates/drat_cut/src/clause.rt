//! The clause that is read: each literal once, and its hash.
use crate::seen::{SeenVars, is_new};
use crate::words::{ClauseEnd, push_literals_at};
use sat_formula::Lit;
use std::alloc::{AllocError, Global};

/// A clause of a step, and its witness.
#[derive(Drop)]
pub(crate) struct ReadClause {
    /// Its literals as they are written.
    written: Vec<Lit>,
    /// Where these are not the clause's: each literal once, the first one of those that are written
    /// in front.
    distinct: Vec<Lit>,
    /// The witness behind it, where that is known not to be part of it.
    witness: Vec<Lit>,
    /// What is written is the clause's literals, each once, and nothing else.
    pub(crate) is_as_written: bool,
    pub(crate) is_tautology: bool,
    pub(crate) hash: ClauseHash,
    /// The highest number of a variable so far.
    pub(crate) var_count: usize,
    /// It selects the hash.
    seed: u64,
    seen: SeenVars,
}

/// What two clauses of the same literals share, in whatever order these are, and others hardly ever
/// do: where that goes wrong a piece is refused.
#[derive(Clone, Copy, PartialEq, Eq)]
pub(crate) struct ClauseHash(u64);

impl ClauseHash {
    pub(crate) const EMPTY: ClauseHash = ClauseHash(0);

    /// Returns the hash with a literal added. The seed selects the hash.
    #[inline(always)]
    fn with(self, lit: Lit, seed: u64) -> ClauseHash {
        let word = spread((lit.code() as u64).wrapping_add(seed));
        ClauseHash(self.0.wrapping_add(word))
    }

    /// Returns the place of the hash among as many as a power of two.
    #[inline(always)]
    pub(crate) fn place(self, count: usize) -> usize {
        (mixed_sum(self.0) >> 32) as usize & count.wrapping_sub(1)
    }
}

impl ReadClause {
    pub(crate) fn new(alloc: Global) -> ReadClause {
        ReadClause {
            written: Vec::new(alloc),
            distinct: Vec::new(alloc),
            witness: Vec::new(alloc),
            is_as_written: true,
            is_tautology: false,
            hash: ClauseHash::EMPTY,
            var_count: 0,
            seed: 0,
            seen: SeenVars::new(alloc),
        }
    }

    /// Has the hashes of the clauses from now on selected by this seed.
    pub(crate) fn select_hash(&mut self, seed: u64) {
        self.seed = seed;
    }

    /// Returns the literals, each once.
    #[inline(always)]
    pub(crate) fn lits(&self) -> &[Lit] {
        if self.is_as_written {
            &self.written
        } else {
            &self.distinct
        }
    }

    /// Returns the witness that was split off.
    pub(crate) fn witness(&self) -> &[Lit] {
        &self.witness
    }

    /// Reads the clause that is written from a place of a text on, up to its 0.
    pub(crate) fn read_text(&mut self, text: &[u8], from: usize) -> Result<ClauseEnd, AllocError> {
        self.written.clear();
        let end = push_literals_at(&mut self.written, text, from)?;
        if let ClauseEnd::Zero(_) = end {
            self.read_written()?;
        }
        Ok(end)
    }

    /// Reads a clause.
    pub(crate) fn read(&mut self, clause: &[Lit]) -> Result<(), AllocError> {
        self.written.clear();
        self.written.extend_from_slice(clause)?;
        self.read_written()
    }

    /// Reads the clause of the literals that are written.
    fn read_written(&mut self) -> Result<(), AllocError> {
        let (rounds, round) = self.seen.begin()?;
        let (mut hash, mut count, mut differ) = (ClauseHash::EMPTY, self.var_count, true);
        for lit in &self.written {
            let var = lit.index().saturating_add(1);
            differ &= is_new(rounds, round, var);
            hash = hash.with(*lit, self.seed);
            count = count.max(var);
        }
        self.hash = hash;
        self.var_count = count;
        self.is_tautology = false;
        self.is_as_written = true;
        self.witness.clear();
        if differ {
            return Ok(());
        }
        self.read_repeated()
    }

    /// Reads a clause in which a variable may be repeated.
    #[cold]
    #[inline(never)]
    fn read_repeated(&mut self) -> Result<(), AllocError> {
        self.distinct.clear();
        self.distinct.extend_from_slice(&self.written)?;
        self.distinct.sort_unstable();
        self.distinct.dedup();
        self.is_tautology = has_opposites(&self.distinct);
        self.is_as_written = self.distinct.len() == self.written.len();
        if !self.is_as_written {
            self.hash = hash_of(&self.distinct, self.seed);
            put_in_front(&mut self.distinct, &self.written);
        }
        Ok(())
    }

    /// Takes the witness off an addition that is written with one.
    #[cold]
    #[inline(never)]
    pub(crate) fn split_witness(&mut self, alloc: Global) -> Result<(), AllocError> {
        let (clause, witness) = parts(&self.written);
        if witness.is_empty() {
            return Ok(());
        }
        let (count, witness) = (clause.len(), Vec::from_slice(alloc, witness)?);
        self.written.truncate(count);
        self.read_written()?;
        self.witness = witness;
        if self.is_as_written {
            self.distinct.clear();
            self.distinct.extend_from_slice(&self.written)?;
            self.is_as_written = false;
        }
        Ok(())
    }
}

/// Puts the first one of these literals in front, which may be a pivot.
fn put_in_front(distinct: &mut Vec<Lit>, written: &[Lit]) {
    for place in 0..distinct.len() {
        if written.first() == Some(&distinct[place]) {
            distinct.swap(0, place);
            return;
        }
    }
}

/// Returns the clause of an addition and its witness, which begins where the first literal is
/// repeated.
fn parts(lits: &[Lit]) -> (&[Lit], &[Lit]) {
    for place in 1..lits.len() {
        if lits[place] == lits[0] {
            return lits.split_at(place);
        }
    }
    lits.split_at(lits.len())
}

/// Returns the hash of literals that differ.
fn hash_of(lits: &[Lit], seed: u64) -> ClauseHash {
    let mut hash = ClauseHash::EMPTY;
    for lit in lits {
        hash = hash.with(*lit, seed);
    }
    hash
}

/// Returns whether a literal and its negation are neighbours.
fn has_opposites(sorted: &[Lit]) -> bool {
    let mut last = None;
    for lit in sorted {
        if last == Some(!*lit) {
            return true;
        }
        last = Some(*lit);
    }
    false
}

/// Returns the seed with a literal mixed into it.
pub(crate) fn stirred(seed: u64, lit: Lit) -> u64 {
    mixed((lit.code() as u64).wrapping_add(seed.rotate_left(23)))
}

/// Returns a mixed number: each bit of the argument changes many of its bits.
#[inline(always)]
pub(crate) fn mixed(number: u64) -> u64 {
    mixed_sum(spread(number.wrapping_add(1)))
}

/// Returns a number, half mixed.
#[inline(always)]
fn spread(number: u64) -> u64 {
    let word = number.wrapping_mul(0x9E37_79B9_7F4A_7C15);
    word ^ (word >> 29)
}

/// Returns the other half of the mixing, which is the same of a sum as of its parts.
#[inline(always)]
fn mixed_sum(sum: u64) -> u64 {
    sum.wrapping_mul(0xBF58_476D_1CE4_E5B9)
}
