//! Long buckets that need not be walked again.
ghost use Rattle.std.specs.Prelude.{◌≡◌, ◌↔◌, ◌==◌, ℕ, Some, None, if◌then◌else◌, IsTrue, OnOk, OnErr};
ghost use Rattle.clause_store.specs.Idle.{idle_at};

use proof_bytes::hash::ClauseHash;
use std::alloc::{AllocFailed, Global};
use std::collections::HashMap;

/// A bucket of more clauses is not walked again before a value was given.
///
/// Almost all buckets hold one clause, and to remember these would cost more than to walk them.
pub const LONG_BUCKET: usize = 8;

/// The hashes of long buckets whose walk changed nothing, each with the length of the trail then.
///
/// While the trail has that length, another walk changes nothing either.
#[derive(Drop)]
pub struct IdleBuckets {
    alloc: Global,
    found: HashMap<ClauseHash, usize>,
}

impl IdleBuckets {
    /// Returns records of no idle bucket. Allocates no memory.
    pub fn new(alloc: Global) -> IdleBuckets
        ensures { (h : ℕ) → idle_at result h ≡ None }
    {
        IdleBuckets {
            alloc,
            found: HashMap::new(alloc),
        }
    }

    /// None is known to be idle. What is found next grows anew, as a table that was large once
    /// would cost its size at each check.
    #[inline]
    pub fn forget(&mut self)
        ensures { (h : ℕ) → idle_at self.new h ≡ None }
    {
        if !self.found.is_empty() {
            self.found = HashMap::new(self.alloc);
        }
    }

    /// Returns whether the bucket was found idle at a trail of this length.
    pub fn has(&self, hash: ClauseHash, given: usize) -> bool
        ensures { IsTrue result ↔ (idle_at self.now hash ≡ Some given) }
    {
        match self.found.get(&hash) {
            Some(at) => *at == given,
            None => false,
        }
    }

    /// Records that the bucket was found idle at a trail of this length.
    ///
    /// # Errors
    ///
    /// `AllocFailed` if memory runs out; the records are unchanged.
    pub fn add(&mut self, hash: ClauseHash, given: usize) -> Result<(), AllocFailed<(u64, usize)>>
        ensures ok { OnOk result ((h : ℕ) → idle_at self.new h
            ≡ (if hash == h then Some given else idle_at self.old h)) }
        ensures err { OnErr result ((h : ℕ) → idle_at self.new h ≡ idle_at self.old h) }
    {
        self.found.insert(hash, given)?;
        Ok(())
    }
}
