//! Marks of literals.
ghost use Rattle.std.specs.Prelude.{◌≡◌, ◌+◌, ◌*◌, ◌<◌, ◌≤◌, ◌^◌, ◌&&◌, ◌||◌, ◌==◌, ℕ, false, not, length, max, nat_eq, IfOk, OnErr, OnOk};
ghost use Rattle.std.specs.HashSet.{contains};
ghost use Rattle.clause_table.specs.Room.{spare_lits};

use crate::room::gets_room;
use sat_formula::Lit;
use std::alloc::{AllocError, Global};
use std::collections::HashSet;

/// Marks of literals: dense ones have slots, by their codes; sparse ones, whose codes are far above
/// the number of literals that were stored, are in a set.
#[derive(Drop)]
pub struct Marks {
    near: Vec<bool>,
    /// The codes of the marked literals without a slot.
    far: HashSet<usize>,
    /// How many literals were stored: there are at most four slots for each, spare ones aside.
    stored: u64,
    ghost few: { length near.items ≤ 4 * (stored + spare_lits) + 4 },
}

impl Marks {
    ghost use Rattle.clause_table.specs.Marks.{has_mark, near_marks, stored_count};

    /// Returns an empty set of marks. Allocates no memory.
    pub fn new(alloc: Global) -> Marks
        ensures marks { (l : ℕ) → has_mark result l ≡ false }
        ensures stored { stored_count result ≡ 0 }
    {
        Marks {
            near: Vec::new(alloc),
            far: HashSet::new(alloc),
            stored: 0,
        }
    }

    /// Lets tables grow with the number of stored literals. A number that is not greater than those
    /// before changes nothing.
    pub fn allow(&mut self, stored: u64)
        ensures marks { (l : ℕ) → has_mark self.new l ≡ has_mark self.old l }
        ensures stored { stored_count self.new ≡ max (stored_count self.old) stored }
    {
        self.stored = self.stored.max(stored);
    }

    /// Returns whether a literal is marked.
    #[inline(always)]
    pub fn has(&self, lit: Lit) -> bool
        ensures { result ≡ has_mark self.now lit }
    {
        self.has_in(&self.near, lit)
    }

    /// Returns the dense marks, for `has_in`.
    #[inline(always)]
    pub fn near(&self) -> &[bool]
        ensures { result.now ≡ near_marks self.now }
    {
        self.near.as_slice()
    }

    /// Returns whether a literal is marked, given the dense marks.
    #[inline(always)]
    pub fn has_in(&self, near: &[bool], lit: Lit) -> bool
        requires { near.now ≡ near_marks self.now }
        ensures { result ≡ has_mark self.now lit }
    {
        let code = lit.code();
        if code < near.len() {
            near[code]
        } else {
            self.has_far(code)
        }
    }

    #[cold]
    #[inline(never)]
    fn has_far(&self, code: usize) -> bool
        ensures { result ≡ contains nat_eq self.now.far code }
    {
        !self.far.is_empty() && self.far.contains(&code)
    }

    /// Marks a literal, and returns whether it was not marked before.
    ///
    /// # Errors
    ///
    /// `AllocError` if memory runs out; the marks are unchanged.
    #[inline(always)]
    pub fn insert(&mut self, lit: Lit) -> Result<bool, AllocError>
        ensures is_new { IfOk result (λ is_new. is_new ≡ not (has_mark self.old lit)) }
        ensures ok { OnOk result ((l : ℕ)
            → has_mark self.new l ≡ (l == lit || has_mark self.old l)) }
        ensures err { OnErr result ((l : ℕ) → has_mark self.new l ≡ has_mark self.old l) }
        ensures stored { stored_count self.new ≡ stored_count self.old }
    {
        let code = lit.code();
        if code >= self.near.len() {
            return self.insert_beyond(code);
        }
        if self.has(lit) {
            return Ok(false);
        }
        self.near[code] = true;
        Ok(true)
    }

    #[cold]
    #[inline(never)]
    fn insert_beyond(&mut self, code: usize) -> Result<bool, AllocError>
        requires beyond { length self.old.near.items ≤ code }
        requires small { code < 2 ^ 29 }
        ensures is_new { IfOk result (λ is_new. is_new ≡ not (has_mark self.old code)) }
        ensures ok { OnOk result ((l : ℕ)
            → has_mark self.new l ≡ (l == code || has_mark self.old l)) }
        ensures err { OnErr result ((l : ℕ) → has_mark self.new l ≡ has_mark self.old l) }
        ensures stored { stored_count self.new ≡ stored_count self.old }
    {
        if self.far.is_empty() && gets_room(code, self.stored) {
            self.near.resize(code + 1, false)?;
            self.near[code] = true;
            return Ok(true);
        }
        match self.far.insert(code) {
            Ok(is_new) => Ok(is_new),
            Err(_) => Err(AllocError),
        }
    }

    /// Takes the mark of a literal away, if it has one.
    #[inline(always)]
    pub fn clear(&mut self, lit: Lit)
        ensures marks { (l : ℕ) → has_mark self.new l ≡ (not (l == lit) && has_mark self.old l) }
        ensures stored { stored_count self.new ≡ stored_count self.old }
    {
        let code = lit.code();
        if code < self.near.len() {
            self.near[code] = false;
        } else {
            self.clear_far(code);
        }
    }

    #[cold]
    #[inline(never)]
    fn clear_far(&mut self, code: usize)
        requires { length self.old.near.items ≤ code }
        ensures marks { (l : ℕ) → has_mark self.new l ≡ (not (l == code) && has_mark self.old l) }
        ensures stored { stored_count self.new ≡ stored_count self.old }
    {
        self.far.remove(&code);
    }
}
