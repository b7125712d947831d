//! How often each literal is in stored clauses.
ghost use Rattle.std.specs.Prelude.{◌≡◌, ◌+◌, ◌-◌, ◌*◌, ◌==◌, ◌<◌, ◌≤◌, ◌^◌, ℕ, if◌then◌else◌, length, max, min, nat_lt, slice_index, IsOk, OnOk};
ghost use Rattle.lrat_checker.specs.FarCounts.{far_count};
ghost use Rattle.clause_table.specs.Room.{spare_lits};
ghost use Rattle.lrat_rules.specs.Counts.{count_of};

use clause_table::gets_room;
use sat_formula::Lit;
use std::alloc::{AllocError, Global};
use std::collections::HashMap;

/// For each literal, how often it is in stored clauses, in four bytes. Dense literals are counted
/// by their codes in turn, and those whose codes are far above the number of literals that were
/// stored in a map.
#[derive(Drop)]
pub(crate) struct LitCounts {
    near: Vec<u32>,
    far: HashMap<usize, u32>,
    /// There may be four slots for each of this many literals, spare ones aside.
    stored: u64,
    ghost few: { length near.items ≤ 4 * (stored + spare_lits) + 4 },
}

impl LitCounts {
    ghost use Rattle.lrat_checker.specs.Counts.{lit_count};

    /// Returns counts of 0. Allocates no memory.
    pub(crate) fn new(alloc: Global) -> LitCounts
        ensures counts { (l : ℕ) → lit_count result l ≡ 0 }
        ensures stored { result.stored ≡ 0 }
    {
        LitCounts {
            near: Vec::new(alloc),
            far: HashMap::new(alloc),
            stored: 0,
        }
    }

    /// Returns how often the literal is in stored clauses.
    pub(crate) fn get(&self, lit: Lit) -> u64
        ensures { result ≡ lit_count self.now lit }
    {
        let near = self.near.get(lit.code()).copied().unwrap_or(0);
        let far = self.far.get(&lit.code()).copied().unwrap_or(0);
        u64::from(near) + u64::from(far)
    }

    /// One clause more is stored.
    ///
    /// A literal that is stored 2^32 - 1 times can be stored no more, which is returned as out of
    /// memory: these literals alone take 16 gigabytes. After an error the counts are unspecified.
    pub(crate) fn raise(&mut self, clause: &[Lit]) -> Result<(), AllocError>
        ensures counts { OnOk result ((l : ℕ)
            → lit_count self.new l ≡ count_of l clause.now + lit_count self.old l) }
        ensures stored { OnOk result
            (self.new.stored ≡ min (self.old.stored + length clause.now) (2 ^ 64 - 1)) }
    {
        self.stored = self.stored.saturating_add(clause.len() as u64);
        for lit in clause {
            self.add_one(*lit)?;
        }
        Ok(())
    }

    /// One clause less is stored.
    pub(crate) fn lower(&mut self, clause: &[Lit])
        ensures counts { (l : ℕ)
            → lit_count self.new l ≡ lit_count self.old l - count_of l clause.now }
        ensures stored { self.new.stored ≡ self.old.stored }
    {
        for lit in clause {
            self.take_one(*lit);
        }
    }

    fn add_one(&mut self, lit: Lit) -> Result<(), AllocError>
        ensures counts { OnOk result ((l : ℕ)
            → lit_count self.new l ≡ (if l == lit then 1 else 0) + lit_count self.old l) }
        ensures stored { self.new.stored ≡ self.old.stored }
        ensures memory { lit < length self.old.near.items → lit_count self.old lit < 2 ^ 32 - 1
            → IsOk result }
    {
        let code = lit.code();
        if code < self.near.len() || gets_room(code, self.stored) {
            add_near(&mut self.near, code)?;
        } else {
            add_far(&mut self.far, code)?;
        }
        Ok(())
    }

    #[inline(always)]
    fn take_one(&mut self, lit: Lit)
        ensures counts { (l : ℕ)
            → lit_count self.new l ≡ lit_count self.old l - (if l == lit then 1 else 0) }
        ensures stored { self.new.stored ≡ self.old.stored }
    {
        let code = lit.code();
        if !take_near(&mut self.near, code) {
            take_far(&mut self.far, code);
        }
    }
}

/// Counts a code once more in its slot.
fn add_near(near: &mut Vec<u32>, code: usize) -> Result<(), AllocError>
    requires { code < 2 ^ 29 }
    ensures counts { OnOk result ((l : ℕ) → slice_index near.new.items l
        ≡ (if l == code then 1 else 0) + slice_index near.old.items l) }
    ensures places { length near.new.items ≤ max (length near.old.items) (code + 1) }
    ensures memory { code < length near.old.items → slice_index near.old.items code < 2 ^ 32 - 1
        → IsOk result }
{
    make_room(near, code)?;
    let count = &mut near[code];
    *count = count.checked_add(1).ok_or(AllocError)?;
    Ok(())
}

/// Counts a code once more in the map.
#[cold]
#[inline(never)]
fn add_far(far: &mut HashMap<usize, u32>, code: usize) -> Result<(), AllocError>
    ensures { OnOk result ((l : ℕ)
        → far_count far.new l ≡ (if l == code then 1 else 0) + far_count far.old l) }
{
    let count = far.get(&code).copied().unwrap_or(0);
    let more = count.checked_add(1).ok_or(AllocError)?;
    far.insert(code, more)?;
    Ok(())
}

/// Counts a code once less in its slot, if it is counted there; returns whether it was.
#[inline(always)]
fn take_near(near: &mut Vec<u32>, code: usize) -> bool
    ensures counts { (l : ℕ) → slice_index near.new.items l
        ≡ slice_index near.old.items l - (if l == code then 1 else 0) }
    ensures taken { result ≡ nat_lt 0 (slice_index near.old.items code) }
    ensures places { length near.new.items ≡ length near.old.items }
{
    if code < near.len() && near[code] > 0 {
        near[code] -= 1;
        true
    } else {
        false
    }
}

/// Counts a code once less in the map, if it is counted there.
#[cold]
#[inline(never)]
fn take_far(far: &mut HashMap<usize, u32>, code: usize)
    ensures { (l : ℕ) → far_count far.new l ≡ far_count far.old l - (if l == code then 1 else 0) }
{
    let count = far.get(&code).copied().unwrap_or(0);
    if count <= 1 {
        far.remove(&code);
    } else if let Some(place) = far.get_mut(&code) {
        *place = count - 1;
    }
}

/// Makes a slot for the count of a code.
pub(crate) fn make_room(near: &mut Vec<u32>, code: usize) -> Result<(), AllocError>
    requires { code < 2 ^ 62 }
    ensures same { (l : ℕ) → slice_index near.new.items l ≡ slice_index near.old.items l }
    ensures places { length near.new.items ≤ max (length near.old.items) (code + 1) }
    ensures room { OnOk result (code < length near.new.items) }
    ensures memory { code < length near.old.items
        → IsOk result × (near.new ≡ near.old) }
{
    if near.len() <= code {
        near.resize(code + 1, 0)?;
    }
    Ok(())
}
