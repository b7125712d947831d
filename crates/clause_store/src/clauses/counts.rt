//! How many stored clauses hold each literal.
ghost use Rattle.std.specs.Prelude.{◌≡◌, ◌+◌, ◌-◌, ◌*◌, ◌^◌, ◌<◌, ◌≤◌, ◌++◌, ℕ, [], false, true, length, replicate, IfOk, OnOk, slice_index, slice_set};
ghost use Rattle.sat_rules.specs.Clauses.{has, is_canonical};
ghost use Rattle.checker_rules.specs.Canonical.{var_bound};
ghost use Rattle.clause_store.specs.Counts.{HoldOneMore};

use checker_parts::variables::LitData;
use sat_formula::lit::Lit;
use std::alloc::{AllocError, Global};
use std::marker::Model;

/// Counts by the literals' codes, in four bytes each or in eight.
#[derive(Drop)]
enum ByCode {
    Narrow(Vec<u32>),
    Wide(Vec<u64>),
}

/// For each literal of a known variable, the number of clauses that hold it.
///
/// A count takes four bytes, until one would pass them: from then on each takes eight.
#[derive(Drop)]
pub struct LitCounts {
    by_code: ByCode,
}

impl Model for LitCounts {
    ghost use Rattle.std.specs.Prelude.{ℕ, List};
    ghost use Rattle.clause_store.specs.CountsByCode.{counts_in};

    ghost Value = { List ℕ };

    ghost view = { λ c. counts_in c.by_code };
}

impl LitCounts {
    /// Returns counts without variables. Allocates no memory.
    pub fn new(alloc: Global) -> LitCounts
        ensures { result ≡ [] }
    {
        LitCounts::of(Vec::new(alloc))
    }

    /// Returns the counts that are given, by the literals' codes.
    pub fn of(counts: Vec<u32>) -> LitCounts
        ensures { result ≡ counts.items }
    {
        LitCounts {
            by_code: ByCode::Narrow(counts),
        }
    }

    /// Returns the literal's data. No clause has it if its variable is unknown.
    pub fn get(&self, lit: Lit) -> LitData
        ensures { result.clause_count ≡ slice_index self.now lit }
    {
        let code = lit.code();
        let clause_count = match &self.by_code {
            ByCode::Narrow(counts) => counts.get(code).copied().unwrap_or(0) as usize,
            ByCode::Wide(counts) => counts.get(code).copied().unwrap_or(0) as usize,
        };
        LitData { clause_count }
    }

    /// Makes the literals of the first `vars` variables known. No clause has a new one.
    ///
    /// # Errors
    ///
    /// `AllocError` if memory runs out.
    pub fn know(&mut self, vars: usize) -> Result<(), AllocError>
        ensures { OnOk result (self.new ≡ self.old ++ replicate (2 * vars - length self.old) 0) }
    {
        let lits = vars.checked_mul(2).ok_or(AllocError)?;
        match &mut self.by_code {
            ByCode::Narrow(counts) if counts.len() < lits => counts.resize(lits, 0),
            ByCode::Wide(counts) if counts.len() < lits => counts.resize(lits, 0),
            _ => Ok(()),
        }
    }

    /// Counts one more clause with these literals.
    ///
    /// # Errors
    ///
    /// `AllocError` if memory runs out; the counts are unspecified then.
    pub fn raise(&mut self, lits: &[Lit]) -> Result<(), AllocError>
        requires canonical { is_canonical lits.now ≡ true }
        requires known { 2 * var_bound lits.now ≤ length self.old }
        ensures held { OnOk result (HoldOneMore lits.now self.old self.new) }
        ensures known { OnOk result (length self.new ≡ length self.old) }
    {
        for lit in lits {
            self.raise_one(*lit)?;
        }
        Ok(())
    }

    /// Counts one more clause with the literal. A count that is full makes all take eight bytes.
    fn raise_one(&mut self, lit: Lit) -> Result<(), AllocError>
        requires { lit < length self.old }
        ensures { OnOk result (self.new
            ≡ slice_set self.old lit (slice_index self.old lit + 1)) }
    {
        match &mut self.by_code {
            ByCode::Narrow(counts) => {
                if !add_narrow(counts, lit) {
                    let mut wide = copy_wide(counts)?;
                    add_wide(&mut wide, lit)?;
                    self.by_code = ByCode::Wide(wide);
                }
                Ok(())
            }
            ByCode::Wide(counts) => add_wide(counts, lit),
        }
    }

    /// Counts one clause less with these literals.
    pub fn lower(&mut self, lits: &[Lit])
        requires canonical { is_canonical lits.now ≡ true }
        requires held { (l : ℕ) → has l lits.now ≡ true → 0 < slice_index self.old l }
        ensures held { HoldOneMore lits.now self.new self.old }
        ensures known { length self.new ≡ length self.old }
    {
        for lit in lits {
            self.lower_one(*lit);
        }
    }

    /// Counts one clause less with the literal.
    fn lower_one(&mut self, lit: Lit)
        requires { 0 < slice_index self.old lit }
        ensures { self.new ≡ slice_set self.old lit (slice_index self.old lit - 1) }
    {
        let code = lit.code();
        match &mut self.by_code {
            ByCode::Narrow(counts) => counts[code] -= 1,
            ByCode::Wide(counts) => counts[code] -= 1,
        }
    }
}

/// Counts one more clause with the literal, unless its count is full. Returns whether it was not.
fn add_narrow(counts: &mut Vec<u32>, lit: Lit) -> bool
    requires { lit < length counts.old.items }
    ensures added { result ≡ true → counts.new.items
        ≡ slice_set counts.old.items lit (slice_index counts.old.items lit + 1) }
    ensures full { result ≡ false → 2 ^ 32 ≤ slice_index counts.old.items lit + 1 }
    ensures unchanged { result ≡ false → counts.new.items ≡ counts.old.items }
{
    let count = &mut counts[lit.code()];
    match count.checked_add(1) {
        Some(raised) => {
            *count = raised;
            true
        }
        None => false,
    }
}

fn copy_wide(counts: &Vec<u32>) -> Result<Vec<u64>, AllocError>
    ensures { IfOk result (λ wide. wide.items ≡ counts.now.items) }
{
    let mut wide = Vec::with_capacity(*counts.allocator(), counts.len())?;
    for count in counts {
        wide.push(*count as u64)?;
    }
    Ok(wide)
}

/// Counts one more clause with the literal.
///
/// No count exceeds 64 bits, since each counted clause has its own id. The contract here does not
/// say so, and the error stands for a sum that never occurs.
fn add_wide(counts: &mut Vec<u64>, lit: Lit) -> Result<(), AllocError>
    requires { lit < length counts.old.items }
    ensures { OnOk result (counts.new.items
        ≡ slice_set counts.old.items lit (slice_index counts.old.items lit + 1)) }
{
    let count = &mut counts[lit.code()];
    *count = count.checked_add(1).ok_or(AllocError)?;
    Ok(())
}
