//! Canonical lists of literals: ascending, without repeats.
ghost use Rattle.std.specs.Prelude.{◌≡◌, IsTrue, OnOk, IfOk, OnErr, []};
ghost use Rattle.sat_rules.specs.Clauses.{is_canonical, is_tautology};
ghost use Rattle.checker_rules.specs.Canonical.{canonical};
ghost use Rattle.checker_parts.specs.Subsets.{is_subset_by};
ghost use Rattle.checker_parts.specs.RisingVars.{has_rising_vars};

use sat_formula::lit::Lit;
use std::alloc::AllocError;
use std::cmp::Ordering;

/// Replaces `target` by the canonical list of `src`, and returns whether that is a tautology.
///
/// # Errors
///
/// `AllocError` if memory runs out; `target` is empty then.
pub fn copy_canonical(target: &mut Vec<Lit>, src: &[Lit]) -> Result<bool, AllocError>
    ensures items { OnOk result (target.new.items ≡ canonical src.now) }
    ensures canonical { OnOk result (IsTrue (is_canonical target.new.items)) }
    ensures tautology { IfOk result (λ b. b ≡ is_tautology (canonical src.now)) }
    ensures err { OnErr result (target.new.items ≡ []) }
{
    target.clear();
    target.extend_from_slice(src)?;
    if has_rising_vars(src) {
        return Ok(false);
    }
    target.sort_unstable();
    target.dedup();
    Ok(has_opposites(target.as_slice()))
}

/// Returns whether the variables rise from literal to literal. Such a list is canonical and no
/// tautology.
pub fn has_rising_vars(lits: &[Lit]) -> bool
    ensures { result ≡ has_rising_vars lits.now }
{
    let Some((first, others)) = lits.split_first() else {
        return true;
    };
    let mut last = first.index();
    for lit in others {
        let index = lit.index();
        if index <= last {
            return false;
        }
        last = index;
    }
    true
}

/// Returns whether a canonical list has opposite literals: they are neighbours, since their codes
/// differ by 1.
fn has_opposites(lits: &[Lit]) -> bool
    requires { IsTrue (is_canonical lits.now) }
    ensures { result ≡ is_tautology lits.now }
{
    let mut rest = lits;
    while let Some((first, others)) = rest.split_first() {
        if let Some(second) = others.first() {
            if first.index() == second.index() {
                return true;
            }
        }
        rest = others;
    }
    false
}

/// Returns whether each literal of `subset` is in `superset`, and, if `strict`, some literal of
/// `superset` is not in `subset`.
pub fn is_subset(subset: &[Lit], superset: &[Lit], strict: bool) -> bool
    requires subset { IsTrue (is_canonical subset.now) }
    requires superset { IsTrue (is_canonical superset.now) }
    ensures { result ≡ is_subset_by strict subset.now superset.now }
{
    let mut subset = subset;
    let mut superset = superset;
    let mut strict = strict;
    while let Some((present, later)) = superset.split_first() {
        let Some((wanted, others)) = subset.split_first() else {
            return true;
        };
        match wanted.cmp(present) {
            Ordering::Less => return false,
            Ordering::Equal => subset = others,
            Ordering::Greater => strict = false,
        }
        superset = later;
    }
    subset.is_empty() && !strict
}
