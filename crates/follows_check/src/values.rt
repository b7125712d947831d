//! The values of variables, under one model after the other.
ghost use Rattle.std.specs.Prelude.{◌≡◌, ◌==◌, ◌≤◌, ℕ, false, length, not, IfOk, OnOk, if◌then◌else◌};
ghost use Rattle.sat_rules.specs.Clauses.{clause_true, is_negative, lit_true, var_of};
ghost use Rattle.sat_formula.specs.Formula.{var_count_of};

use sat_formula::{CnfFormula, Lit};
use std::alloc::{AllocError, Global};
use std::collections::HashSet;

/// For each literal of the formula this many variables have a place at most.
const PLACES_EACH: usize = 16;

/// The values of all variables.
///
/// The variables of most formulas have a place each. A large variable of a short formula is in a
/// set while it is true, so that the memory used is that of the literals, whatever their numbers.
#[derive(Drop)]
pub(crate) struct Values {
    /// By the index, whether the variable is true.
    near: Vec<bool>,
    /// The other variables that are true, by their indices.
    far: HashSet<usize>,
}

impl Values {
    ghost use Rattle.follows_check.specs.Minimal.{assigned, truth_in};

    /// Returns values by which all variables are false, with places for those of a formula.
    pub(crate) fn new(alloc: Global, formula: &CnfFormula) -> Result<Values, AllocError>
        ensures { IfOk result (λ values. (x : ℕ) → truth_in values x ≡ false) }
    {
        let mut near = Vec::new(alloc);
        near.resize(place_count(formula), false)?;
        Ok(Values {
            near,
            far: HashSet::new(alloc),
        })
    }

    /// Assigns the variables that a model lists.
    pub(crate) fn assign(&mut self, model: &[Lit]) -> Result<(), AllocError>
        ensures { OnOk result ((x : ℕ) → truth_in self.new x
            ≡ assigned model.now (truth_in self.old) x) }
    {
        for lit in model {
            self.set(*lit)?;
        }
        Ok(())
    }

    /// Makes a literal true.
    fn set(&mut self, lit: Lit) -> Result<(), AllocError>
        ensures { OnOk result ((x : ℕ) → truth_in self.new x
            ≡ (if x == var_of lit then not (is_negative lit) else truth_in self.old x)) }
    {
        let index = lit.index();
        if index < self.near.len() {
            self.near[index] = lit.is_positive();
            Ok(())
        } else {
            self.set_far(index, lit.is_positive())
        }
    }

    /// Gives a variable without a place a value.
    fn set_far(&mut self, index: usize, value: bool) -> Result<(), AllocError>
        requires { length self.now.near.items ≤ index }
        ensures { OnOk result ((x : ℕ) → truth_in self.new x
            ≡ (if x == index then value else truth_in self.old x)) }
    {
        if !value {
            self.far.remove(&index);
            return Ok(());
        }
        match self.far.insert(index) {
            Ok(_) => Ok(()),
            Err(_) => Err(AllocError),
        }
    }

    /// Returns whether a literal of the clause is true.
    pub(crate) fn meet(&self, clause: &[Lit]) -> bool
        ensures { result ≡ clause_true (truth_in self.now) clause.now }
    {
        clause.iter().any(|lit| self.is_true(*lit))
    }

    #[inline(always)]
    fn is_true(&self, lit: Lit) -> bool
        ensures { result ≡ lit_true (truth_in self.now) lit }
    {
        let value = self.value(lit.index());
        if lit.is_negative() { !value } else { value }
    }

    #[inline(always)]
    fn value(&self, index: usize) -> bool
        ensures { result ≡ truth_in self.now index }
    {
        if index < self.near.len() {
            self.near[index]
        } else {
            self.far.contains(&index)
        }
    }
}

/// Returns how many variables have a place: all of them, unless the formula has few literals.
fn place_count(formula: &CnfFormula) -> usize
    ensures { result ≤ var_count_of formula.now }
{
    let mut lits = 0_usize;
    for clause in formula {
        lits = lits.saturating_add(clause.len());
    }
    lits.saturating_mul(PLACES_EACH).min(formula.var_count())
}
