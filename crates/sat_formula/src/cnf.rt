//! Formulas: lists of clauses as they were given.
ghost use Rattle.std.specs.Prelude.{◌≡◌, ◌↔◌, [], ◌∷◌, ◌++◌, length, IsTrue, OnOk, OnErr};
ghost use Rattle.sat_formula.specs.Formula.{vars_with, var_count_of};

use crate::lit::Lit;
use std::alloc::{AllocError, Global};
use std::marker::Model;

/// A formula in conjunctive normal form: its clauses in the order in which they were added, each
/// with its literals as they were given.
#[derive(Drop)]
pub struct CnfFormula {
    lits: Vec<Lit>,
    lengths: Vec<usize>,
    var_count: usize,
}

impl Model for CnfFormula {
    ghost use Rattle.std.specs.Prelude.{ℕ, List};

    ghost Value = { List (List ℕ) };

    ghost use Rattle.sat_formula.specs.Formula.{cut, IsWhole};

    ghost view = { λ f. cut f.lengths.items f.lits.items };

    ghost invariant = { λ f. IsWhole f.lengths.items f.lits.items f.var_count };
}

impl CnfFormula {
    /// Returns the formula without clauses. Allocates no memory.
    pub fn new(alloc: Global) -> CnfFormula
        ensures { result ≡ [] }
    {
        CnfFormula {
            lits: Vec::new(alloc),
            lengths: Vec::new(alloc),
            var_count: 0,
        }
    }

    /// Adds a clause after all others.
    ///
    /// # Errors
    ///
    /// `AllocError` if memory runs out; the formula is unchanged.
    pub fn add_clause(&mut self, clause: &[Lit]) -> Result<(), AllocError>
        ensures ok { OnOk result (self.new ≡ self.old ++ clause.now ∷ []) }
        ensures err { OnErr result (self.new ≡ self.old) }
    {
        self.lengths.reserve(1)?;
        self.lits.extend_from_slice(clause)?;
        self.lengths.push_reserved(clause.len());
        self.var_count = count_vars(self.var_count, clause);
        Ok(())
    }

    /// Returns how many clauses there are.
    pub fn len(&self) -> usize
        ensures { result ≡ length self.now }
    {
        self.lengths.len()
    }

    /// Returns whether there is no clause.
    pub fn is_empty(&self) -> bool
        ensures { IsTrue result ↔ (self.now ≡ []) }
    {
        self.lengths.is_empty()
    }

    /// Returns the largest index of a variable and 1, or 0 where there is no literal.
    pub fn var_count(&self) -> usize
        ensures { result ≡ var_count_of self.now }
    {
        self.var_count
    }

    /// Returns the clauses, in their order.
    pub fn iter(&self) -> CnfClauses<'_>
        ensures { result ≡ self.now }
    {
        CnfClauses {
            lits: &self.lits,
            lengths: &self.lengths,
        }
    }
}

impl<'a> IntoIterator for &'a CnfFormula {
    type Item = &'a [Lit];

    type IntoIter = CnfClauses<'a>;

    ghost into_iter_gives = { λ formula clauses. clauses ≡ formula.now };

    fn into_iter(self) -> CnfClauses<'a> {
        self.iter()
    }
}

/// An iterator over the clauses of a formula, in order.
#[derive(Drop)]
pub struct CnfClauses<'a> {
    lits: &'a [Lit],
    lengths: &'a [usize],
}

impl<'a> Model for CnfClauses<'a> {
    ghost use Rattle.std.specs.Prelude.{◌≡◌, ℕ, List, sum, length};

    ghost Value = { List (List ℕ) };

    ghost use Rattle.sat_formula.specs.Formula.{cut};

    ghost view = { λ c. cut c.lengths.now c.lits.now };

    ghost invariant = { λ c. sum c.lengths.now ≡ length c.lits.now };
}

impl<'a> Iterator for CnfClauses<'a> {
    ghost use Rattle.std.specs.Iterator.{YieldsFirstBy, item_count};

    type Item = &'a [Lit];

    ghost next_gives = { YieldsFirstBy (λ clause. clause.now) (λ left. left) };

    ghost remaining = { item_count (λ left. left) };

    fn next(&mut self) -> Option<&'a [Lit]> {
        let (len, lengths) = self.lengths.split_first()?;
        let (clause, lits) = self.lits.split_at(*len);
        self.lengths = lengths;
        self.lits = lits;
        Some(clause)
    }
}

/// Returns the number of variables after one more clause: at least its largest index plus 1.
#[inline(always)]
pub(crate) fn count_vars(count: usize, clause: &[Lit]) -> usize
    ensures { result ≡ vars_with count clause.now }
{
    let mut most = count;
    'lits: for lit in clause {
        most = most.max(lit.index() + 1);
    }
    most
}
