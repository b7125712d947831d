//! Which literals are true.
ghost use Rattle.std.specs.Prelude.{◌≡◌, ◌<◌, ◌-◌, ◌∷◌, ◌++◌, [], ℕ, if◌then◌else◌, length, nat_eq, take, MatchOption, MatchResult, OnErr, OnOk, Some};
ghost use Rattle.std.specs.List.{list_all, list_any};
ghost use Rattle.sat_rules.specs.Clauses.{has, is_falsified, unfalsified};
ghost use Rattle.sat_rules.specs.Named.{negated_set};
ghost use Rattle.lrat_rules.specs.Causes.{not_unit};
ghost use Rattle.lrat_rules.specs.Groups.{add_negated};
ghost use Rattle.lrat_rules.specs.Propagation.{Ending, by_left, stuck};
ghost use Rattle.clause_table.specs.Values.{IsGrown, among, lits_besides, with_lit};

use crate::marks::Marks;
use sat_formula::Lit;
use std::alloc::{AllocError, Global};
use std::marker::Model;

/// The literals that are true while a line is checked, in the order in which they became so. A
/// literal and its negation can both be.
#[derive(Drop)]
pub struct Values {
    /// Of the negations of these literals: a walk over a clause looks for those.
    marks: Marks,
    trail: Vec<Lit>,
}

impl Model for Values {
    ghost use Rattle.std.specs.Prelude.{ℕ, List};
    ghost use Rattle.clause_table.specs.Values.{IsMarked, true_by};

    ghost Value = { List ℕ };

    ghost view = { λ v. v.trail.items };

    ghost invariant = { λ v. IsMarked (true_by v.marks) v.trail.items };
}

/// The literals of a clause that are not false.
#[derive(Clone, Copy)]
pub enum Left {
    /// None.
    Nothing,
    /// One, perhaps repeated.
    One(Lit),
    /// Two, or more.
    More,
}

impl Values {
    ghost use Rattle.clause_table.specs.Lefts.{on_left};

    /// Returns the empty assignment. Allocates no memory.
    pub fn new(alloc: Global) -> Values
        ensures { result ≡ [] }
    {
        Values {
            marks: Marks::new(alloc),
            trail: Vec::new(alloc),
        }
    }

    /// Returns how many literals are true.
    pub fn len(&self) -> usize
        ensures { result ≡ length self.now }
    {
        self.trail.len()
    }

    /// Returns the literals that are true, in the order in which they became so.
    pub fn lits(&self) -> &[Lit]
        ensures { result.now ≡ self.now }
    {
        self.trail.as_slice()
    }

    /// Allows slots for the literals of a formula that stores this many.
    pub fn allow(&mut self, stored: u64)
        ensures { self.new ≡ self.old }
    {
        self.marks.allow(stored);
    }

    /// Returns whether a literal is true.
    #[inline(always)]
    pub fn is_true(&self, lit: Lit) -> bool
        ensures { result ≡ has lit self.now }
    {
        self.marks.has(!lit)
    }

    /// Assigns true to a literal.
    ///
    /// # Errors
    ///
    /// `AllocError` if memory runs out; the assignment is unchanged.
    #[inline(always)]
    pub fn set(&mut self, lit: Lit) -> Result<(), AllocError>
        ensures { MatchResult result (λ _. self.new ≡ with_lit lit self.old)
            (λ _. self.new ≡ self.old) }
    {
        if !self.marks.insert(!lit)? {
            return Ok(());
        }
        match self.trail.push(lit) {
            Ok(()) => Ok(()),
            Err(_) => {
                self.marks.clear(!lit);
                Err(AllocError)
            }
        }
    }

    /// Assigns true to the negations of the literals of a clause, except to that of `besides`.
    ///
    /// # Errors
    ///
    /// `AllocError` if memory runs out; a beginning of the negations is assigned then.
    pub fn negate(&mut self, clause: &[Lit], besides: Option<Lit>) -> Result<(), AllocError>
        ensures set { OnOk result
            (among self.new ≡ add_negated (lits_besides besides clause.now) (among self.old)) }
        ensures grown { OnOk result (IsGrown self.old self.new) }
        ensures err { OnErr result (IsGrown self.old self.new) }
    {
        for lit in clause {
            if Some(*lit) != besides {
                self.set(!*lit)?;
            }
        }
        Ok(())
    }

    /// Assigns true to the negations of the literals of a clause, and to no other literal.
    ///
    /// # Errors
    ///
    /// `AllocError` if memory runs out; a beginning of the negations is assigned then.
    pub fn negate_alone(&mut self, clause: &[Lit]) -> Result<(), AllocError>
        ensures { OnOk result (among self.new ≡ negated_set clause.now) }
    {
        self.clear();
        self.negate(clause, None)
    }

    /// No literal is true from here on.
    fn clear(&mut self)
        ensures { self.new ≡ [] }
    {
        let mut rest = self.trail.as_slice();
        while let Some((lit, others)) = rest.split_last() {
            self.marks.clear(!*lit);
            rest = others;
        }
        self.trail.clear();
    }

    /// Only the literals that became true first are true from here on.
    pub fn undo(&mut self, len: usize)
        ensures { self.new ≡ take len self.old }
    {
        while self.len() > len {
            self.forget_last();
        }
    }

    fn forget_last(&mut self)
        requires { 0 < length self.old }
        ensures { self.new ≡ take (length self.old - 1) self.old }
    {
        if let Some(lit) = self.trail.pop() {
            self.marks.clear(!lit);
        }
    }

    /// Returns whether a literal of a clause, except one, is true.
    pub fn some_true(&self, clause: &[Lit], besides: Lit) -> bool
        ensures { result ≡ list_any (among self.now) (lits_besides (Some besides) clause.now) }
    {
        clause
            .iter()
            .filter(|lit| **lit != besides)
            .any(|lit| self.is_true(*lit))
    }

    /// Returns the literals of a clause that are not false.
    ///
    /// Nearly all that a check looks at are false. They are passed over by one comparison each, in
    /// loops that do nothing else.
    pub fn left(&self, clause: &[Lit]) -> Left
        ensures { (none : Ending) (one : ℕ → Ending)
            → by_left (unfalsified (among self.now) clause.now) none one
            ≡ on_left result none one }
    {
        let Some((lit, others)) = self.last_left(clause) else {
            return Left::Nothing;
        };
        if !self.are_false(others) {
            return self.left_of_several(clause, *lit);
        }
        Left::One(*lit)
    }

    /// Returns the last literal of a clause that is not false, and what comes before it. From the
    /// end on, only the number of remaining literals changes.
    #[inline(always)]
    fn last_left<'a>(&self, clause: &'a [Lit]) -> Option<(&'a Lit, &'a [Lit])>
        ensures { MatchOption result (unfalsified (among self.now) clause.now ≡ [])
            (λ found. unfalsified (among self.now) clause.now
            ≡ unfalsified (among self.now) found.1.now ++ found.0.now ∷ []) }
    {
        let near = self.marks.near();
        let mut rest = clause;
        while let Some((lit, others)) = rest.split_last() {
            if !self.marks.has_in(near, *lit) {
                return Some((lit, others));
            }
            rest = others;
        }
        None
    }

    /// Returns whether all of these literals are false.
    #[inline(always)]
    pub fn are_false(&self, others: &[Lit]) -> bool
        ensures { result ≡ is_falsified (among self.now) others.now }
    {
        let near = self.marks.near();
        for other in others {
            if !self.marks.has_in(near, *other) {
                return false;
            }
        }
        true
    }

    /// Returns the literals of a clause that are not false, where this one is among them and not
    /// alone. In a good line it is repeated then, which is seldom.
    #[cold]
    #[inline(never)]
    fn left_of_several(&self, clause: &[Lit], lit: Lit) -> Left
        ensures { (none : Ending) (one : ℕ → Ending) → on_left result none one
            ≡ (if list_all (nat_eq lit) (unfalsified (among self.now) clause.now) then one lit
            else stuck not_unit) }
    {
        for other in clause {
            if *other != lit && !self.marks.has(*other) {
                return Left::More;
            }
        }
        Left::One(lit)
    }
}
