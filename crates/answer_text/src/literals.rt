//! Lists of literals, as sets.
ghost use Rattle.std.specs.Prelude.{◌≡◌, ℕ, nat_eq, List, [], ◌∷◌, ◌++◌, false, OnOk};
ghost use Rattle.std.specs.HashSet.{contains};

use sat_formula::Lit;
use std::alloc::{AllocError, Global};
use std::collections::HashSet;

/// For each literal listed this many marks are made at most.
const MARKS_EACH: usize = 16;

/// The literals that an answer lists.
///
/// The literals of most answers are marked by their codes. A literal of a large variable in a short
/// answer is in a set, so that the memory used is that of the literals listed, whatever their
/// numbers.
#[derive(Drop)]
pub struct Literals {
    /// By the code, whether the literal is listed. The others are in `far`.
    marks: Vec<bool>,
    /// The codes of literals that are not marked.
    far: HashSet<usize>,
    has_far: bool,
    /// Codes below it may be marked.
    most: usize,
    ghost near: { has_far ≡ false → (code : ℕ) → contains nat_eq far code ≡ false },
}

impl Literals {
    ghost use Rattle.answer_text.specs.Literals.{Adds, HasThe, has_lit, is_met};

    /// Returns an empty set of literals. Allocates no memory.
    pub(crate) fn new(alloc: Global) -> Literals
        ensures { HasThe [] result }
    {
        Literals {
            marks: Vec::new(alloc),
            far: HashSet::new(alloc),
            has_far: false,
            most: 0,
        }
    }

    /// Adds a literal.
    pub(crate) fn add(&mut self, lit: Lit) -> Result<(), AllocError>
        ensures { OnOk result ((lits : List ℕ) → HasThe lits self.old
            → HasThe (lits ++ lit ∷ []) self.new) }
    {
        self.most = self.most.saturating_add(MARKS_EACH);
        if lit.code() < self.most {
            self.mark(lit)
        } else {
            self.put_far(lit)
        }
    }

    fn mark(&mut self, lit: Lit) -> Result<(), AllocError>
        ensures { OnOk result (Adds self.old self.new lit) }
    {
        let code = lit.code();
        if code >= self.marks.len() {
            self.marks.resize(code + 1, false)?;
        }
        self.marks[code] = true;
        Ok(())
    }

    fn put_far(&mut self, lit: Lit) -> Result<(), AllocError>
        ensures { OnOk result (Adds self.old self.new lit) }
    {
        self.has_far = true;
        match self.far.insert(lit.code()) {
            Ok(_) => Ok(()),
            Err(_) => Err(AllocError),
        }
    }

    /// Returns whether the literal is listed.
    #[inline(always)]
    pub fn contains(&self, lit: Lit) -> bool
        ensures { result ≡ has_lit self.now lit }
    {
        let code = lit.code();
        if code < self.marks.len() && self.marks[code] {
            return true;
        }
        self.has_far && self.far.contains(&code)
    }

    /// Returns whether a literal of the clause is listed.
    pub fn meets(&self, clause: &[Lit]) -> bool
        ensures { result ≡ is_met (has_lit self.now) clause.now }
    {
        clause.iter().any(|lit| self.contains(*lit))
    }
}
