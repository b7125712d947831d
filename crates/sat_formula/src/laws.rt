//! Laws of variables, literals and DIMACS text.
ghost use Rattle.std.specs.Prelude.{◌≡◌, ◌==◌, ◌<◌, ℕ, pos, neg_ℤ, true, false, Some, IsTrue};
ghost use Rattle.std.specs.Ordering.{nat_cmp};
ghost use Rattle.sat_formula.specs.LineLaws.{BytesAreLines, WorkedNotes, WorkedTexts};
ghost use Rattle.sat_formula.specs.Vars.{index_of, indexes_of, dimacs_lit, lit_code};
ghost use Rattle.sat_formula.specs.declared.lit.Var.{Var};

use crate::lit::{Lit, Var};
use std::hash::Hash;

/// Variables are the same, compare and hash as their indexes do.
pub fn vars_compare_by_index()
    ensures same { (a b : Var) → index_of a ≡ index_of b → a ≡ b }
    ensures eq { (a b : Var) → ⟦<Var as PartialEq>⟧.eq a b ≡ (index_of a == index_of b) }
    ensures order { (a b : Var) → ⟦<Var as Ord>⟧.cmp a b ≡ nat_cmp (index_of a) (index_of b) }
    ensures hash { (a b : Var) → IsTrue (⟦<Var as PartialEq>⟧.eq a b)
        → ⟦<Var as Hash>⟧.hash_input a ≡ ⟦<Var as Hash>⟧.hash_input b }
{}

/// Literals compare and hash as their codes do.
pub fn lits_compare_by_code()
    ensures eq { (a b : ℕ) → ⟦<Lit as PartialEq>⟧.eq a b ≡ (a == b) }
    ensures order { (a b : ℕ) → ⟦<Lit as Ord>⟧.cmp a b ≡ nat_cmp a b }
    ensures hash { (a b : ℕ) → IsTrue (⟦<Lit as PartialEq>⟧.eq a b)
        → ⟦<Lit as Hash>⟧.hash_input a ≡ ⟦<Lit as Hash>⟧.hash_input b }
{}

/// A variable is the one of its index.
pub fn from_index_of_index(var: Var) -> Option<Var>
    ensures { indexes_of result ≡ Some (index_of var) }
{
    Var::from_index(var.index())
}

/// A variable is the one of its number.
pub fn var_from_its_number(var: Var) -> Option<Var>
    ensures { indexes_of result ≡ Some (index_of var) }
{
    Var::from_dimacs(var.to_dimacs())
}

/// A literal is the one of its code.
pub fn from_code_of_code(lit: Lit) -> Option<Lit>
    ensures { result ≡ Some lit }
{
    Lit::from_code(lit.code())
}

/// A literal is the one of its number.
pub fn lit_from_its_number(lit: Lit) -> Option<Lit>
    ensures { result ≡ Some lit }
{
    Lit::from_dimacs(lit.to_dimacs())
}

/// The literal of a number in a text has this number.
pub fn literals_are_their_numbers()
    ensures positive { (value : ℕ) → 0 < value
        → dimacs_lit (lit_code value false) ≡ pos value }
    ensures negative { (value : ℕ) → 0 < value
        → dimacs_lit (lit_code value true) ≡ neg_ℤ (pos value) }
{}

/// A literal is the negation of its negation.
pub fn not_of_not(lit: Lit) -> Lit
    ensures { result ≡ lit }
{
    !!lit
}

/// A text that is read byte after byte says what its lines say.
pub fn bytes_are_lines()
    ensures { BytesAreLines }
{}

/// What some texts say.
pub fn worked_texts()
    ensures { WorkedTexts }
{}

/// The lines of their clauses, and their headers.
pub fn worked_notes()
    ensures { WorkedNotes }
{}
