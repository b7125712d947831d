//! Variables and literals.
ghost use Rattle.std.specs.Prelude.{◌≡◌, ◌↔◌, ◌+◌, ◌-◌, ◌*◌, ◌<◌, ◌≤◌, ◌^◌, ◌<ℤ◌, ◌≤ℤ◌, ℕ, pos, unsigned_abs, SomeIff, IfSome, IsSome, not, if◌then◌else◌};
ghost use Rattle.std.specs.Coded.{coded_ℕ};
ghost use Rattle.sat_rules.specs.Clauses.{is_negative, negate, var_of};

use std::marker::Model;
use std::ops::Not;

/// A variable, named by its index.
#[derive(Clone, Copy, Debug, PartialEq, Eq, PartialOrd, Ord, Hash)]
pub struct Var {
    index: u32,
    pub ghost small: { index < 2 ^ 28 },
}

/// A literal, named by its code: twice the index of its variable, and 1 more where it is negative.
#[derive(Clone, Copy, Debug, PartialEq, Eq, PartialOrd, Ord, Hash)]
pub struct Lit {
    code: u32,
}

impl Model for Lit {
    ghost Value = { ℕ };

    ghost coded = { coded_ℕ };

    ghost view = { λ l. l.code };

    ghost inverse = { λ n. record { code = n } };

    ghost invariant = { λ l. l.code < 2 ^ 29 };
}

impl Var {
    ghost use Rattle.sat_formula.specs.Vars.{index_of, indexes_of, dimacs_var};

    /// This many variables there can be at most.
    pub const MAX_COUNT: usize = 0x1000_0000;

    /// Returns `MAX_COUNT`.
    pub const fn max_count() -> usize
        ensures { result ≡ 2 ^ 28 }
    {
        Var::MAX_COUNT
    }

    /// Returns the variable of an index below `MAX_COUNT`.
    pub fn from_index(index: usize) -> Option<Var>
        ensures { SomeIff (indexes_of result) (index < 2 ^ 28) index }
    {
        if index < Var::MAX_COUNT {
            Some(Var {
                index: index as u32,
            })
        } else {
            None
        }
    }

    /// Returns the variable of a number from 1 to `MAX_COUNT`.
    pub fn from_dimacs(number: i64) -> Option<Var>
        ensures value { IfSome result (λ var. dimacs_var (index_of var) ≡ number) }
        ensures range { IsSome result ↔ ((pos 0 <ℤ number) × (number ≤ℤ pos (2 ^ 28))) }
    {
        if number > 0 && number <= Var::MAX_COUNT as i64 {
            Some(Var {
                index: (number - 1) as u32,
            })
        } else {
            None
        }
    }

    /// Returns the index of the variable, which is below `MAX_COUNT`.
    pub fn index(self) -> usize
        ensures value { result ≡ index_of self }
        ensures bound { result < 2 ^ 28 }
    {
        self.index as usize
    }

    /// Returns the index and 1.
    pub fn to_dimacs(self) -> i64
        ensures { result ≡ dimacs_var (index_of self) }
    {
        self.index as i64 + 1
    }

    /// Returns the literal of this variable, positive or negative.
    pub fn lit(self, positive: bool) -> Lit
        ensures { result ≡ 2 * index_of self + (if positive then 0 else 1) }
    {
        Lit {
            code: self.index * 2 + !positive as u32,
        }
    }
}

impl Lit {
    ghost use Rattle.sat_formula.specs.Vars.{index_of, dimacs_lit, lit_code, IsMapped};
    ghost use Rattle.sat_formula.specs.declared.lit.Var.{Var};

    /// Returns the literal of a code below twice `Var::MAX_COUNT`.
    pub fn from_code(code: usize) -> Option<Lit>
        ensures { SomeIff result (code < 2 ^ 29) code }
    {
        if code < 2 * Var::MAX_COUNT {
            Some(Lit { code: code as u32 })
        } else {
            None
        }
    }

    /// Returns the literal of a number with an absolute value from 1 to `Var::MAX_COUNT`, negative
    /// where the number is.
    pub fn from_dimacs(number: i64) -> Option<Lit>
        ensures value { IfSome result (λ lit. dimacs_lit lit ≡ number) }
        ensures range { IsSome result
            ↔ ((0 < unsigned_abs number) × (unsigned_abs number ≤ 2 ^ 28)) }
    {
        Lit::of_digits(number < 0, number.unsigned_abs())
    }

    /// Returns the literal of digits of a value from 1 to `Var::MAX_COUNT`, after a `-` or not.
    #[inline(always)]
    pub fn of_digits(negative: bool, value: u64) -> Option<Lit>
        ensures { SomeIff result ((0 < value) × (value ≤ 2 ^ 28)) (lit_code value negative) }
    {
        if 0 < value && value <= Var::MAX_COUNT as u64 {
            Some(Lit {
                code: (value as u32 - 1) * 2 + negative as u32,
            })
        } else {
            None
        }
    }

    /// Returns twice the index of its variable, and 1 more if it is negative.
    pub fn code(self) -> usize
        ensures value { result ≡ self }
        ensures bound { result < 2 ^ 29 }
    {
        self.code as usize
    }

    /// Returns the index of the literal's variable.
    pub fn index(self) -> usize
        ensures value { result ≡ var_of self }
        ensures bound { result < 2 ^ 28 }
    {
        (self.code >> 1) as usize
    }

    /// Returns the literal's variable.
    pub fn var(self) -> Var
        ensures { index_of result ≡ var_of self }
    {
        Var {
            index: self.code >> 1,
        }
    }

    /// Returns whether it is its variable.
    pub fn is_positive(self) -> bool
        ensures { result ≡ not (is_negative self) }
    {
        self.code & 1 == 0
    }

    /// Returns whether it is the negation of its variable.
    pub fn is_negative(self) -> bool
        ensures { result ≡ is_negative self }
    {
        self.code & 1 == 1
    }

    /// Returns the literal of the variable that `map` gives for this one's, with the same sign.
    pub fn map_var<F: FnOnce(Var) -> Var>(self, map: F) -> Lit
        requires { (var : Var) → index_of var ≡ var_of self → F.pre map var }
        ensures { IsMapped (F.post map) self result }
    {
        map(self.var()).lit(self.is_positive())
    }

    /// Returns the number of the variable, negated where the literal is negative.
    pub fn to_dimacs(self) -> i64
        ensures { result ≡ dimacs_lit self }
    {
        let number = self.var().to_dimacs();
        if self.is_negative() { -number } else { number }
    }
}

impl Not for Lit {
    type Output = Lit;

    ghost not_gives = { λ lit r. r ≡ negate lit };

    fn not(self) -> Lit {
        Lit {
            code: self.code ^ 1,
        }
    }
}
