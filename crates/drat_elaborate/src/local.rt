//! Literals over the variables as they are numbered here.
use std::ops::Not;

/// A literal: twice the number of its variable here, and 1 more where it is negative.
#[derive(Clone, Copy, PartialEq, Eq)]
pub(crate) struct LocalLit(u32);

impl LocalLit {
    /// Returns the literal of a variable, of which there are fewer than 2 ^ 31.
    #[inline(always)]
    pub(crate) fn new(variable: u32, is_negative: bool) -> LocalLit {
        LocalLit(variable.wrapping_mul(2) | is_negative as u32)
    }

    /// Returns the literal of a code that `code` returned.
    pub(crate) fn from_code(code: u32) -> LocalLit {
        LocalLit(code)
    }

    /// Returns the code.
    #[inline(always)]
    pub(crate) fn code(self) -> u32 {
        self.0
    }

    /// Returns the code as an index.
    #[inline(always)]
    pub(crate) fn place(self) -> usize {
        self.0 as usize
    }

    /// Returns the number of the variable.
    #[inline(always)]
    pub(crate) fn variable(self) -> usize {
        (self.0 / 2) as usize
    }

    /// Returns the other one of two literals, one of which is `known`.
    #[inline(always)]
    pub(crate) fn other_of(first: LocalLit, second: LocalLit, known: LocalLit) -> LocalLit {
        LocalLit(first.0 ^ second.0 ^ known.0)
    }

    /// Returns whether the literal is negative.
    pub(crate) fn is_negative(self) -> bool {
        self.0 % 2 == 1
    }
}

impl Not for LocalLit {
    type Output = LocalLit;

    #[inline(always)]
    fn not(self) -> LocalLit {
        LocalLit(self.0 ^ 1)
    }
}
