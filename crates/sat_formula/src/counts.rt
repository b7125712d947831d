//! The two counts of a header, and those of what was read.
ghost use Rattle.std.specs.Prelude.{◌≡◌};
ghost use Rattle.sat_formula.specs.Counts.{count_after, counts_after, is_lie, lie_of, no_counts};

use crate::word::Header;
use std::fmt;
use std::fmt::{Display, Formatter};

/// How many variables there are, by the largest one, and how many clauses. Both saturate at
/// `u64::MAX`.
#[derive(Clone, Copy, Debug, PartialEq, Eq)]
pub struct Counts {
    pub variables: u64,
    pub clauses: u64,
}

/// A header that disagrees with what was read: the counts of the header, and those of the text.
#[derive(Clone, Copy, Debug, PartialEq, Eq)]
pub struct LyingHeader {
    pub said: Counts,
    pub counts: Counts,
}

impl Display for Counts {
    fn fmt<F: fmt::Write>(&self, f: &mut Formatter<F>) -> fmt::Result {
        let (variables, clauses) = (self.variables, self.clauses);
        write!(f, "p cnf {variables} {clauses}")
    }
}

impl Display for LyingHeader {
    fn fmt<F: fmt::Write>(&self, f: &mut Formatter<F>) -> fmt::Result {
        let (said, counts) = (self.said, self.counts);
        write!(f, "{said}, but what was read is {counts}")
    }
}

impl Counts {
    /// Returns the counts before the first digit of a header.
    pub(crate) fn none() -> Counts
        ensures { result ≡ no_counts }
    {
        Counts {
            variables: 0,
            clauses: 0,
        }
    }

    /// Returns the counts after one more byte of a header, which leads to this part of it.
    pub(crate) fn after(self, header: Header, byte: u8) -> Counts
        ensures { result ≡ counts_after header self byte }
    {
        let mut counts = self;
        match header {
            Header::Variables => counts.variables = count_after(self.variables, byte),
            Header::Clauses => counts.clauses = count_after(self.clauses, byte),
            _ => {}
        }
        counts
    }

    /// Returns the header, if it says fewer variables than were read, or another number of clauses.
    pub(crate) fn lie(self, said: Option<Counts>) -> Option<LyingHeader>
        ensures { result ≡ lie_of said self }
    {
        let said = said?;
        if !is_lie(said, self) {
            return None;
        }
        Some(LyingHeader { said, counts: self })
    }
}

/// Returns whether a header says fewer variables, or another number of clauses.
fn is_lie(said: Counts, counts: Counts) -> bool
    ensures { result ≡ is_lie said counts }
{
    said.variables < counts.variables || said.clauses != counts.clauses
}

/// Returns the value of digits and one more.
fn count_after(value: u64, byte: u8) -> u64
    ensures { result ≡ count_after value byte }
{
    let digit = u64::from(byte.saturating_sub(b'0'));
    value.saturating_mul(10).saturating_add(digit)
}
