//! A line of a proof.
use sat_formula::Lit;

/// A hint of a clause that is added.
#[derive(Clone, Copy, Debug, PartialEq, Eq)]
pub enum Hint {
    /// Propagate along the clause of this id: `i`.
    Along(u64),
    /// The clause of this id is resolved with the one that is added: `-d`.
    Against(u64),
}

/// A line. Its lists are in the reader.
#[derive(Clone, Copy, Debug, PartialEq, Eq)]
pub enum LratLine<'a> {
    /// A clause is added under this id, by these hints.
    Add {
        id: u64,
        clause: &'a [Lit],
        hints: &'a [Hint],
    },
    /// The clauses of these ids are deleted.
    Delete {
        ids: &'a [u64],
    },
}
