//! The forms of a proof's lines.

/// The encoding of the ids of lines and of deletions in binary LRAT. Hints are encoded as literals
/// are in both: twice the id, and 1 more for a RAT candidate.
#[derive(Clone, Copy, Debug, PartialEq, Eq)]
pub enum Ids {
    /// An id is encoded as itself, as CaDiCaL writes it.
    Plain,
    /// An id is encoded as twice itself, as drat-trim writes it.
    Doubled,
}

/// The forms of a proof's lines.
#[derive(Clone, Copy, Debug, PartialEq, Eq)]
pub enum LratForm {
    Text,
    Binary(Ids),
}
