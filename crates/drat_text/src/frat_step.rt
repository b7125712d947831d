//! A step of a FRAT proof.
use sat_formula::Lit;

/// What a step says of its clause.
#[derive(Clone, Copy, Debug, PartialEq, Eq)]
pub enum FratAction {
    /// It is one of the formula.
    Original,
    /// It is added.
    Add,
    /// It is deleted.
    Delete,
    /// It is still stored at the end of the proof.
    Final,
}

/// A hint of the clause that was added last: the id of a clause.
#[derive(Clone, Copy, Debug, PartialEq, Eq)]
pub struct FratHint {
    pub id: u64,
    /// Whether the clause of the id is resolved with the one that was added.
    pub is_negative: bool,
}

/// The clause with the id `from` has the id `to` from now on.
#[derive(Clone, Copy, Debug, PartialEq, Eq)]
pub struct Renaming {
    pub from: u64,
    pub to: u64,
}

/// A step. Its lists are in the reader.
#[derive(Clone, Copy, Debug, PartialEq, Eq)]
pub enum FratStep<'a> {
    /// Of a clause with an id this is said.
    Clause {
        action: FratAction,
        id: u64,
        lits: &'a [Lit],
    },
    /// The hints of the clause that was added last.
    Hints(&'a [FratHint]),
    /// Clauses get other ids, all of them at once.
    Renames(&'a [Renaming]),
}
