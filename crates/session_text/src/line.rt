//! A line of a session.
ghost use Rattle.std.specs.Prelude.{◌≡◌, OnOk};
ghost use Rattle.session_text.specs.Content.{content_of, has_hints, no_content, with_item};

use sat_formula::Lit;
use std::alloc::{AllocError, Global};

/// What a solver answered to a query.
#[derive(Clone, Copy, Debug, PartialEq, Eq)]
pub enum Status {
    Satisfiable,
    Unsatisfiable,
    /// The solver gave up.
    Unknown,
}

/// What a line says. Its id, literals and ids are in `Lists`.
#[derive(Clone, Copy, Debug, PartialEq, Eq)]
pub enum LineKind {
    /// `i`: the application gives a clause, in a proof under an id.
    Clause,
    /// `l`: a lemma under an id, with hints.
    Lemma,
    /// `d`: the clauses of these ids are deleted.
    Deletion,
    /// `w` or `r`: the clauses of these ids are weakened or restored, and stay.
    Weakening,
    /// `q`: a query, under these assumptions.
    Query,
    /// `s`: the answer to it.
    Answer(Status),
    /// `m`: the model of a query.
    Model,
    /// `u`: the core of a query, with hints.
    Core,
    /// `e`: a trail, which says nothing.
    Trail,
    /// `U`: this many cores of a query follow.
    Several(u64),
    /// `v` or `m` of ICNF: values that the application was told.
    Values,
    /// `f` or `u` of ICNF: assumptions of which the application was told that they fail together.
    Failed,
}

/// What stands in a line.
#[derive(Drop)]
pub struct Lists {
    /// The id of a clause or a lemma; 0 in other lines.
    pub id: u64,
    pub lits: Vec<Lit>,
    /// The hints of a lemma or a core, or the ids of a deletion or a weakening.
    pub ids: Vec<u64>,
}

/// What a number says in a line.
#[derive(Clone, Copy)]
pub(crate) enum Item {
    Id(u64),
    Lit(Lit),
    Hint(u64),
}

impl LineKind {
    /// Returns whether hints follow the literals.
    pub(crate) fn has_hints(self) -> bool
        ensures { result ≡ has_hints self }
    {
        match self {
            LineKind::Lemma | LineKind::Core => true,
            _ => false,
        }
    }
}

impl Lists {
    /// Returns the lists of a line in which nothing stands. Allocates no memory.
    pub(crate) fn new(alloc: Global) -> Lists
        ensures { content_of result ≡ no_content }
    {
        Lists {
            id: 0,
            lits: Vec::new(alloc),
            ids: Vec::new(alloc),
        }
    }

    /// Leaves nothing.
    pub(crate) fn clear(&mut self)
        ensures { content_of self.new ≡ no_content }
    {
        self.id = 0;
        self.lits.clear();
        self.ids.clear();
    }

    /// Adds what a number says.
    pub(crate) fn add(&mut self, item: Item) -> Result<(), AllocError>
        ensures { OnOk result (content_of self.new ≡ with_item (content_of self.old) item) }
    {
        match item {
            Item::Id(id) => self.id = id,
            Item::Lit(lit) => self.lits.push(lit)?,
            Item::Hint(id) => self.ids.push(id)?,
        }
        Ok(())
    }
}
