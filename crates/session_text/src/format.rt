//! Which text of a session it is.

/// Which text of a session it is.
#[derive(Clone, Copy, Debug, PartialEq, Eq)]
pub enum Format {
    /// What the application told: `p icnf`.
    Icnf,
    /// The solver's proof: `p lidrup`, which may be left out.
    Lidrup,
}

/// How lines are written.
#[derive(Clone, Copy)]
pub(crate) enum Form {
    /// The first of them tells.
    Untold,
    Text,
    Binary,
}
