//! The forms of an LRAT proof that is written.

/// How the lines of an LRAT proof are written.
#[derive(Clone, Copy, PartialEq, Eq)]
pub enum LineForm {
    /// Text, a line each.
    Text,
    /// Binary, with ids as they are.
    Binary,
}
