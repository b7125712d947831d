//! A step that was read.

/// A step that has ended, without its lists.
#[derive(Clone, Copy)]
pub(crate) struct StepEnd<F> {
    pub(crate) found: F,
    /// The input ended with it.
    pub(crate) last: bool,
}
