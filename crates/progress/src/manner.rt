//! How a run reports its progress.

/// How a run reports its progress.
#[derive(Clone, Copy, Debug, PartialEq, Eq)]
pub enum Manner {
    /// It does not.
    Silent,
    /// In lines.
    Lines,
    /// In one line, which is written anew each time, as a terminal can.
    OneLine,
}

impl Manner {
    ghost use Rattle.std.specs.Prelude.{◌≡◌};
    ghost use Rattle.progress.specs.Manners.{manner_by};

    /// Returns the manner that the options `--quiet` and `--verbose` of a call ask for; without
    /// either, one line that is overwritten if standard error is a terminal, else none.
    pub fn asked(is_quiet: bool, is_verbose: bool, is_terminal: bool) -> Manner
        ensures { result ≡ manner_by is_quiet is_verbose is_terminal }
    {
        match (is_quiet, is_verbose, is_terminal) {
            (true, _, _) => Manner::Silent,
            (false, true, _) => Manner::Lines,
            (false, false, true) => Manner::OneLine,
            (false, false, false) => Manner::Silent,
        }
    }
}
