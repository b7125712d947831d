//! How many queries there are of each kind.
ghost use Rattle.std.specs.Prelude.{◌≡◌, ◌++◌, OnOk, decimal};
ghost use Rattle.session_check.specs.Counts.{all_shown, counted, last_line, no_counts};

use crate::report::Report;
use session_text::Status;
use std::alloc::AllocError;
use verdicts::Claims;
use written_numbers::words::push_decimal;

/// How many queries were asked, how many of them have each answer, and how many answers are not
/// shown. Each stays at `u64::MAX`.
#[derive(Clone, Copy, Debug, PartialEq, Eq)]
pub struct Counts {
    pub queries: u64,
    pub satisfiable: u64,
    pub unsatisfiable: u64,
    pub unknown: u64,
    pub unshown: u64,
}

impl Counts {
    /// Returns the counts of no query.
    pub(crate) fn new() -> Counts
        ensures { result ≡ no_counts }
    {
        Counts {
            queries: 0,
            satisfiable: 0,
            unsatisfiable: 0,
            unknown: 0,
            unshown: 0,
        }
    }

    /// Counts one more query.
    pub(crate) fn add(&mut self, report: Report)
        ensures { self.new ≡ counted self.old report }
    {
        self.queries = self.queries.saturating_add(1);
        match report.status {
            Status::Satisfiable => self.satisfiable = self.satisfiable.saturating_add(1),
            Status::Unsatisfiable => self.unsatisfiable = self.unsatisfiable.saturating_add(1),
            Status::Unknown => self.unknown = self.unknown.saturating_add(1),
        }
        if report.reason.is_some() {
            self.unshown = self.unshown.saturating_add(1);
        }
    }

    /// Puts the last line of a run in place of a text.
    pub(crate) fn set_last_line(&self, text: &mut Vec<u8>) -> Result<(), AllocError>
        ensures { OnOk result (text.new.items ≡ last_line self.now) }
    {
        text.clear();
        if self.unshown > 0 {
            push_count(text, self.unshown, b" of ")?;
            return push_count(text, self.queries, b" answers are not shown\n");
        }
        text.extend_from_slice(b"all answers are shown: ")?;
        push_count(text, self.satisfiable, b" satisfiable, ")?;
        push_count(text, self.unsatisfiable, b" unsatisfiable, ")?;
        push_count(text, self.unknown, b" unknown\n")
    }
}

/// A session claims that all its answers are true.
impl Claims for Counts {
    ghost claimed = { all_shown };

    fn claims(&self) -> bool {
        self.unshown == 0
    }
}

/// Appends a number and words.
fn push_count(text: &mut Vec<u8>, count: u64, words: &[u8]) -> Result<(), AllocError>
    ensures { OnOk result (text.new.items ≡ text.old.items ++ decimal count ++ words.now) }
{
    push_decimal(text, count)?;
    text.extend_from_slice(words)?;
    Ok(())
}
