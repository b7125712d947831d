//! What a run counts.
use drat_elaborate::Elaborator;
use lrat_text::{Hint, LratLine};
use sat_formula::CnfFormula;
use std::cell::Cell;

/// What a run counts. Each count saturates.
#[derive(Clone, Copy, Debug, Default, PartialEq, Eq)]
pub struct RunCounts {
    /// Steps of the proof, up to the first conflict.
    pub steps: u64,
    /// Clauses that the accepted lines add.
    pub lemmas: u64,
    /// The RAT ones of these: they have a candidate hint, or no hint, since no clause has the
    /// negated pivot.
    pub redundant: u64,
    /// Hints of all lines.
    pub hints: u64,
    /// Clauses of the formula that the lines use.
    pub core: u64,
}

impl RunCounts {
    /// Returns the counts after one accepted line more.
    fn with_line(self, line: LratLine<'_>) -> RunCounts {
        let LratLine::Add { hints, .. } = line else {
            return self;
        };
        let is_resolved = hints.iter().any(|hint| matches!(hint, Hint::Against(_)));
        let is_redundant = is_resolved || hints.is_empty();
        RunCounts {
            lemmas: self.lemmas.saturating_add(1),
            redundant: self.redundant.saturating_add(is_redundant as u64),
            hints: self.hints.saturating_add(hints.len() as u64),
            ..self
        }
    }
}

/// Counts the steps of a proof that was read.
pub(crate) fn count_steps(counts: &Cell<RunCounts>, steps: u64) {
    counts.set(RunCounts {
        steps,
        ..counts.get()
    });
}

/// Counts a line that was accepted.
pub(crate) fn count_line(counts: &Cell<RunCounts>, line: LratLine<'_>) {
    counts.set(counts.get().with_line(line));
}

/// Counts the clauses of the formula that the elaborated lines use.
pub(crate) fn count_core(counts: &Cell<RunCounts>, formula: &CnfFormula, elaborator: &Elaborator) {
    let mut core: u64 = 0;
    for index in 0..formula.len() {
        core = core.saturating_add(elaborator.is_used(index) as u64);
    }
    counts.set(RunCounts {
        core,
        ..counts.get()
    });
}
