//! Steps of DRAT from a reader's bytes.
ghost use Rattle.std.specs.Prelude.{◌≡◌, Ok, None, true};
ghost use Rattle.std.specs.Io.BufRead.{Rests};
ghost use types.Logic.{sem};

use crate::drat::{Draft, DratStep};
use crate::fault::DratFault;
use crate::reader::StepReader;
use std::io::Read;

/// A reader of the steps of a DRAT proof, one after the other.
///
/// Text has literals as DIMACS numbers, between blanks (space, tab, CR and LF), up to a 0. A `d`
/// before them says that the step deletes. Between steps a `c` or a `%` begins a comment, to the
/// end of its line. A binary step is `a` or `d`, and then for each literal twice its variable's
/// number, and 1 more where it is negative, by seven bits a byte with the low ones first, up to a
/// 0. Variables go up to `Var::MAX_COUNT`, and binary numbers have at most five bytes.
///
/// A proof is binary where it begins with `a`, or with `d` and has a byte among its first 4,096
/// that no text has: text has tab, LF, CR, and space to `~`.
///
/// It keeps the bytes read ahead and one step. Of a proof it takes at most `u64::MAX` bytes; where
/// it would take more, it is as if a read had failed.
pub type DratReader<R> = StepReader<Draft, R>;

impl<R: Read> StepReader<Draft, R> {
    ghost use Rattle.drat_text.specs.NextStep.{has_ended, Gives};
    ghost use Rattle.drat_text.specs.DratRules.{drat, view};
    ghost use Rattle.drat_text.specs.contracts.drat.Draft as draft;
    ghost use Rattle.drat_text.specs.contracts.reader.StepReader.{the_row};

    /// Reads the next step and returns it, or `None` at the end of the proof. Its literals are in
    /// the reader and are valid until the next call.
    ///
    /// # Errors
    ///
    /// The first fault of the proof, a failed read, which is not retried, or out of memory. A step
    /// that was cut by a failed read is not judged. If a read fails before the format is detected,
    /// no step is returned. After the end or an error every call returns `Ok(None)` and reads
    /// nothing more.
    pub fn next_step(&mut self) -> Result<Option<DratStep<'_>>, DratFault>
        ensures after_end { has_ended self.old ≡ true → result ≡ Ok None }
        ensures* after_borrow { sem 𝓛 (Rests (the_row draft.the_row R.row) self.entry
            (λ new. Gives drat R.remaining view self.old new result)) }
    {
        match self.read_step()? {
            Some(action) => Ok(Some(self.draft().step(action))),
            None => Ok(None),
        }
    }
}
