//! Steps of FRAT from a reader's bytes.
ghost use Rattle.std.specs.Prelude.{◌≡◌, Ok, None, true};
ghost use Rattle.std.specs.Io.BufRead.{Rests};
ghost use types.Logic.{sem};

use crate::fault::DratFault;
use crate::frat::Draft;
use crate::frat_step::FratStep;
use crate::reader::StepReader;
use std::io::Read;

/// A reader of the steps of a FRAT proof, one after the other.
///
/// A step of text is a letter, and then numbers between blanks (space, tab, CR and LF), up to a 0.
/// After `o` (a clause of the formula), `a` (one that is added), `d` (one that is deleted) and `f`
/// (one that is there still at the end) stand an id and literals as DIMACS numbers; after `l` ids,
/// the hints of the clause before, of which some may be negative; after `r` ids in pairs, each an
/// old one and its new one. Between steps a `c` begins a comment, to the end of its line.
///
/// A binary step is the same letter, and then the numbers by seven bits a byte with the low ones
/// first: a literal and a hint as twice its number, and 1 more where it is negative, other ids as
/// they are.
///
/// Ids go from 1 to 2^60 - 1, variables up to `Var::MAX_COUNT`, and binary numbers have at most
/// nine bytes. Hints count as a step of their own.
///
/// A proof is binary where it begins with the letter of a step and has a byte among its first 4,096
/// that no text has: text has tab, LF, CR, and space to `~`.
///
/// It keeps the bytes read ahead and one step. Of a proof it takes at most `u64::MAX` bytes; where
/// it would take more, it is as if a read had failed.
pub type FratReader<R> = StepReader<Draft, R>;

impl<R: Read> StepReader<Draft, R> {
    ghost use Rattle.drat_text.specs.NextStep.{has_ended, Gives};
    ghost use Rattle.drat_text.specs.FratDrafts.{view};
    ghost use Rattle.drat_text.specs.FratRules.{frat};
    ghost use Rattle.drat_text.specs.contracts.frat.Draft as draft;
    ghost use Rattle.drat_text.specs.contracts.reader.StepReader.{the_row};

    /// Reads the next step and returns it, or `None` at the end of the proof. Its lists are in the
    /// reader and are valid until the next call.
    ///
    /// # Errors
    ///
    /// The first fault of the proof, a failed read, which is not retried, or out of memory. A step
    /// that was cut by a failed read is not judged. If a read fails before the format is detected,
    /// no step is returned. After the end or an error every call returns `Ok(None)` and reads
    /// nothing more.
    pub fn next_step(&mut self) -> Result<Option<FratStep<'_>>, DratFault>
        ensures after_end { has_ended self.old ≡ true → result ≡ Ok None }
        ensures* after_borrow { sem 𝓛 (Rests (the_row draft.the_row R.row) self.entry
            (λ new. Gives frat R.remaining view self.old new result)) }
    {
        match self.read_step()? {
            Some(found) => Ok(Some(self.draft().step(found))),
            None => Ok(None),
        }
    }
}
