//! Steps from a reader's bytes.
ghost use Rattle.std.specs.Prelude.{◌≡◌, ◌≤◌, ◌-◌, ◌^◌, Ok, None, Some, true, false};
ghost use Rattle.drat_text.specs.Proofs.{format_of};
ghost use Rattle.drat_text.specs.Taking.{Looks, room_in, source_of, unread_bytes};

use crate::binary::binary_step;
use crate::bytes::{Bytes, Format};
use crate::fault::{DratFault, DratKind, StepNumber};
use crate::grammar::Grammar;
use crate::step::StepEnd;
use crate::text::text_step;
use sat_formula::stop::Stop;
use std::alloc::Global;
use std::io::Read;

/// A reader of the steps of a proof, one after the other, into a draft.
///
/// A step of text is numbers between blanks (space, tab, CR and LF), up to one that ends it, after
/// a letter or not. Comments are between steps, to the end of their lines. A binary step is a
/// letter, and then numbers by seven bits a byte with the low ones first.
///
/// It keeps the bytes read ahead and one step. Of a proof it takes at most `u64::MAX` bytes; where
/// it would take more, it is as if a read had failed.
#[derive(Drop)]
pub struct StepReader<G, R> {
    bytes: Bytes<R>,
    draft: G,
    format: Option<Format>,
    steps: u64,
    ended: bool,
}

impl<G: Grammar, R: Read> StepReader<G, R> {
    ghost use Rattle.drat_text.specs.declared.bytes.Format.{Format};
    ghost use Rattle.sat_formula.specs.Source.{IsStopped};
    ghost use Rattle.drat_text.specs.NextStep.{bytes_left, draft_of, room_left, has_ended, steps_given, known_format, Answers, ReadsOn, SeesFormat, Explains};

    /// Returns a reader at the start of a proof. It takes no memory and reads nothing yet.
    pub fn new(alloc: Global, input: R) -> StepReader<G, R>
        ensures bytes { bytes_left R.remaining result ≡ R.remaining input }
        ensures room { room_left result ≡ 2 ^ 64 - 1 }
        ensures steps { steps_given result ≡ 0 }
        ensures format { known_format result ≡ None }
        ensures ended { has_ended result ≡ false }
    {
        StepReader::over(alloc, Bytes::new(alloc, input))
    }

    /// Returns a reader of the steps in these bytes, of which none was taken yet.
    #[doc(hidden)]
    pub fn over(alloc: Global, bytes: Bytes<R>) -> StepReader<G, R>
        ensures bytes { bytes_left R.remaining result ≡ unread_bytes R.remaining bytes }
        ensures room { room_left result ≡ room_in bytes }
        ensures steps { steps_given result ≡ 0 }
        ensures format { known_format result ≡ None }
        ensures ended { has_ended result ≡ false }
    {
        StepReader {
            bytes,
            draft: G::new(alloc),
            format: None,
            steps: 0,
            ended: false,
        }
    }

    /// Returns what was read of the last step.
    pub fn draft(&self) -> &G
        ensures { result.now ≡ draft_of self.now }
    {
        &self.draft
    }

    /// Reads a step into the draft and returns what was found, or `None` at the end of the proof.
    ///
    /// # Errors
    ///
    /// The first fault of the proof, a failed read or out of memory. After the end or an error
    /// every call returns `Ok(None)` and reads nothing more.
    pub fn read_step(&mut self) -> Result<Option<G::Found>, DratFault>
        ensures reads { has_ended self.old ≡ false
            → Answers G.rules R.remaining (G.step_of (draft_of self.new)) self.old self.new result }
        ensures stays { has_ended self.old ≡ true → (result ≡ Ok None) × (self.new ≡ self.old) }
        ensures format { (format : Format) → known_format self.old ≡ Some format
            → known_format self.new ≡ Some format }
    {
        if self.ended {
            return Ok(None);
        }
        match self.read() {
            Ok(end) => {
                self.steps = self.steps.saturating_add(1);
                self.ended = end.last;
                Ok(Some(end.found))
            }
            Err(stop) => {
                self.ended = true;
                self.stopped(stop)
            }
        }
    }

    /// Reads a step into the draft.
    fn read(&mut self) -> Result<StepEnd<G::Found>, Stop<DratKind>>
        ensures { ReadsOn G.rules R.remaining (G.step_of (draft_of self.new)) self.old self.new
            result }
    {
        match self.format()? {
            Format::Text => text_step(&mut self.bytes, &mut self.draft),
            Format::Binary => binary_step(&mut self.bytes, &mut self.draft),
        }
    }

    /// Returns the format, detected from the first bytes if it is not known.
    fn format(&mut self) -> Result<Format, Stop<DratKind>>
        ensures { SeesFormat G.rules R.remaining self.old self.new result }
    {
        if let Some(format) = self.format {
            return Ok(format);
        }
        let format = look::<G, R>(&mut self.bytes)?;
        self.format = Some(format);
        Ok(format)
    }

    /// Returns the result for a stop.
    fn stopped(&self, stop: Stop<DratKind>) -> Result<Option<G::Found>, DratFault>
        requires { stop ≡ Stop.Read → IsStopped (source_of self.now.bytes) }
        ensures { Explains (source_of self.now.bytes) (steps_given self.now) stop result }
    {
        match stop {
            Stop::End => Ok(None),
            Stop::Read => Err(DratFault::Read(self.bytes.error())),
            Stop::Wrong(kind) => Err(DratFault::Wrong {
                at: StepNumber(self.steps.saturating_add(1)),
                kind,
            }),
            Stop::OutOfMemory => Err(DratFault::OutOfMemory),
        }
    }
}

/// Detects the format from the next bytes, and takes none of them.
fn look<G: Grammar, R: Read>(bytes: &mut Bytes<R>) -> Result<Format, Stop<DratKind>>
    ensures format { Looks (format_of G.rules) (unread_bytes R.remaining bytes.old)
        (unread_bytes R.remaining bytes.new) (source_of bytes.new) result }
    ensures room { room_in bytes.new ≤ room_in bytes.old }
{
    let Some(first) = bytes.peek(0)? else {
        return Ok(Format::Text);
    };
    match G::first_tells(first) {
        Some(format) => Ok(format),
        None => bytes.look_on(),
    }
}
