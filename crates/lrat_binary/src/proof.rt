//! Lines of a proof, text or binary.
ghost use Rattle.std.specs.Prelude.{◌≡◌, Ok, None, IfErr, IfOk, IfSome, false, true};
ghost use Rattle.std.specs.Io.BufRead.{Rests};
ghost use types.Logic.{sem};
ghost use Rattle.lrat_binary.specs.Proofs.{IsFresh, IsNoLine, form_now};
ghost use Rattle.lrat_binary.specs.Telling.{form_of};
ghost use Rattle.lrat_binary.specs.First.{bytes_in};

use crate::first::FirstBytes;
use crate::ids::{Ids, LratForm};
use crate::reader::BinaryReader;
use crate::seeing::see_first;
use crate::telling::form_of;
use lrat_text::{LineReader, LratLine, LratTextFault};
use std::alloc::Global;
use std::io::Read;

/// A reader of the lines of an LRAT proof, one after the other.
#[derive(Drop)]
pub enum LratReader<R> {
    Text(LineReader<R>),
    Binary(BinaryReader<R>),
}

impl<R: Read> LratReader<R> {
    ghost use Rattle.lrat_binary.specs.Proofs.{Gives, IsCounted, bytes_left, form_now, line_number, has_ended};
    ghost use Rattle.lrat_binary.specs.contracts.proof.LratReader.{the_row};

    /// Returns a reader at the start of a proof of this form. Allocates and reads nothing.
    pub fn new(alloc: Global, input: R, form: LratForm) -> LratReader<R>
        ensures bytes { bytes_left R.remaining result ≡ R.remaining input }
        ensures form { form_now result ≡ form }
        ensures line { line_number result ≡ 0 }
        ensures ended { has_ended result ≡ false }
        ensures counted { IsCounted result }
    {
        match form {
            LratForm::Text => LratReader::Text(LineReader::new(alloc, input)),
            LratForm::Binary(ids) => LratReader::Binary(BinaryReader::new(alloc, input, ids)),
        }
    }

    /// Returns the form in which the proof is read.
    pub fn form(&self) -> LratForm
        ensures { result ≡ form_now self.now }
    {
        match self {
            LratReader::Text(_) => LratForm::Text,
            LratReader::Binary(reader) => LratForm::Binary(reader.ids()),
        }
    }

    /// Returns the number of the line that was returned last, or in which the proof ended or had
    /// its fault; lines count from 1. It is 0 before the first, and saturates at `u64::MAX`.
    pub fn line(&self) -> u64
        ensures { result ≡ line_number self.now }
    {
        match self {
            LratReader::Text(reader) => reader.line(),
            LratReader::Binary(reader) => reader.line(),
        }
    }

    /// Returns the next line, or `None` at the end of the proof. The line borrows lists of the
    /// reader.
    ///
    /// # Errors
    ///
    /// The first fault of the proof, a failed read, which is not retried, or `OutOfMemory`. A line
    /// that was cut by a failed read is not judged. After the end or an error every call returns
    /// `None`, and nothing more is read.
    #[inline(always)]
    pub fn next_line(&mut self) -> Result<Option<LratLine<'_>>, LratTextFault>
        ensures after_end { has_ended self.old ≡ true → result ≡ Ok None }
        ensures* after_borrow { sem 𝓛 (Rests (the_row R.row) self.entry
            (λ new. Gives R.remaining self.old new result)) }
    {
        match self {
            LratReader::Text(reader) => reader.next_line(),
            LratReader::Binary(reader) => reader.next_line(),
        }
    }
}

/// Returns a reader at the start of a proof after a formula of this many clauses, of the form that
/// is detected from the proof's first bytes; the encoding of binary ids is detected if it is not
/// given.
///
/// A proof is binary if it begins with an `a`, or with a `d` and has a byte among its first 4,096
/// that no text has. Its ids are doubled if all among these bytes are even and no line has the next
/// id after those of the formula. Of a text only the first read is examined.
///
/// # Errors
///
/// `Read` if a read failed, or `OutOfMemory`.
pub fn open_proof<R: Read + Drop>(
    alloc: Global,
    proof: R,
    ids: Option<Ids>,
    clauses: u64,
) -> Result<LratReader<FirstBytes<R>>, LratTextFault>
    ensures fresh { IfOk result (λ reader.
        IsFresh (bytes_in R.remaining) (R.remaining proof) (form_now reader) reader) }
    ensures form { IfOk result (λ reader. IfSome (R.remaining proof) (λ bytes.
        form_now reader ≡ form_of ids clauses bytes)) }
    ensures no_line { IfErr result IsNoLine }
{
    let mut proof = proof;
    let mut seen = Vec::new(alloc);
    match see_first(&mut proof, &mut seen) {
        Ok(()) => {
            let form = form_of(ids, clauses, &seen);
            let input = FirstBytes::new(seen, proof);
            Ok(LratReader::new(alloc, input, form))
        }
        Err(fault) => Err(fault),
    }
}
