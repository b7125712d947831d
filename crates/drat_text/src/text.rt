//! Steps of text.
ghost use Rattle.std.specs.Prelude.{◌≡◌, ◌<◌, ◌≤◌, ◌∷◌, ℕ, List, Option, IfOk, true, false};
ghost use Rattle.sat_formula.specs.Bytes.{is_digit};
ghost use Rattle.drat_text.specs.declared.bytes.Format.TheVariants as formats;
ghost use Rattle.drat_text.specs.Bytes.{is_space};
ghost use Rattle.drat_text.specs.Places.{Comment, Outside, Within, first_digit, with_digit};
ghost use Rattle.drat_text.specs.Proofs.{outcome_at, outcome_in};
ghost use Rattle.drat_text.specs.Reading.{IsFirst, ReadsFirst, ReadsNumber, ReadsStep, ReadsTo, Says, goes_on};
ghost use Rattle.drat_text.specs.Steps.{Outcome};
ghost use Rattle.drat_text.specs.Taking.{unread_bytes, room_in, source_of};

use crate::bytes::{Bytes, Format};
use crate::fault::DratKind;
use crate::grammar::Grammar;
use crate::number::is_space;
use crate::step::StepEnd;
use sat_formula::bytes::is_digit;
use sat_formula::stop::Stop;
use std::io::Read;

/// Values above it are unspecified, and only that is kept of them.
const MAX_VALUE: u64 = 1 << 60;

/// A number of a step.
#[derive(Clone, Copy)]
pub(crate) struct TextNumber {
    /// A `-` precedes it.
    pub(crate) negative: bool,
    pub(crate) value: u64,
    /// The input ended with it.
    pub(crate) last: bool,
}

/// Reads a step into a draft, and returns how it ended.
pub(crate) fn text_step<G: Grammar, R: Read>(
    bytes: &mut Bytes<R>,
    draft: &mut G,
) -> Result<StepEnd<G::Found>, Stop<DratKind>>
    ensures read { ReadsStep G.rules formats.Text (G.step_of draft.new)
        (unread_bytes R.remaining bytes.old) (unread_bytes R.remaining bytes.new)
        (outcome_in G.rules formats.Text) (source_of bytes.new) result }
    ensures nearer { IfOk result (λ _. room_in bytes.new < room_in bytes.old) }
    ensures room { room_in bytes.new ≤ room_in bytes.old }
{
    let first = first_byte::<G, R>(bytes)?;
    if draft.begin(Format::Text, first) {
        let first_number = next_number::<G, R>(bytes)?;
        return numbers(bytes, draft, first_number);
    }
    if !draft.begin_bare() {
        return Err(Stop::Wrong(DratKind::Malformed));
    }
    let first_number = number::<G, R>(bytes, first)?;
    numbers(bytes, draft, first_number)
}

/// Returns the first byte of a step. Blanks and comments before it are passed over.
fn first_byte<G: Grammar, R: Read>(bytes: &mut Bytes<R>) -> Result<u8, Stop<DratKind>>
    ensures read { ReadsFirst G.rules
        (unread_bytes R.remaining bytes.old) (unread_bytes R.remaining bytes.new)
        (outcome_in G.rules formats.Text) (source_of bytes.new) result }
    ensures first { IfOk result (IsFirst G.rules) }
    ensures nearer { IfOk result (λ _. room_in bytes.new < room_in bytes.old) }
    ensures room { room_in bytes.new ≤ room_in bytes.old }
{
    'bytes: loop {
        let byte = bytes.next_byte()?;
        if G::begins_comment(byte) {
            comment::<G, R>(bytes)?;
        } else if !is_space(byte) {
            return Ok(byte);
        }
    }
}

/// Passes over the rest of a comment, and the LF after it.
fn comment<G: Grammar, R: Read>(bytes: &mut Bytes<R>) -> Result<(), Stop<DratKind>>
    ensures read { ReadsTo G.rules Outside
        (unread_bytes R.remaining bytes.old) (unread_bytes R.remaining bytes.new)
        (outcome_at G.rules formats.Text Comment) (source_of bytes.new) result }
    ensures room { room_in bytes.new ≤ room_in bytes.old }
{
    'bytes: loop {
        if bytes.next_byte()? == b'\n' {
            return Ok(());
        }
    }
}

/// Passes numbers to a draft to the end of the step, of which this one was read.
fn numbers<G: Grammar, R: Read>(
    bytes: &mut Bytes<R>,
    draft: &mut G,
    first: TextNumber,
) -> Result<StepEnd<G::Found>, Stop<DratKind>>
    ensures read { (before : List ℕ → Outcome G.Step) (all : Option (List ℕ))
        → Says G.rules (G.rules.said (G.slot_of draft.old) first.negative first.value) first.last
        all (unread_bytes R.remaining bytes.old) before
        → ReadsStep G.rules formats.Text (G.step_of draft.new)
        all (unread_bytes R.remaining bytes.new) before (source_of bytes.new) result }
    ensures room { room_in bytes.new ≤ room_in bytes.old }
{
    let mut number = first;
    'numbers: loop {
        let last = number.last;
        if let Some(found) = draft.take(number.negative, number.value)? {
            return Ok(StepEnd { found, last });
        }
        if last {
            return Err(Stop::Wrong(DratKind::Unfinished));
        }
        number = next_number::<G, R>(bytes)?;
    }
}

/// Reads the next number, and the blank or LF after it.
#[inline(always)]
fn next_number<G: Grammar, R: Read>(bytes: &mut Bytes<R>) -> Result<TextNumber, Stop<DratKind>>
    ensures read { (slot : G.Slot) → ReadsNumber G.rules slot
        (unread_bytes R.remaining bytes.old) (unread_bytes R.remaining bytes.new)
        (outcome_at G.rules formats.Text (Within slot)) (source_of bytes.new) result }
    ensures nearer { IfOk result (λ _. room_in bytes.new < room_in bytes.old) }
    ensures room { room_in bytes.new ≤ room_in bytes.old }
{
    'blanks: loop {
        let byte = bytes.next_within()?;
        if !is_space(byte) {
            return number::<G, R>(bytes, byte);
        }
    }
}

/// Reads on a number that begins with this byte.
#[inline(always)]
fn number<G: Grammar, R: Read>(
    bytes: &mut Bytes<R>,
    first: u8,
) -> Result<TextNumber, Stop<DratKind>>
    requires { is_space first ≡ false }
    ensures read { (slot : G.Slot) → ReadsNumber G.rules slot
        (unread_bytes R.remaining bytes.old) (unread_bytes R.remaining bytes.new)
        (λ more. outcome_at G.rules formats.Text (Within slot) (first ∷ more)) (source_of bytes.new)
        result }
    ensures room { room_in bytes.new ≤ room_in bytes.old }
{
    if first == b'-' {
        let digit = bytes.next_within()?;
        return digits::<G, R>(bytes, true, digit);
    }
    digits::<G, R>(bytes, false, first)
}

/// Reads digits, the first of which is this byte.
#[inline(always)]
fn digits<G: Grammar, R: Read>(
    bytes: &mut Bytes<R>,
    negative: bool,
    first: u8,
) -> Result<TextNumber, Stop<DratKind>>
    ensures read { (slot : G.Slot) → ReadsNumber G.rules slot
        (unread_bytes R.remaining bytes.old) (unread_bytes R.remaining bytes.new)
        (goes_on G.rules formats.Text (first_digit slot negative first)) (source_of bytes.new) result }
    ensures room { room_in bytes.new ≤ room_in bytes.old }
{
    if !is_digit(first) {
        return Err(Stop::Wrong(DratKind::Malformed));
    }
    let mut value = (first - b'0') as u64;
    'digits: loop {
        match bytes.next_byte() {
            Ok(byte) if is_digit(byte) => value = with_digit(value, byte),
            Ok(byte) if is_space(byte) => {
                let last = false;
                return Ok(TextNumber {
                    negative,
                    value,
                    last,
                });
            }
            Ok(_) => return Err(Stop::Wrong(DratKind::Malformed)),
            Err(Stop::End) => {
                let last = true;
                return Ok(TextNumber {
                    negative,
                    value,
                    last,
                });
            }
            Err(stop) => return Err(stop),
        }
    }
}

/// Returns a digit more. Of a value that is too large for an id only that is kept.
#[inline(always)]
fn with_digit(value: u64, digit: u8) -> u64
    requires { is_digit digit ≡ true }
    ensures { result ≡ with_digit value digit }
{
    value.min(MAX_VALUE) * 10 + (digit - b'0') as u64
}
