//! Words of a text, and its steps, from bytes that are read ahead.
use drat_text::number::{begins_comment, is_space};
use sat_formula::Lit;
use sat_formula::bytes::is_digit;
use std::alloc::AllocError;

/// No variable's number has more digits.
const MOST_DIGITS: usize = 9;

/// No short number has more bytes, with its `-` and the byte after it.
const WINDOW: usize = 9;

/// What is at a place of a text.
#[derive(Clone, Copy)]
pub(crate) enum Word {
    /// A literal, and the place behind the blank after it.
    Literal(Lit, usize),
    /// The 0 of a clause, and the place of the blank after it.
    Zero(usize),
    /// A blank, and the place behind it.
    Blank(usize),
    /// Nothing that is known before more bytes are.
    Open,
    /// Anything else.
    Other,
}

/// Returns the word that begins at a place.
#[inline(never)]
pub(crate) fn word_at(bytes: &[u8], from: usize) -> Word {
    let rest = bytes.get(from..).unwrap_or(&[]);
    let (negative, digits) = match rest {
        [b'-', digits @ ..] => (true, digits),
        _ => (false, rest),
    };
    let first = from.wrapping_add(negative as usize);
    let mut value = 0u32;
    for count in 0..digits.len() {
        let byte = digits[count];
        if !is_digit(byte) {
            return word_before(byte, negative, value, count, first.wrapping_add(count));
        }
        value = with_digit(value, byte);
    }
    Word::Open
}

/// Returns a value with one more digit.
#[inline(always)]
fn with_digit(value: u32, digit: u8) -> u32 {
    value
        .wrapping_mul(10)
        .wrapping_add(digit.wrapping_sub(b'0') as u32)
}

/// Returns the word of a value with this many digits, before the byte at a place.
fn word_before(byte: u8, negative: bool, value: u32, digits: usize, place: usize) -> Word {
    if !is_space(byte) || digits > MOST_DIGITS {
        return Word::Other;
    }
    match Lit::of_digits(negative, value as u64) {
        Some(lit) => Word::Literal(lit, place.wrapping_add(1)),
        None if value > 0 || negative => Word::Other,
        None if digits == 0 => Word::Blank(place.wrapping_add(1)),
        None => Word::Zero(place),
    }
}

/// A number of few digits.
#[derive(Clone, Copy)]
struct ShortNumber {
    negative: bool,
    value: u32,
    /// The byte behind it, and its place.
    end: u8,
    place: usize,
}

impl ShortNumber {
    /// Returns whether it is the 0 at the end of a line.
    #[inline(always)]
    fn ends_line(self) -> bool {
        self.value == 0 && !self.negative && self.end == b'\n'
    }
}

/// Returns the number that begins at a place, if it is short, and as many bytes are there as the
/// longest one takes: so no byte of it is tested for the end of these.
#[inline(always)]
fn short_number(bytes: &[u8], from: usize) -> Option<ShortNumber> {
    if bytes.len() < WINDOW || bytes.len() - WINDOW < from {
        return None;
    }
    let window = &bytes[from..from + WINDOW];
    let negative = window[0] == b'-';
    // Added and not branched on: signs of neighbouring literals predict nothing.
    let sign = negative as usize;
    let digits = &window[sign..];
    let mut rest = u64::from_le_bytes([
        digits[0], digits[1], digits[2], digits[3], digits[4], digits[5], digits[6], digits[7],
    ]);
    let mut value = 0u32;
    for count in 0..WINDOW - 1 {
        let end = (rest % 256) as u8;
        if !is_digit(end) {
            if count == 0 {
                return None;
            }
            let place = from.wrapping_add(sign + count);
            return Some(ShortNumber {
                negative,
                value,
                end,
                place,
            });
        }
        value = with_digit(value, end);
        rest >>= 8;
    }
    None
}

/// Returns whether a step deletes, and the place of its first literal, where it begins with a
/// literal, or with a `d` and a blank.
pub(crate) fn kind_at(bytes: &[u8], begin: usize) -> (bool, usize) {
    match bytes.get(begin..).unwrap_or(&[]) {
        [b'd', b' ', ..] => (true, begin.saturating_add(2)),
        [b'd', ..] => (true, begin.saturating_add(1)),
        _ => (false, begin),
    }
}

/// Returns the place of the first byte of a step: blanks and comments before it are passed over.
pub(crate) fn step_begin(bytes: &[u8]) -> Option<usize> {
    let mut in_comment = false;
    for place in 0..bytes.len() {
        let byte = bytes[place];
        if in_comment {
            in_comment = byte != b'\n';
        } else if begins_comment(byte) {
            in_comment = true;
        } else if !is_space(byte) {
            return Some(place);
        }
    }
    None
}

/// How a clause in a text ends.
#[derive(Clone, Copy)]
pub(crate) enum ClauseEnd {
    /// By its 0; the place of the blank after it.
    Zero(usize),
    /// Not in these bytes.
    Open,
    /// By what is no literal.
    Other,
}

/// Appends the literals from a place on, up to their 0.
pub(crate) fn push_literals_at(
    lits: &mut Vec<Lit>,
    bytes: &[u8],
    from: usize,
) -> Result<ClauseEnd, AllocError> {
    let mut place = from;
    // A word has a byte at least.
    for _ in from..bytes.len() {
        if let Some(number) = short_number(bytes, place) {
            match Lit::of_digits(number.negative, number.value as u64) {
                Some(lit) if number.end == b' ' => {
                    lits.push(lit)?;
                    place = number.place.wrapping_add(1);
                    continue;
                }
                None if number.ends_line() => return Ok(ClauseEnd::Zero(number.place)),
                _ => {}
            }
        }
        match word_at(bytes, place) {
            Word::Literal(lit, next) => {
                lits.push(lit)?;
                place = next;
            }
            Word::Blank(next) => place = next,
            Word::Zero(end) => return Ok(ClauseEnd::Zero(end)),
            Word::Open => break,
            Word::Other => return Ok(ClauseEnd::Other),
        }
    }
    Ok(ClauseEnd::Open)
}
