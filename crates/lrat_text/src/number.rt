//! Numbers, by their words.
ghost use Rattle.std.specs.Prelude.{◌≡◌, ◌<◌, [], length, IfSome, IfNone, ◌+◌, ◌*◌};
ghost use Rattle.sat_formula.specs.Lines.{value_of};
ghost use Rattle.lrat_text.specs.Bytes.{IsLine, words_in};
ghost use Rattle.lrat_text.specs.Numbers.{number_of, judged, capped};
ghost use Rattle.lrat_text.specs.Grammar.{first_said};
ghost use Rattle.lrat_text.specs.FirstNumbers.{HasDigits, IsDigitsWord, IsFirst};

use crate::fault::LineKind;
use crate::words::{skip_blanks, split_word};
use sat_formula::bytes::{ends_word, is_digit};

/// Words of fewer digits are read in one pass.
const FEW_DIGITS: usize = 10;

/// What a word says as a number.
#[derive(Clone, Copy)]
pub(crate) enum Number {
    Exact { negative: bool, value: u64 },
    /// A number of 2^64 or more, or its negation.
    Large,
    /// No number.
    Bad,
}

impl Number {
    /// Returns the number of a word: digits, after a `-` or not.
    pub(crate) fn of(word: &[u8]) -> Number
        ensures { result ≡ number_of word.now }
    {
        match word.split_first() {
            Some((b'-', digits)) => judged(true, digits),
            _ => judged(false, word),
        }
    }

    /// Returns the number with which a line begins.
    pub(crate) fn first(self) -> Result<u64, LineKind>
        ensures { result ≡ first_said self }
    {
        match self {
            Number::Exact {
                negative: false,
                value,
            } => Ok(value),
            Number::Large => Err(LineKind::NumberTooLarge),
            Number::Exact { negative: true, .. } | Number::Bad => Err(LineKind::Malformed),
        }
    }
}

/// Returns what digits say, after a `-` or not.
fn judged(negative: bool, digits: &[u8]) -> Number
    ensures { result ≡ judged negative (value_of digits.now) }
{
    if digits.is_empty() {
        return Number::Bad;
    }
    let mut value = 0;
    let mut large = false;
    'digits: for digit in digits {
        if !is_digit(*digit) {
            return Number::Bad;
        }
        match with_digit(value, *digit - b'0') {
            Some(next) => value = next,
            None => large = true,
        }
    }
    if large {
        Number::Large
    } else if negative && value == 0 {
        Number::Bad
    } else {
        Number::Exact { negative, value }
    }
}

/// Returns the value with one more digit, if it fits.
#[inline(always)]
fn with_digit(value: u64, digit: u8) -> Option<u64>
    ensures { result ≡ capped (value * 10 + digit) }
{
    value.checked_mul(10)?.checked_add(digit as u64)
}

/// Returns the first word as a number, and what follows it.
#[inline(always)]
pub(crate) fn split_number(bytes: &[u8]) -> Option<(Number, &[u8])>
    requires { IsLine bytes.now }
    ensures first { IfSome result (λ r. IsFirst (words_in bytes.now) r.0 (words_in r.1.now)) }
    ensures line { IfSome result (λ r. IsLine r.1.now) }
    ensures shorter { IfSome result (λ r. length r.1.now < length bytes.now) }
    ensures none { IfNone result (words_in bytes.now ≡ []) }
{
    if let Some(short) = short_number(bytes) {
        return Some(short);
    }
    any_number(bytes)
}

/// Returns the first word as a number, and what follows it, whatever that is.
#[inline(never)]
pub(crate) fn any_number(bytes: &[u8]) -> Option<(Number, &[u8])>
    requires { IsLine bytes.now }
    ensures first { IfSome result (λ r. IsFirst (words_in bytes.now) r.0 (words_in r.1.now)) }
    ensures line { IfSome result (λ r. IsLine r.1.now) }
    ensures shorter { IfSome result (λ r. length r.1.now < length bytes.now) }
    ensures none { IfNone result (words_in bytes.now ≡ []) }
{
    let (word, rest) = split_word(bytes)?;
    Some((Number::of(word), skip_blanks(rest)))
}

/// Returns the first number and what is after it, in one pass, where the bytes begin with few
/// digits.
#[inline(always)]
pub(crate) fn short_number(bytes: &[u8]) -> Option<(Number, &[u8])>
    requires { IsLine bytes.now }
    ensures first { IfSome result (λ r. IsFirst (words_in bytes.now) r.0 (words_in r.1.now)) }
    ensures line { IfSome result (λ r. IsLine r.1.now) }
    ensures shorter { IfSome result (λ r. length r.1.now < length bytes.now) }
{
    if bytes[0] == b'-' {
        let (value, rest) = digits_word(&bytes[1..])?;
        if value == 0 {
            return None;
        }
        let negative = true;
        return Some((Number::Exact { negative, value }, rest));
    }
    let (value, rest) = digits_word(bytes)?;
    let negative = false;
    Some((Number::Exact { negative, value }, rest))
}

/// Returns the value of a word of few digits in front, and what follows it. A space after it is
/// passed over.
#[inline(always)]
fn digits_word(bytes: &[u8]) -> Option<(u64, &[u8])>
    requires { IsLine bytes.now }
    ensures { IfSome result (λ r. IsDigitsWord bytes.now r.0 r.1.now) }
{
    let (value, len) = leading_digits(bytes);
    if len == 0 {
        return None;
    }
    let end = bytes[len];
    if end == b' ' {
        return Some((value, &bytes[len + 1..]));
    }
    if !ends_word(end) {
        return None;
    }
    Some((value, &bytes[len..]))
}

/// Returns the value of the digits in front, at most ten, and how many they are. The bound is a
/// constant, so no count is kept, and the LF ends them, so no length is compared.
#[inline(always)]
fn leading_digits(bytes: &[u8]) -> (u64, usize)
    requires { IsLine bytes.now }
    ensures { HasDigits bytes.now result.1 result.0 }
{
    let mut value = 0u64;
    let mut len = 0;
    'digits: while len < FEW_DIGITS && is_digit(bytes[len]) {
        value = value * 10 + (bytes[len] as u64 - b'0' as u64);
        len += 1;
    }
    (value, len)
}
