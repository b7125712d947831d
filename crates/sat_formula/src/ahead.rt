//! Short numbers, read out of the bytes that are read ahead.
ghost use Rattle.std.specs.Prelude.{◌≤◌, length, IfSome};
ghost use Rattle.sat_formula.specs.ShortNumbers.{HasDigits, IsShortNumber};

use crate::bytes::{ends_word, is_digit};
use crate::word::Number;

/// Numbers of this many digits are read at once. The value of none of them is cut.
const FEW_DIGITS: usize = 9;

/// Returns a number of few digits in front, how many bytes it takes, and the blank or the LF after
/// it. None is found where this many bytes as the longest takes aren't there.
#[inline(always)]
pub(crate) fn short_number(bytes: &[u8]) -> Option<(Number, usize, u8)>
    ensures { IfSome result (λ r. IsShortNumber bytes.now r.0 r.1 r.2) }
{
    if bytes.len() < FEW_DIGITS + 2 {
        return None;
    }
    let negative = bytes[0] == b'-';
    // Added and not branched on: signs of neighbouring literals predict nothing.
    let sign = negative as usize;
    let (value, digits) = few_digits(&bytes[sign..]);
    if digits == 0 {
        return None;
    }
    let len = sign + digits;
    let end = bytes[len];
    if !ends_word(end) {
        return None;
    }
    Some((Number::Digits { negative, value }, len, end))
}

/// Returns the value of the digits in front, and how many they are. The bound is a constant, so no
/// count is kept.
#[inline(always)]
fn few_digits(bytes: &[u8]) -> (u64, usize)
    requires { 9 ≤ length bytes.now }
    ensures few { result.1 ≤ 9 }
    ensures digits { HasDigits bytes.now result.1 result.0 }
{
    let mut value = 0u64;
    let mut len = 0;
    'digits: while len < FEW_DIGITS && is_digit(bytes[len]) {
        value = value * 10 + (bytes[len] as u64 - b'0' as u64);
        len += 1;
    }
    (value, len)
}
