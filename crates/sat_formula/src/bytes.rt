//! Bytes of a text: those between words, and digits.
ghost use Rattle.std.specs.Prelude.{◌≡◌, true};
ghost use Rattle.sat_formula.specs.Bytes.{is_blank, is_digit};
ghost use Rattle.sat_formula.specs.Digits.{ends_word, value_after};

use crate::lit::Var;

const MAX_VALUE: u64 = Var::MAX_COUNT as u64;

/// Returns whether the byte is a space, a tab or a CR.
#[inline(always)]
pub fn is_blank(byte: u8) -> bool
    ensures { result ≡ is_blank byte }
{
    byte == b' ' || byte == b'\t' || byte == b'\r'
}

/// Returns whether the byte is a blank or an LF. A space takes one comparison, most bytes of a word
/// take two.
#[inline(always)]
pub fn ends_word(byte: u8) -> bool
    ensures { result ≡ ends_word byte }
{
    byte == b' ' || byte <= b'\r' && (is_blank(byte) || byte == b'\n')
}

/// Returns whether the byte is `0` to `9`.
#[inline(always)]
pub fn is_digit(byte: u8) -> bool
    ensures { result ≡ is_digit byte }
{
    b'0' <= byte && byte <= b'9'
}

/// Returns the value of digits with one more. Of a value that is too large for a variable only that
/// is kept.
#[inline(always)]
pub fn value_after(value: u64, digit: u8) -> u64
    requires { is_digit digit ≡ true }
    ensures { result ≡ value_after value digit }
{
    value.min(MAX_VALUE + 1) * 10 + (digit - b'0') as u64
}
