//! What numbers say.
ghost use Rattle.std.specs.Prelude.{◌≡◌, true};
ghost use Rattle.sat_formula.specs.Bytes.{is_digit};
ghost use Rattle.session_text.specs.Numbers.{code_said, id_said, lit_said, with_digit, with_group};

use crate::fault::TextKind;
use sat_formula::Lit;

/// Values above it are unspecified, and only that is kept of them.
const MAX_VALUE: u64 = 1 << 60;

/// The weight of the ninth byte of a binary number, which is its last.
pub(crate) const LAST_WEIGHT: u64 = 1 << 56;

/// Returns a value with one more digit. Of a value that is too large for an id only that is kept.
#[inline(always)]
pub(crate) fn with_digit(value: u64, digit: u8) -> u64
    requires { is_digit digit ≡ true }
    ensures { result ≡ with_digit value digit }
{
    value.min(MAX_VALUE) * 10 + (digit - b'0') as u64
}

/// Returns what digits of this value say, after a `-` or not: a literal, or none at the 0 that ends
/// a list of them.
#[inline(always)]
pub(crate) fn lit_said(negative: bool, value: u64) -> Result<Option<Lit>, TextKind>
    ensures { result ≡ lit_said negative value }
{
    match Lit::of_digits(negative, value) {
        Some(lit) => Ok(Some(lit)),
        None if value > 0 => Err(TextKind::NumberTooLarge),
        None if negative => Err(TextKind::Malformed),
        None => Ok(None),
    }
}

/// Returns a value with the next seven bits of a binary number, of this weight.
#[inline(always)]
pub(crate) fn with_group(value: u64, weight: u64, byte: u8) -> u64
    ensures { result ≡ with_group value weight byte }
{
    value.saturating_add(((byte % 128) as u64).saturating_mul(weight))
}

/// Returns what a binary number says among literals: a literal, or none at the 0 that ends them.
#[inline(always)]
pub(crate) fn code_said(number: u64) -> Result<Option<Lit>, TextKind>
    ensures { result ≡ code_said number }
{
    match number {
        0 => Ok(None),
        1 => Err(TextKind::Malformed),
        _ => match Lit::from_code(number as usize - 2) {
            Some(lit) => Ok(Some(lit)),
            None => Err(TextKind::NumberTooLarge),
        },
    }
}

/// Returns what digits say in a list of ids: an id, or none at the 0 that ends it.
#[inline(always)]
pub(crate) fn id_said(negative: bool, value: u64) -> Result<Option<u64>, TextKind>
    ensures { result ≡ id_said negative value }
{
    if negative {
        return Err(TextKind::Malformed);
    }
    if value >= MAX_VALUE {
        return Err(TextKind::NumberTooLarge);
    }
    if value == 0 {
        return Ok(None);
    }
    Ok(Some(value))
}
