//! Bytes of a text, and what numbers say.
ghost use Rattle.std.specs.Prelude.{◌≡◌};
ghost use Rattle.drat_text.specs.Bytes.{begins_comment, is_space, is_text_byte};
ghost use Rattle.drat_text.specs.Numbers.{lit_said};

use crate::fault::DratKind;
use sat_formula::Lit;

/// Returns whether the byte is between words: a blank or an LF.
#[inline(always)]
pub fn is_space(byte: u8) -> bool
    ensures { result ≡ is_space byte }
{
    byte == b' ' || byte == b'\n' || byte == b'\r' || byte == b'\t'
}

/// Returns whether the byte begins a comment, if it is between steps.
#[inline(always)]
pub fn begins_comment(byte: u8) -> bool
    ensures { result ≡ begins_comment byte }
{
    byte == b'c' || byte == b'%'
}

/// Returns whether a text can have the byte.
pub fn is_text_byte(byte: u8) -> bool
    ensures { result ≡ is_text_byte byte }
{
    is_space(byte) || b' ' <= byte && byte <= b'~'
}

/// Returns the literal of digits of this value, after a `-` or not, or `None` at a step's 0.
///
/// # Errors
///
/// `NumberTooLarge` above `Var::MAX_COUNT`, `Malformed` for a negative 0.
#[inline(always)]
pub fn lit_said(negative: bool, value: u64) -> Result<Option<Lit>, DratKind>
    ensures { result ≡ lit_said negative value }
{
    match Lit::of_digits(negative, value) {
        Some(lit) => Ok(Some(lit)),
        None if value > 0 => Err(DratKind::NumberTooLarge),
        None if negative => Err(DratKind::Malformed),
        None => Ok(None),
    }
}
