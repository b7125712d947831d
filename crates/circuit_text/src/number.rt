//! Numbers: digits in lines, and the binary numbers of gates.
ghost use Rattle.std.specs.Prelude.{◌≡◌};
ghost use Rattle.circuit_text.specs.automaton.Numbers.{digits_after, number_after};

use sat_formula::bytes::{is_digit, value_after};

/// No byte of a binary number has a larger weight.
const LAST_WEIGHT: u32 = 0x1000_0000;

/// The largest value and weight of a part of a binary number.
const MOST: u64 = 0xffff_ffff;

/// What a byte is to a binary number.
#[derive(Clone, Copy)]
pub(crate) enum Number {
    /// One of its bytes: now they have this value, and the next one has this weight.
    Partial(u32, u32),
    /// Its last byte: this is its value.
    Whole(u64),
    TooLong,
}

/// What a byte is to a binary number, of which bytes of this value were read, where it has this
/// weight: seven bits, and whether it is the last one.
#[inline(always)]
pub(crate) fn number_after(value: u32, weight: u32, byte: u8) -> Number
    ensures { result ≡ number_after value weight byte }
{
    let sum = value as u64 + (byte % 128) as u64 * weight as u64;
    if byte < 128 {
        return Number::Whole(sum);
    }
    let next = weight as u64 * 128;
    if weight == LAST_WEIGHT || sum > MOST || next > MOST {
        Number::TooLong
    } else {
        Number::Partial(sum as u32, next as u32)
    }
}

/// What a byte is to digits.
#[derive(Clone, Copy)]
pub(crate) enum Digits {
    /// One more, which gives this value.
    More(u64),
    /// The byte after them; this is their value.
    Whole(u64),
    /// No digit, where there was none before it.
    Missing,
}

/// What a byte is to digits of this value, or to a number without digits yet.
#[inline(always)]
pub(crate) fn digits_after(value: Option<u64>, byte: u8) -> Digits
    ensures { result ≡ digits_after value byte }
{
    match value {
        _ if is_digit(byte) => Digits::More(value_after(value.unwrap_or(0), byte)),
        Some(whole) => Digits::Whole(whole),
        None => Digits::Missing,
    }
}
