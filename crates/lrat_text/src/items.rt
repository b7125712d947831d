//! Lists of a line, each up to its 0.
ghost use Rattle.std.specs.Prelude.{◌≡◌, IfOk, Option, Result};
ghost use Rattle.lrat_text.specs.declared.number.Number.{Number};
ghost use Rattle.lrat_text.specs.declared.fault.LineKind.{LineKind};
ghost use Rattle.lrat_text.specs.Bytes.{IsLine, words_in};
ghost use Rattle.lrat_text.specs.Items.{lit_said, hint_said, id_said, items_at};
ghost use Rattle.lrat_text.specs.Reading.{ReadsAs};

use crate::fault::LineKind;
use crate::line::Hint;
use crate::number::{Number, any_number, short_number};
use sat_formula::Lit;
use sat_formula::stop::Stop;

/// What is in a list, by the number that says it.
pub(crate) trait Item: Copy {
    ghost said: { Number → Result (Option Self) LineKind };

    /// Returns an item, or none at the 0 that ends the list.
    fn of(number: Number) -> Result<Option<Self>, LineKind>
        ensures { result ≡ said number };
}

impl Item for Lit {
    ghost said = { lit_said };

    #[inline(always)]
    fn of(number: Number) -> Result<Option<Lit>, LineKind> {
        match number {
            Number::Exact { value: 0, .. } => Ok(None),
            Number::Exact { negative, value } => match Lit::of_digits(negative, value) {
                Some(lit) => Ok(Some(lit)),
                None => Err(LineKind::NumberTooLarge),
            },
            Number::Large => Err(LineKind::NumberTooLarge),
            Number::Bad => Err(LineKind::Malformed),
        }
    }
}

impl Item for Hint {
    ghost said = { hint_said };

    #[inline(always)]
    fn of(number: Number) -> Result<Option<Hint>, LineKind> {
        match number {
            Number::Exact { value: 0, .. } => Ok(None),
            Number::Exact {
                negative: false,
                value,
            } => Ok(Some(Hint::Along(value))),
            Number::Exact {
                negative: true,
                value,
            } => Ok(Some(Hint::Against(value))),
            Number::Large => Err(LineKind::NumberTooLarge),
            Number::Bad => Err(LineKind::Malformed),
        }
    }
}

impl Item for u64 {
    ghost said = { id_said };

    #[inline(always)]
    fn of(number: Number) -> Result<Option<u64>, LineKind> {
        match number {
            Number::Exact { value: 0, .. } => Ok(None),
            Number::Exact {
                negative: false,
                value,
            } => Ok(Some(value)),
            Number::Large => Err(LineKind::NumberTooLarge),
            Number::Exact { negative: true, .. } | Number::Bad => Err(LineKind::Malformed),
        }
    }
}

/// Reads a list to its 0 in place of what `into` held, and returns what follows it. `short` is the
/// fault of a list whose 0 is missing.
pub(crate) fn read_items<'a, T: Item>(
    bytes: &'a [u8],
    short: LineKind,
    into: &mut Vec<T>,
) -> Result<&'a [u8], Stop<LineKind>>
    requires { IsLine bytes.now }
    ensures read { ReadsAs (λ rest. (into.new.items, words_in rest.now))
        (items_at T.said short (words_in bytes.now)) result }
    ensures line { IfOk result (λ rest. IsLine rest.now) }
{
    into.clear();
    let mut rest = bytes;
    'words: loop {
        // apart, since what a call returns in memory is set to zero before it
        if let Some((number, after)) = short_number(rest) {
            match T::of(number)? {
                Some(item) => into.push(item)?,
                None => return Ok(after),
            }
            rest = after;
            continue;
        }
        let Some((number, after)) = any_number(rest) else {
            return Err(Stop::Wrong(short));
        };
        match T::of(number)? {
            Some(item) => into.push(item)?,
            None => return Ok(after),
        }
        rest = after;
    }
}
