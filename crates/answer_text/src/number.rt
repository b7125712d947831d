//! The literals of the numbers of an answer.
ghost use Rattle.std.specs.Prelude.{◌≡◌};
ghost use Rattle.answer_text.specs.Numbers.{lit_said};

use crate::fault::AnswerKind;
use sat_formula::Lit;

/// Returns what digits of this value say, after a `-` or not: a literal, or none at the 0 that ends
/// them.
#[inline(always)]
pub(crate) fn lit_said(negative: bool, value: u64) -> Result<Option<Lit>, AnswerKind>
    ensures { result ≡ lit_said negative value }
{
    match Lit::of_digits(negative, value) {
        Some(lit) => Ok(Some(lit)),
        None if value > 0 => Err(AnswerKind::NumberTooLarge),
        None if negative => Err(AnswerKind::Malformed),
        None => Ok(None),
    }
}
