//! The literals, hints and ids of the numbers of binary lines.
ghost use Rattle.std.specs.Prelude.{◌≡◌};
ghost use Rattle.lrat_binary.specs.Numbers.{lit_said, hint_said, id_said};

use crate::ids::Ids;
use drat_text::DratKind;
use lrat_text::Hint;
use sat_formula::Lit;

/// Returns the literal of a number, or none for the 0 that ends a clause.
///
/// # Errors
///
/// `Malformed` for 1, `NumberTooLarge` if there is no such variable.
#[inline(always)]
pub(crate) fn lit_said(number: u64) -> Result<Option<Lit>, DratKind>
    ensures { result ≡ lit_said number }
{
    match number {
        0 => Ok(None),
        1 => Err(DratKind::Malformed),
        _ => match Lit::from_code(number as usize - 2) {
            Some(lit) => Ok(Some(lit)),
            None => Err(DratKind::NumberTooLarge),
        },
    }
}

/// Returns the hint of a number, or none for the 0 that ends them.
///
/// # Errors
///
/// `Malformed` for 1.
#[inline(always)]
pub(crate) fn hint_said(number: u64) -> Result<Option<Hint>, DratKind>
    ensures { result ≡ hint_said number }
{
    match number {
        0 => Ok(None),
        1 => Err(DratKind::Malformed),
        _ if number % 2 == 0 => Ok(Some(Hint::Along(number / 2))),
        _ => Ok(Some(Hint::Against(number / 2))),
    }
}

/// Returns the id of a line or of a deletion, or none for the 0 that ends a deletion.
///
/// # Errors
///
/// `Malformed` for an odd number, if ids are doubled.
#[inline(always)]
pub(crate) fn id_said(ids: Ids, number: u64) -> Result<Option<u64>, DratKind>
    ensures { result ≡ id_said ids number }
{
    let id = match ids {
        Ids::Plain => number,
        Ids::Doubled => {
            if number % 2 == 1 {
                return Err(DratKind::Malformed);
            }
            number / 2
        }
    };
    if id == 0 { Ok(None) } else { Ok(Some(id)) }
}
