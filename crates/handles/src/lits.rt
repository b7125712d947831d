//! Literals by their DIMACS numbers.
ghost use Rattle.std.specs.Prelude.{◌≡◌, None, Some, IfErr, IfOk, OnOk, true, if◌then◌else◌};
ghost use Rattle.handles.specs.Numbers.{IsUnread, are_lits, is_lit, lit_of, lits_of};
ghost use Rattle.handles.specs.declared.lits.LitsFault.TheVariants.{OutOfMemory};

use sat_formula::Lit;
use std::alloc::{AllocFailed, Global};

/// Why numbers are not read as literals.
#[derive(Clone, Copy, Debug, PartialEq, Eq)]
pub enum LitsFault {
    /// A number is that of no literal.
    NoLit,
    /// There was no memory for the literals.
    OutOfMemory,
}

impl<T: Drop> From<AllocFailed<T>> for LitsFault {
    ghost from_gives = { λ _ r. r ≡ OutOfMemory };

    fn from(_e: AllocFailed<T>) -> LitsFault {
        LitsFault::OutOfMemory
    }
}

/// Returns the literal of a number, if it has one.
fn read_lit(number: i32) -> Option<Lit>
    ensures { result ≡ (if is_lit number then Some (lit_of number) else None) }
{
    Lit::of_digits(number < 0, number.unsigned_abs() as u64)
}

/// Returns the literals of the numbers.
///
/// # Errors
///
/// `NoLit` if a number has none, or there is no memory.
pub fn read_lits(alloc: Global, numbers: &[i32]) -> Result<Vec<Lit>, LitsFault>
    ensures lits { IfOk result (λ lits. lits.items ≡ lits_of numbers.now) }
    ensures ok { OnOk result (are_lits numbers.now ≡ true) }
    ensures err { IfErr result (λ fault. IsUnread fault (are_lits numbers.now)) }
{
    let mut lits = Vec::new(alloc);
    for number in numbers {
        let Some(lit) = read_lit(*number) else {
            return Err(LitsFault::NoLit);
        };
        lits.push(lit)?;
    }
    Ok(lits)
}
