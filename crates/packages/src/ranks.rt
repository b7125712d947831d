//! The ranks of a part of a version, and their order.
ghost use Rattle.std.specs.Prelude.{◌≡◌, ◌+◌, ◌*◌, ◌<◌, ◌^◌, ◌∷◌, ◌++◌, List, ℕ, None, false, IfErr, IfOk, SomeIff};
ghost use Rattle.package_rules.specs.Debian.{against_rest, compare_ranks, is_digit, rank, ranks};
ghost use Rattle.packages.specs.Versions.{IsFaultOf};

use crate::fault::VersionFault;
use std::alloc::Global;
use std::cmp::Ordering;

/// Returns the ranks of a part.
pub(crate) fn ranks(alloc: Global, text: &[u8]) -> Result<Vec<u64>, VersionFault>
    ensures ranks { IfOk result (λ all. all.items ≡ ranks None text.now) }
    ensures fault { IfErr result (IsFaultOf (ranks None text.now)) }
{
    let mut all = Vec::new(alloc);
    let mut number = None;
    for byte in text {
        number = after(&mut all, number, *byte)?;
    }
    if let Some(number) = number {
        all.push(number)?;
    }
    Ok(all)
}

/// Takes a byte: adds the ranks that are known by it, and returns the number of the digits so far.
fn after(all: &mut Vec<u64>, number: Option<u64>, byte: u8) -> Result<Option<u64>, VersionFault>
    ensures next { IfOk result (λ next. (cs : List ℕ)
        → all.new.items ++ ranks next cs ≡ all.old.items ++ ranks number (byte ∷ cs)) }
    ensures fault { IfErr result (λ fault. (cs : List ℕ)
        → IsFaultOf (ranks number (byte ∷ cs)) fault) }
{
    if !is_digit(byte) {
        if let Some(number) = number {
            all.push(number)?;
        }
        all.push(rank(byte))?;
        return Ok(None);
    }
    let digit = (byte - b'0') as u64;
    match number {
        Some(number) => match with_digit(number, digit) {
            Some(next) => Ok(Some(next)),
            None => Err(VersionFault::TooLarge),
        },
        None => {
            all.push(1)?;
            Ok(Some(digit))
        }
    }
}

/// Returns the number with one more digit, if it is below 2^64.
fn with_digit(number: u64, digit: u64) -> Option<u64>
    requires { digit < 10 }
    ensures { SomeIff result (10 * number + digit < 2 ^ 64) (10 * number + digit) }
{
    number.checked_mul(10)?.checked_add(digit)
}

/// Whether a byte is a digit.
fn is_digit(byte: u8) -> bool
    ensures { result ≡ is_digit byte }
{
    b'0' <= byte && byte <= b'9'
}

/// Returns the rank of a byte that is no digit.
fn rank(byte: u8) -> u64
    ensures { result ≡ rank byte }
{
    match byte {
        b'~' => 0,
        b'A'..=b'Z' | b'a'..=b'z' => byte as u64 + 2,
        _ => byte as u64 + 130,
    }
}

/// Compares the ranks of two parts.
pub(crate) fn compare_ranks(one: &[u64], other: &[u64]) -> Ordering
    ensures { result ≡ compare_ranks false one.now other.now }
{
    let mut number = false;
    for (place, rank) in one.iter().enumerate() {
        if place == other.len() {
            return against_rest(number, &one[place..]);
        }
        let order = rank.cmp(&other[place]);
        if order != Ordering::Equal {
            return order;
        }
        number = !number && *rank == 1;
    }
    against_rest(number, &other[one.len()..]).reverse()
}

/// Compares the rest of a part with the end of another one, which goes on with no digits and
/// nothing else. `number` says that a number is next.
fn against_rest(number: bool, rest: &[u64]) -> Ordering
    ensures { result ≡ against_rest number rest.now }
{
    let mut is_number = number;
    for rank in rest {
        let order = rank.cmp(&if is_number { 0 } else { 1 });
        if order != Ordering::Equal {
            return order;
        }
        is_number = !is_number;
    }
    Ordering::Equal
}
