//! Fields read out of the bytes that are read ahead, where enough are.
ghost use Rattle.std.specs.Prelude.{◌≡◌, ◌≤◌, ◌<◌, ◌*◌, ◌%◌, ◌^◌, ◌++◌, ◌∷◌, [], ℕ, List, Ok, IfSome, length, take, vec_len};
ghost use Rattle.proof_bytes.specs.Ahead.{AreGroups, Joins, ReadAs};
ghost use Rattle.proof_bytes.specs.Fields.{bytes_at, hash_at, lit_at, wide_at};
ghost use Rattle.proof_bytes.specs.Formats.{IsFormat};
ghost use Rattle.proof_bytes.specs.Reading.{number_at};
ghost use Rattle.proof_bytes.specs.Taking.{IsBytes};

use crate::format::{Format, fits_width};
use crate::hash::ClauseHash;
use sat_formula::Lit;

/// A number has at most this many bytes.
const LONGEST_NUMBER: usize = 10;

/// Returns the number that the bytes begin with, and how many bytes spell it. None where fewer
/// bytes are there than the longest number has, and where they begin with no number.
#[inline(always)]
pub(crate) fn number_ahead(bytes: &[u8]) -> Option<(u64, usize)>
    ensures bytes { IsBytes bytes.now }
    ensures within { IfSome result (λ r. r.1 ≤ length bytes.now) }
    ensures read { IfSome result (λ r.
        (more : List ℕ) → number_at (take r.1 bytes.now ++ more) ≡ Ok (r.0, more)) }
{
    if bytes.len() < LONGEST_NUMBER {
        return None;
    }
    let first = bytes[0];
    if first < 128 {
        return Some((first as u64, 1));
    }
    let mut value = (first - 128) as u64;
    let mut weight = 128u64;
    'groups: for before in 0..8usize {
        let byte = bytes[before + 1];
        if byte < 128 {
            if byte == 0 {
                return None;
            }
            return Some((value + weight * byte as u64, before + 2));
        }
        value += weight * (byte - 128) as u64;
        weight *= 128;
    }
    if bytes[9] == 1 {
        Some((value + weight, 10))
    } else {
        None
    }
}

/// Puts literals that the bytes begin with into an empty vector, and returns how many bytes spell
/// them.
///
/// It ends before a literal of more than two bytes, and before bytes that are no literal. It reads
/// at most `most`; as many as the vector has capacity for, so that it allocates nothing; and half
/// as many as there are bytes, so that each finds two bytes without a test.
#[inline(always)]
pub(crate) fn lits_ahead(bytes: &[u8], most: u64, into: &mut Vec<Lit>) -> usize
    requires { into.old.items ≡ [] }
    ensures bytes { IsBytes bytes.now }
    ensures within { result ≤ length bytes.now }
    ensures count { vec_len into.new ≤ most }
    ensures read { ReadAs lit_at (take result bytes.now) into.new.items }
{
    let room = into.capacity() as u64;
    let pairs = bytes.len() as u64 / 2;
    let mut at = 0;
    'items: for _ in 0..most.min(room).min(pairs) {
        match short_lit(bytes[at], bytes[at + 1]) {
            Some((lit, len)) => {
                into.push_reserved(lit);
                at += len;
            }
            None => return at,
        }
    }
    at
}

/// Returns the literal that two bytes begin with, and how many of them spell it. None where they
/// begin with a longer one, and where they begin with none.
#[inline(always)]
fn short_lit(first: u8, second: u8) -> Option<(Lit, usize)>
    ensures within { IfSome result (λ r. r.1 ≤ 2) }
    ensures read { IfSome result (λ r. (more : List ℕ)
        → lit_at (take r.1 (first ∷ second ∷ []) ++ more) ≡ Ok (r.0, more)) }
{
    if first < 128 {
        return Some((Lit::from_code(first as usize)?, 1));
    }
    if second == 0 || second >= 128 {
        return None;
    }
    let code = (first - 128) as usize + 128 * second as usize;
    Some((Lit::from_code(code)?, 2))
}

/// Puts hashes that the bytes begin with into an empty vector, and returns how many bytes spell
/// them.
///
/// It ends before a hash for which fewer bytes are there than the longest has, and before bytes
/// that are no hash. It reads at most `most`, and as many as the vector has capacity for, so that
/// it allocates nothing.
#[inline(always)]
pub(crate) fn hashes_ahead(
    bytes: &[u8],
    most: u64,
    format: Format,
    into: &mut Vec<ClauseHash>,
) -> usize
    requires in_force { IsFormat format }
    requires empty { into.old.items ≡ [] }
    ensures bytes { IsBytes bytes.now }
    ensures within { result ≤ length bytes.now }
    ensures count { vec_len into.new ≤ most }
    ensures read { ReadAs (hash_at format) (take result bytes.now) into.new.items }
{
    let room = into.capacity() as u64;
    let mut at = 0;
    'hashes: for _ in 0..most.min(room) {
        match hash_ahead(&bytes[at..], format) {
            Some((hash, len)) => {
                into.push_reserved(hash);
                at += len;
            }
            None => return at,
        }
    }
    at
}

/// Returns the hash that the bytes begin with, and how many bytes spell it. None where fewer bytes
/// are there than the longest has, if it is a short number, and where they begin with none.
#[inline(always)]
pub(crate) fn hash_ahead(bytes: &[u8], format: Format) -> Option<(ClauseHash, usize)>
    requires { IsFormat format }
    ensures bytes { IsBytes bytes.now }
    ensures within { IfSome result (λ r. r.1 ≤ length bytes.now) }
    ensures read { IfSome result (λ r.
        (more : List ℕ) → hash_at format (take r.1 bytes.now ++ more) ≡ Ok (r.0, more)) }
{
    match format {
        Format::Bytes { width } => wide_ahead(bytes, width),
        _ => long_number_ahead(bytes),
    }
}

/// The top bit of each of eight bytes.
const TOPS: u64 = 0x8080_8080_8080_8080;

/// Returns the number that the bytes begin with, and how many bytes spell it, if that is nine or
/// ten. None elsewhere.
#[inline(always)]
fn long_number_ahead(bytes: &[u8]) -> Option<(u64, usize)>
    ensures bytes { IsBytes bytes.now }
    ensures within { IfSome result (λ r. r.1 ≤ length bytes.now) }
    ensures read { IfSome result (λ r.
        (more : List ℕ) → number_at (take r.1 bytes.now ++ more) ≡ Ok (r.0, more)) }
{
    if bytes.len() < LONGEST_NUMBER {
        return None;
    }
    let front = u64::from_le_bytes([
        bytes[0], bytes[1], bytes[2], bytes[3], bytes[4], bytes[5], bytes[6], bytes[7],
    ]);
    if front & TOPS != TOPS {
        return None;
    }
    let value = joined_groups(front - TOPS);
    let ninth = bytes[8];
    if ninth < 128 {
        if ninth == 0 {
            return None;
        }
        return Some((value + (ninth as u64) * 0x100_0000_0000_0000, 9));
    }
    if bytes[9] != 1 {
        return None;
    }
    Some((
        value + ((ninth - 128) as u64) * 0x100_0000_0000_0000 + 0x8000_0000_0000_0000,
        10,
    ))
}

/// Eight groups of seven bits, one in each byte, as one number: pairs of groups are joined, then
/// pairs of pairs, then the two halves.
#[inline(always)]
fn joined_groups(groups: u64) -> u64
    requires { AreGroups groups }
    ensures joined { Joins groups result }
    ensures small { result < 2 ^ 56 }
{
    let even = groups & 0x00FF_00FF_00FF_00FF;
    let pairs = (groups + even) / 2;
    let even = pairs & 0x0000_FFFF_0000_FFFF;
    let fours = even + (pairs - even) / 4;
    fours % 0x1_0000_0000 + fours / 0x1_0000_0000 * 0x1000_0000
}

/// Returns a number of this many bits, in whole bytes with the low one first, and how many bytes
/// spell it. None where fewer than eight bytes are there, and where the number has more bits.
#[inline(always)]
fn wide_ahead(bytes: &[u8], width: u32) -> Option<(u64, usize)>
    requires { (0 < width) × (width ≤ 64) }
    ensures bytes { IsBytes bytes.now }
    ensures within { IfSome result (λ r. r.1 ≤ length bytes.now) }
    ensures read { IfSome result (λ r.
        (more : List ℕ) → wide_at width (take r.1 bytes.now ++ more) ≡ Ok (r.0, more)) }
{
    let front = eight_ahead(bytes)?;
    let count = (width + 7) / 8;
    let value = low_bytes(front, count);
    if fits_width(value, width) {
        Some((value, count as usize))
    } else {
        None
    }
}

/// Returns the number whose low bytes are what as many of the bytes spell. None where fewer than
/// eight are there.
#[inline(always)]
fn eight_ahead(bytes: &[u8]) -> Option<u64>
    ensures bytes { IsBytes bytes.now }
    ensures within { IfSome result (λ _. 8 ≤ length bytes.now) }
    ensures read { IfSome result (λ n. (count : ℕ) → count ≤ 8 → (more : List ℕ)
        → bytes_at count 0 1 (take count bytes.now ++ more) ≡ Ok (n % 2 ^ (8 * count), more)) }
{
    if bytes.len() < 8 {
        return None;
    }
    Some(u64::from_le_bytes([
        bytes[0], bytes[1], bytes[2], bytes[3], bytes[4], bytes[5], bytes[6], bytes[7],
    ]))
}

/// Returns the low bytes of a number.
#[inline(always)]
fn low_bytes(number: u64, count: u32) -> u64
    requires { count ≤ 8 }
    ensures { result ≡ number % 2 ^ (8 * count) }
{
    if count < 8 {
        number % (1u64 << (8 * count))
    } else {
        number
    }
}
