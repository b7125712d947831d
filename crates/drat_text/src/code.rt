//! Numbers of binary steps.
ghost use Rattle.std.specs.Prelude.{◌<◌, ◌≤◌, IfOk, IfSome, Some, drop, length};
ghost use Rattle.drat_text.specs.Codes.{code_at, Whole};
ghost use Rattle.drat_text.specs.Places.{IsLastWeight};
ghost use Rattle.drat_text.specs.Reading.{TakesCode};
ghost use Rattle.drat_text.specs.Taking.{Leads, unread_bytes, room_in, source_of};

use crate::bytes::Bytes;
use crate::fault::DratKind;
use sat_formula::stop::Stop;
use std::io::Read;

/// No number has more bytes.
const LONGEST_CODE: usize = 9;

/// Reads a number and returns it: seven bits a byte, the low ones first, and none after that of the
/// last weight.
///
/// # Errors
///
/// The fault of a number that is too large or unfinished, a failed read or out of memory.
#[inline(always)]
pub fn read_code<R: Read>(bytes: &mut Bytes<R>, last_weight: u64) -> Result<u64, Stop<DratKind>>
    requires { IsLastWeight last_weight }
    ensures read { TakesCode last_weight (unread_bytes R.remaining bytes.old)
        (unread_bytes R.remaining bytes.new) (source_of bytes.new) result }
    ensures nearer { IfOk result (λ _. room_in bytes.new < room_in bytes.old) }
    ensures room { room_in bytes.new ≤ room_in bytes.old }
{
    match code_ahead(bytes.ahead(), last_weight) {
        Some((value, count)) => {
            bytes.take_ahead(count);
            Ok(value)
        }
        None => code_by_bytes(bytes, last_weight),
    }
}

/// Returns the number that the bytes begin with, and how many of them say it. None where fewer
/// bytes are there than the longest number has, and where it has too many.
#[inline(always)]
fn code_ahead(bytes: &[u8], last_weight: u64) -> Option<(u64, usize)>
    requires { IsLastWeight last_weight }
    ensures some { IfSome result (λ r. 0 < r.1) }
    ensures within { IfSome result (λ r. r.1 ≤ length bytes.now) }
    ensures read { IfSome result (λ r. Leads (Some bytes.now) (Some (drop r.1 bytes.now))
        (code_at last_weight 0 1) (λ more. (Whole r.0, more))) }
{
    if bytes.len() < LONGEST_CODE {
        return None;
    }
    let first = bytes[0];
    if first < 128 {
        return Some((first as u64, 1));
    }
    let second = bytes[1];
    if second < 128 {
        return Some(((first - 128) as u64 + second as u64 * 128, 2));
    }
    let mut code = (first - 128) as u64 + (second - 128) as u64 * 128;
    let mut scale = 128u64 * 128;
    'groups: for before in 2..LONGEST_CODE {
        let byte = bytes[before];
        if byte < 128 {
            return Some((code + scale * byte as u64, before + 1));
        }
        if scale == last_weight {
            return None;
        }
        code += scale * (byte - 128) as u64;
        scale *= 128;
    }
    None
}

/// Reads a number, a byte at a time.
#[inline(never)]
fn code_by_bytes<R: Read>(bytes: &mut Bytes<R>, last_weight: u64) -> Result<u64, Stop<DratKind>>
    requires { IsLastWeight last_weight }
    ensures read { TakesCode last_weight (unread_bytes R.remaining bytes.old)
        (unread_bytes R.remaining bytes.new) (source_of bytes.new) result }
    ensures nearer { IfOk result (λ _. room_in bytes.new < room_in bytes.old) }
    ensures room { room_in bytes.new ≤ room_in bytes.old }
{
    let mut value = 0;
    let mut weight = 1;
    'groups: loop {
        let byte = bytes.next_within()?;
        value += (byte % 128) as u64 * weight;
        if byte < 128 {
            return Ok(value);
        }
        if weight == last_weight {
            return Err(Stop::Wrong(DratKind::NumberTooLarge));
        }
        weight *= 128;
    }
}
