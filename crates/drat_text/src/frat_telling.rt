//! Whether a proof is FRAT, by its first bytes.
ghost use Rattle.std.specs.Prelude.{◌≡◌, ◌≤◌};
ghost use Rattle.drat_text.specs.Taking.{Looks, unread_bytes, room_in, source_of};
ghost use Rattle.drat_text.specs.FratBytes.{is_frat, seen_at};
ghost use Rattle.drat_text.specs.FratTelling.{TellsFrat};

use crate::bytes::{Bytes, LOOKED_AT};
use crate::fault::{DratFault, DratKind};
use crate::number::{begins_comment, is_space};
use sat_formula::stop::Stop;
use std::io::Read;

/// What a byte before the first step shows.
#[derive(Clone, Copy)]
pub(crate) enum Sight {
    /// The first step comes later; the next byte is in a comment or not.
    Later { in_comment: bool },
    /// It begins with this byte, and the proof is FRAT or not.
    Told(bool),
}

/// Returns whether a proof is FRAT and not DRAT: its first step begins with an `o`, `f`, `l` or
/// `r`. Only blanks and comments are before that step, and all is among the first 4,096 bytes.
/// Takes no byte.
///
/// # Errors
///
/// A failed read or out of memory.
pub fn is_frat<R: Read>(bytes: &mut Bytes<R>) -> Result<bool, DratFault>
    ensures told { TellsFrat (unread_bytes R.remaining bytes.old)
        (unread_bytes R.remaining bytes.new) (source_of bytes.new) result }
    ensures room { room_in bytes.new ≤ room_in bytes.old }
{
    match look_through(bytes) {
        Ok(answer) => Ok(answer),
        Err(Stop::Read) => Err(DratFault::Read(bytes.error())),
        Err(_) => Err(DratFault::OutOfMemory),
    }
}

/// Looks at the next bytes up to the first step.
fn look_through<R: Read>(bytes: &mut Bytes<R>) -> Result<bool, Stop<DratKind>>
    ensures told { Looks is_frat (unread_bytes R.remaining bytes.old)
        (unread_bytes R.remaining bytes.new) (source_of bytes.new) result }
    ensures room { room_in bytes.new ≤ room_in bytes.old }
{
    let mut place = 0;
    let mut in_comment = false;
    'bytes: while place < LOOKED_AT {
        let Some(byte) = bytes.peek(place)? else {
            return Ok(false);
        };
        match seen_at(in_comment, byte) {
            Sight::Later { in_comment: next } => in_comment = next,
            Sight::Told(answer) => return Ok(answer),
        }
        place += 1;
    }
    Ok(false)
}

/// Returns what the next byte shows, in a comment or not.
fn seen_at(in_comment: bool, byte: u8) -> Sight
    ensures { result ≡ seen_at in_comment byte }
{
    if in_comment {
        let in_comment = byte != b'\n';
        return Sight::Later { in_comment };
    }
    if begins_comment(byte) {
        return Sight::Later { in_comment: true };
    }
    if is_space(byte) {
        return Sight::Later { in_comment: false };
    }
    Sight::Told(byte == b'o' || byte == b'f' || byte == b'l' || byte == b'r')
}
