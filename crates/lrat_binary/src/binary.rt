//! Lines from bytes.
ghost use Rattle.std.specs.Prelude.{◌<◌, ◌≤◌, ℕ, IfOk};
ghost use Rattle.drat_text.specs.Taking.{unread_bytes, room_in, source_of};
ghost use Rattle.lrat_binary.specs.Drafts.{slot_of};
ghost use Rattle.lrat_binary.specs.Lines.{binary_after, outcome_at};
ghost use Rattle.lrat_binary.specs.Places.{Within};
ghost use Rattle.lrat_binary.specs.Reading.{ReadsLine};

use crate::draft::Draft;
use crate::ids::Ids;
use drat_text::DratKind;
use drat_text::bytes::Bytes;
use drat_text::code::read_code;
use lrat_text::row::Head;
use sat_formula::stop::Stop;
use std::io::Read;

/// The weight of the ninth byte of a number, which is its last.
const LAST_WEIGHT: u64 = 1 << 56;

/// Reads a line into the draft. Returns its head.
pub(crate) fn read_line<R: Read>(
    bytes: &mut Bytes<R>,
    ids: Ids,
    draft: &mut Draft,
) -> Result<Head, Stop<DratKind>>
    ensures read { (before : ℕ) → ReadsLine ids before draft.new
        (unread_bytes R.remaining bytes.old) (unread_bytes R.remaining bytes.new)
        (binary_after ids before) (source_of bytes.new) result }
    ensures nearer { IfOk result (λ _. room_in bytes.new < room_in bytes.old) }
    ensures room { room_in bytes.new ≤ room_in bytes.old }
{
    let letter = bytes.next_byte()?;
    draft.begin(letter)?;
    read_numbers(bytes, ids, draft)
}

/// Reads numbers to the end of the line. Returns its head.
fn read_numbers<R: Read>(
    bytes: &mut Bytes<R>,
    ids: Ids,
    draft: &mut Draft,
) -> Result<Head, Stop<DratKind>>
    ensures read { (before : ℕ) → ReadsLine ids before draft.new
        (unread_bytes R.remaining bytes.old) (unread_bytes R.remaining bytes.new)
        (outcome_at ids before (Within (slot_of draft.old))) (source_of bytes.new) result }
    ensures room { room_in bytes.new ≤ room_in bytes.old }
{
    'numbers: loop {
        let number = read_code(bytes, LAST_WEIGHT)?;
        if let Some(head) = draft.take(ids, number)? {
            return Ok(head);
        }
    }
}
