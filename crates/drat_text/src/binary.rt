//! Binary steps.
ghost use Rattle.std.specs.Prelude.{◌<◌, ◌≤◌, IfOk};
ghost use Rattle.drat_text.specs.declared.bytes.Format.TheVariants as formats;
ghost use Rattle.drat_text.specs.Places.{Within, coded};
ghost use Rattle.drat_text.specs.Proofs.{outcome_at, outcome_in};
ghost use Rattle.drat_text.specs.Reading.{ReadsStep, TakesNumber};
ghost use Rattle.drat_text.specs.Taking.{unread_bytes, room_in, source_of};

use crate::bytes::{Bytes, Format};
use crate::code::read_code;
use crate::fault::DratKind;
use crate::grammar::Grammar;
use crate::step::StepEnd;
use sat_formula::stop::Stop;
use std::io::Read;

/// Reads a step into a draft, and returns how it ended.
pub(crate) fn binary_step<G: Grammar, R: Read>(
    bytes: &mut Bytes<R>,
    draft: &mut G,
) -> Result<StepEnd<G::Found>, Stop<DratKind>>
    ensures read { ReadsStep G.rules formats.Binary (G.step_of draft.new)
        (unread_bytes R.remaining bytes.old) (unread_bytes R.remaining bytes.new)
        (outcome_in G.rules formats.Binary) (source_of bytes.new) result }
    ensures nearer { IfOk result (λ _. room_in bytes.new < room_in bytes.old) }
    ensures room { room_in bytes.new ≤ room_in bytes.old }
{
    let letter = bytes.next_byte()?;
    if !draft.begin(Format::Binary, letter) {
        return Err(Stop::Wrong(DratKind::Malformed));
    }
    codes(bytes, draft)
}

/// Reads numbers to the end of the step.
fn codes<G: Grammar, R: Read>(
    bytes: &mut Bytes<R>,
    draft: &mut G,
) -> Result<StepEnd<G::Found>, Stop<DratKind>>
    ensures read { ReadsStep G.rules formats.Binary (G.step_of draft.new)
        (unread_bytes R.remaining bytes.old) (unread_bytes R.remaining bytes.new)
        (outcome_at G.rules formats.Binary (Within (G.slot_of draft.old))) (source_of bytes.new)
        result }
    ensures room { room_in bytes.new ≤ room_in bytes.old }
{
    'codes: loop {
        let code = read_code(bytes, G::last_weight())?;
        if let Some(found) = take_code(draft, code)? {
            let last = false;
            return Ok(StepEnd { found, last });
        }
    }
}

/// Passes a binary number to a draft.
#[inline(always)]
fn take_code<G: Grammar>(draft: &mut G, code: u64) -> Result<Option<G::Found>, Stop<DratKind>>
    ensures { TakesNumber (G.step_of draft.new) (G.slot_of draft.new)
        (coded G.rules (G.slot_of draft.old) code) result }
{
    if draft.is_signed() {
        draft.take(code % 2 == 1, code / 2)
    } else {
        draft.take(false, code)
    }
}
