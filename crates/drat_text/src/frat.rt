//! The FRAT step that is read.
ghost use Rattle.std.specs.Prelude.{◌≡◌, []};
ghost use Rattle.std.specs.Option.{option_map};
ghost use Rattle.drat_text.specs.Reading.{TakesNumber};
ghost use Rattle.drat_text.specs.FratBytes.{slot_begun};
ghost use Rattle.drat_text.specs.declared.frat.Due.TheVariants as dues;
ghost use Rattle.drat_text.specs.FratDrafts.{found_step, slot_at, slot_of, view};
ghost use Rattle.drat_text.specs.FratRules.{frat, id_due, said};
ghost use Rattle.drat_text.specs.FratSlots.{Slot};
ghost use Rattle.drat_text.specs.FratProofs.{Step};

use crate::bytes::Format;
use crate::fault::DratKind;
use crate::frat_step::{FratAction, FratHint, FratStep, Renaming};
use crate::grammar::Grammar;
use crate::number::lit_said;
use sat_formula::Lit;
use sat_formula::stop::Stop;
use std::alloc::Global;

/// The largest id.
const MAX_ID: u64 = (1 << 60) - 1;

/// The weight of the ninth byte of a binary number, which is its last.
const LAST_WEIGHT: u64 = 1 << 56;

/// What is due next in a step.
#[derive(Clone, Copy)]
pub(crate) enum Due {
    /// The id of its clause.
    Id(FratAction),
    /// A literal of the clause of this id, or the 0 after the last.
    Lit(FratAction, u64),
    /// A hint, or the 0 after the last.
    Hint,
    /// An id that a clause has, or the 0 after the last pair.
    From,
    /// The id that the clause of this one gets.
    To(u64),
}

/// A step that has ended, without its lists.
#[derive(Clone, Copy)]
pub enum Found {
    Clause(FratAction, u64),
    Hints,
    Renames,
}

/// What was read of a step.
#[derive(Drop)]
pub struct Draft {
    due: Due,
    lits: Vec<Lit>,
    hints: Vec<FratHint>,
    renamings: Vec<Renaming>,
}

impl Draft {
    /// Takes a literal of a clause, or the 0 after the last.
    #[inline(always)]
    fn take_lit(
        &mut self,
        action: FratAction,
        id: u64,
        negative: bool,
        value: u64,
    ) -> Result<Option<Found>, Stop<DratKind>>
        requires { self.old.due ≡ dues.Lit action id }
        ensures { TakesNumber (found_step self.new) (slot_of self.new)
            (said (slot_of self.old) negative value) result }
    {
        match lit_said(negative, value)? {
            Some(lit) => {
                self.lits.push(lit)?;
                Ok(None)
            }
            None => Ok(Some(Found::Clause(action, id))),
        }
    }

    /// Takes a hint, or the 0 after the last.
    #[inline(always)]
    fn take_hint(&mut self, negative: bool, value: u64) -> Result<Option<Found>, Stop<DratKind>>
        requires { self.old.due ≡ dues.Hint }
        ensures { TakesNumber (found_step self.new) (slot_of self.new)
            (said (slot_of self.old) negative value) result }
    {
        if value > MAX_ID {
            return Err(Stop::Wrong(DratKind::NumberTooLarge));
        }
        if value > 0 {
            self.hints.push(FratHint {
                id: value,
                is_negative: negative,
            })?;
            return Ok(None);
        }
        if negative {
            return Err(Stop::Wrong(DratKind::Malformed));
        }
        Ok(Some(Found::Hints))
    }

    /// Takes the id of a clause.
    fn take_id(
        &mut self,
        action: FratAction,
        negative: bool,
        value: u64,
    ) -> Result<Option<Found>, Stop<DratKind>>
        requires { self.old.due ≡ dues.Id action }
        ensures { TakesNumber (found_step self.new) (slot_of self.new)
            (said (slot_of self.old) negative value) result }
    {
        let id = id_due(negative, value)?;
        self.due = Due::Lit(action, id);
        self.lits.clear();
        Ok(None)
    }

    /// Takes an id that a clause has, or the 0 after the last pair.
    fn take_from(&mut self, negative: bool, value: u64) -> Result<Option<Found>, Stop<DratKind>>
        requires { self.old.due ≡ dues.From }
        ensures { TakesNumber (found_step self.new) (slot_of self.new)
            (said (slot_of self.old) negative value) result }
    {
        if negative {
            return Err(Stop::Wrong(DratKind::Malformed));
        }
        if value == 0 {
            return Ok(Some(Found::Renames));
        }
        if value > MAX_ID {
            return Err(Stop::Wrong(DratKind::NumberTooLarge));
        }
        self.due = Due::To(value);
        Ok(None)
    }

    /// Takes the id that a clause gets.
    fn take_to(
        &mut self,
        from: u64,
        negative: bool,
        value: u64,
    ) -> Result<Option<Found>, Stop<DratKind>>
        requires { self.old.due ≡ dues.To from }
        ensures { TakesNumber (found_step self.new) (slot_of self.new)
            (said (slot_of self.old) negative value) result }
    {
        let to = id_due(negative, value)?;
        self.renamings.push(Renaming { from, to })?;
        self.due = Due::From;
        Ok(None)
    }

    /// Returns the step that has ended.
    pub(crate) fn step(&self, found: Found) -> FratStep<'_>
        ensures { view result ≡ found_step self.now found }
    {
        match found {
            Found::Clause(action, id) => FratStep::Clause {
                action,
                id,
                lits: &self.lits,
            },
            Found::Hints => FratStep::Hints(&self.hints),
            Found::Renames => FratStep::Renames(&self.renamings),
        }
    }
}

impl Grammar for Draft {
    type Found = Found;

    ghost Slot = { Slot };

    ghost Step = { Step };

    ghost rules = { frat };

    ghost slot_of = { slot_of };

    ghost step_of = { found_step };

    fn new(alloc: Global) -> Draft {
        Draft {
            due: Due::Hint,
            lits: Vec::new(alloc),
            hints: Vec::new(alloc),
            renamings: Vec::new(alloc),
        }
    }

    #[inline(always)]
    fn begins_comment(byte: u8) -> bool {
        byte == b'c'
    }

    fn begin(&mut self, _format: Format, letter: u8) -> bool {
        let Some(due) = due_after(letter) else {
            return false;
        };
        self.due = due;
        self.hints.clear();
        self.renamings.clear();
        true
    }

    fn begin_bare(&mut self) -> bool {
        false
    }

    #[inline(always)]
    fn is_signed(&self) -> bool {
        matches!(self.due, Due::Lit(_, _) | Due::Hint)
    }

    #[inline(always)]
    fn take(&mut self, negative: bool, value: u64) -> Result<Option<Found>, Stop<DratKind>> {
        match self.due {
            Due::Lit(action, id) => self.take_lit(action, id, negative, value),
            Due::Hint => self.take_hint(negative, value),
            Due::Id(action) => self.take_id(action, negative, value),
            Due::From => self.take_from(negative, value),
            Due::To(from) => self.take_to(from, negative, value),
        }
    }

    #[inline(always)]
    fn last_weight() -> u64 {
        LAST_WEIGHT
    }

    fn first_tells(byte: u8) -> Option<Format> {
        match due_after(byte) {
            Some(_) => None,
            None => Some(Format::Text),
        }
    }
}

/// Returns the id that a number says, if one is due.
fn id_due(negative: bool, value: u64) -> Result<u64, DratKind>
    ensures { result ≡ id_due negative value }
{
    if negative || value == 0 {
        return Err(DratKind::Malformed);
    }
    if value > MAX_ID {
        return Err(DratKind::NumberTooLarge);
    }
    Ok(value)
}

/// Returns what is due after a step's letter, where the byte is one.
fn due_after(letter: u8) -> Option<Due>
    ensures { option_map (λ due. slot_at due [] [] []) result ≡ slot_begun letter }
{
    match letter {
        b'o' => Some(Due::Id(FratAction::Original)),
        b'a' => Some(Due::Id(FratAction::Add)),
        b'd' => Some(Due::Id(FratAction::Delete)),
        b'f' => Some(Due::Id(FratAction::Final)),
        b'l' => Some(Due::Hint),
        b'r' => Some(Due::From),
        _ => None,
    }
}
