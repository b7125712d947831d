//! The steps of DRAT.
ghost use Rattle.std.specs.Prelude.{◌≡◌, []};
ghost use Rattle.drat_text.specs.DratRules.{Slot, Step, drat, slot_of, step_of, view};
ghost use Rattle.drat_text.specs.declared.drat.Action.{Action};

use crate::bytes::Format;
use crate::fault::DratKind;
use crate::grammar::Grammar;
use crate::number::{begins_comment, lit_said};
use sat_formula::Lit;
use sat_formula::stop::Stop;
use std::alloc::Global;

/// The weight of the fifth byte of a binary number, which is its last.
const LAST_WEIGHT: u64 = 1 << 28;

/// A step. Its literals are in the reader, as they are written.
#[derive(Clone, Copy, Debug, PartialEq, Eq)]
pub enum DratStep<'a> {
    /// The clause of these literals is added.
    Add(&'a [Lit]),
    /// A clause of these literals is deleted.
    Delete(&'a [Lit]),
}

/// What a step does with its clause.
#[derive(Clone, Copy)]
pub enum Action {
    Add,
    Delete,
}

/// What was read of a step.
#[derive(Drop)]
pub struct Draft {
    action: Action,
    lits: Vec<Lit>,
}

impl Draft {
    fn begin_step(&mut self, action: Action)
        ensures { slot_of self.new ≡ (action, []) }
    {
        self.action = action;
        self.lits.clear();
    }

    /// Returns the step that was read.
    pub(crate) fn step(&self, action: Action) -> DratStep<'_>
        ensures { view result ≡ step_of action self.now.lits.items }
    {
        match action {
            Action::Add => DratStep::Add(&self.lits),
            Action::Delete => DratStep::Delete(&self.lits),
        }
    }
}

impl Grammar for Draft {
    type Found = Action;

    ghost Slot = { Slot };

    ghost Step = { Step };

    ghost rules = { drat };

    ghost slot_of = { slot_of };

    ghost step_of = { λ draft action. step_of action draft.lits.items };

    fn new(alloc: Global) -> Draft {
        Draft {
            action: Action::Add,
            lits: Vec::new(alloc),
        }
    }

    #[inline(always)]
    fn begins_comment(byte: u8) -> bool {
        begins_comment(byte)
    }

    fn begin(&mut self, format: Format, letter: u8) -> bool {
        match (format, letter) {
            (Format::Binary, b'a') => self.begin_step(Action::Add),
            (_, b'd') => self.begin_step(Action::Delete),
            _ => return false,
        }
        true
    }

    fn begin_bare(&mut self) -> bool {
        self.begin_step(Action::Add);
        true
    }

    #[inline(always)]
    fn is_signed(&self) -> bool {
        true
    }

    #[inline(always)]
    fn take(&mut self, negative: bool, value: u64) -> Result<Option<Action>, Stop<DratKind>> {
        match lit_said(negative, value)? {
            Some(lit) => {
                self.lits.push(lit)?;
                Ok(None)
            }
            None => Ok(Some(self.action)),
        }
    }

    #[inline(always)]
    fn last_weight() -> u64 {
        LAST_WEIGHT
    }

    fn first_tells(byte: u8) -> Option<Format> {
        match byte {
            b'a' => Some(Format::Binary),
            b'd' => None,
            _ => Some(Format::Text),
        }
    }
}
