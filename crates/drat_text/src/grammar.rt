//! What a kind of proof has of its own.
ghost use Rattle.std.specs.Prelude.{◌≡◌};
ghost use Rattle.drat_text.specs.Places.{Rules, IsLastWeight};
ghost use Rattle.drat_text.specs.Reading.{Begins, TakesNumber};

use crate::bytes::Format;
use crate::fault::DratKind;
use sat_formula::stop::Stop;
use std::alloc::Global;

/// A kind of proof. A value is a draft: what was read of a step.
pub trait Grammar: Drop {
    /// A step that has ended, without its lists.
    type Found: Copy;

    // What was read of a step, as the rules know it.
    ghost Slot: { Type 0 };

    // A step of the proof.
    ghost Step: { Type 0 };

    ghost rules: { Rules Slot Step };

    ghost slot_of: { Self → Slot };

    ghost step_of: { Self → Self.Found → Step };

    /// Returns a draft in which no step is begun. Allocates no memory.
    fn new(alloc: Global) -> Self;

    /// Returns whether a comment of a text begins with the byte.
    fn begins_comment(byte: u8) -> bool
        ensures { result ≡ rules.begins_comment byte };

    /// Begins a step by its letter, in place of the one before. Returns whether the byte is the
    /// letter of a step.
    fn begin(&mut self, format: Format, letter: u8) -> bool
        ensures { Begins (slot_of self.new) (rules.letter format letter) result };

    /// Begins a step of text that has no letter. Returns whether there are such.
    fn begin_bare(&mut self) -> bool
        ensures { Begins (slot_of self.new) rules.bare result };

    /// Returns whether the next binary number has a sign, as its last bit.
    fn is_signed(&self) -> bool
        ensures { result ≡ rules.is_signed (slot_of self.now) };

    /// Takes the next number. Returns the step, if the number ends it.
    ///
    /// # Errors
    ///
    /// Why the number is not allowed here, or out of memory.
    fn take(&mut self, negative: bool, value: u64) -> Result<Option<Self::Found>, Stop<DratKind>>
        ensures { TakesNumber (step_of self.new) (slot_of self.new)
            (rules.said (slot_of self.old) negative value) result };

    /// Returns the weight of the last byte that a binary number can have.
    fn last_weight() -> u64
        ensures is { result ≡ rules.last_weight }
        ensures weight { IsLastWeight result };

    /// Returns the format by the first byte, unless the bytes after it are asked too.
    fn first_tells(byte: u8) -> Option<Format>
        ensures { result ≡ rules.first_tells byte };
}
