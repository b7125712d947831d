//! The stanzas of an index.
ghost use Rattle.std.specs.Prelude.{◌≡◌, [], ◌∷◌, OnOk};
ghost use Rattle.sat_formula.specs.declared.read_fault.UntakenByte.TheVariants as untaken;
ghost use Rattle.index_text.specs.Stanzas.{closed, entry_taken, nothing, stanzas_from, stanzas_of, with_field};
ghost use Rattle.index_text.specs.Taking.{IsOutcome, TakesEntry, field_seen, so_far_seen};

use crate::entry::{line_after, split_entry};
use crate::fault::IndexKind;
use crate::field::{Field, named_at};
use sat_formula::read_fault::{LineNumber, UntakenByte};
use std::alloc::{AllocError, Global};
use std::mem;

/// What was read: the stanzas, and the fields of the one after them.
#[derive(Drop)]
pub(crate) struct SoFar<'a> {
    alloc: Global,
    stanzas: Vec<Vec<Field<'a>>>,
    fields: Vec<Field<'a>>,
}

/// Reads the stanzas of an index, each with its fields.
///
/// A stanza is fields, and ends at an empty line or with the text. A field is a name, a `:` and a
/// value, which goes on over the lines that begin with a space or a tab. A text that is not empty
/// ends with an LF.
///
/// # Errors
///
/// `Wrong` with the first fault and its line, or `OutOfMemory`.
pub fn read_stanzas(
    alloc: Global,
    text: &[u8],
) -> Result<Vec<Vec<Field<'_>>>, UntakenByte<LineNumber, IndexKind>>
    ensures { IsOutcome (stanzas_of text.now) result }
{
    let mut so_far = SoFar::new(alloc);
    let mut line = 1;
    let mut rest = text;
    'entries: loop {
        let (entry, behind) = split_entry(rest);
        match behind {
            Some(next) => {
                so_far.take(line, entry)?;
                line = line_after(line, entry);
                rest = next;
            }
            None => return so_far.end(line, entry),
        }
    }
}

impl<'a> SoFar<'a> {
    /// Returns that nothing was read. Allocates no memory.
    fn new(alloc: Global) -> SoFar<'a>
        ensures { so_far_seen result ≡ nothing }
    {
        SoFar {
            alloc,
            stanzas: Vec::new(alloc),
            fields: Vec::new(alloc),
        }
    }

    /// Takes an entry on this line: a field, or an empty line, which ends a stanza.
    fn take(&mut self, line: u64, entry: &'a [u8]) -> Result<(), UntakenByte<LineNumber, IndexKind>>
        ensures { TakesEntry line (entry_taken line (so_far_seen self.old) entry.now) self.new
            result }
    {
        if entry.is_empty() {
            self.close()?;
            return Ok(());
        }
        match named_at(entry) {
            Ok((name, value)) => {
                self.add(Field { line, name, value })?;
                Ok(())
            }
            Err(kind) => Err(wrong(line, kind)),
        }
    }

    fn add(&mut self, field: Field<'a>) -> Result<(), AllocError>
        ensures { OnOk result
            (so_far_seen self.new ≡ with_field (so_far_seen self.old) (field_seen field.entry)) }
    {
        match self.fields.push(field) {
            Ok(()) => Ok(()),
            Err(_) => Err(AllocError),
        }
    }

    /// Ends a stanza, if there is one.
    fn close(&mut self) -> Result<(), AllocError>
        ensures { OnOk result (so_far_seen self.new ≡ closed (so_far_seen self.old)) }
    {
        if self.fields.is_empty() {
            return Ok(());
        }
        let fields = mem::replace(&mut self.fields, Vec::new(self.alloc));
        match self.stanzas.push(fields) {
            Ok(()) => Ok(()),
            Err(_) => Err(AllocError),
        }
    }

    /// Ends the text, whose last entry, on this line, no LF ends.
    fn end(
        self,
        line: u64,
        entry: &[u8],
    ) -> Result<Vec<Vec<Field<'a>>>, UntakenByte<LineNumber, IndexKind>>
        ensures { IsOutcome (stanzas_from line (so_far_seen self.entry) (entry.now ∷ [])) result }
    {
        if !entry.is_empty() {
            return Err(wrong(line, IndexKind::Unfinished));
        }
        let mut all = self;
        all.close()?;
        Ok(all.stanzas)
    }
}

/// Returns a fault on this line.
fn wrong(line: u64, kind: IndexKind) -> UntakenByte<LineNumber, IndexKind>
    ensures { result ≡ untaken.Wrong (record { 0 = line }) kind }
{
    UntakenByte::Wrong {
        at: LineNumber(line),
        kind,
    }
}
