//! A line, read into lists.
ghost use Rattle.std.specs.Prelude.{◌≡◌, [], Err, OnOk, IfErr};
ghost use Rattle.lrat_rules.specs.Lines.{Line};
ghost use Rattle.lrat_text.specs.Bytes.{IsLine, words_in};
ghost use Rattle.lrat_text.specs.Grammar.{alone};

use crate::fault::LineKind;
use crate::items::read_items;
use crate::line::{Hint, LratLine};
use crate::number::split_number;
use crate::words::{skip_blanks, split_word};
use sat_formula::Lit;
use sat_formula::stop::Stop;
use std::alloc::Global;

/// A line without its lists.
#[derive(Clone, Copy)]
pub enum Head {
    Add { id: u64 },
    Delete,
}

/// Reads lines, the lists of the last one into its own.
#[derive(Drop)]
pub struct Row {
    pub lits: Vec<Lit>,
    pub hints: Vec<Hint>,
    pub ids: Vec<u64>,
}

impl Row {
    ghost use Rattle.lrat_text.specs.Grammar.{says, after_id, deletion_at, clause_at};
    ghost use Rattle.lrat_text.specs.Reading.{ReadsAs, line_of, line_if};
    ghost use Rattle.lrat_text.specs.NextLine.{view};

    /// Returns empty lists. Allocates no memory.
    pub fn new(alloc: Global) -> Row {
        Row {
            lits: Vec::new(alloc),
            hints: Vec::new(alloc),
            ids: Vec::new(alloc),
        }
    }

    /// Returns the line of a head and the lists that were read with it.
    pub fn shown(&self, head: Head) -> LratLine<'_>
        ensures { view result ≡ line_of self.now head }
    {
        match head {
            Head::Add { id } => LratLine::Add {
                id,
                clause: &self.lits,
                hints: &self.hints,
            },
            Head::Delete => LratLine::Delete { ids: &self.ids },
        }
    }

    /// Reads a line of these bytes, and returns its kind, or `None` if it is blank. `short` is the
    /// fault of a line that ends before its last 0.
    pub(crate) fn read(
        &mut self,
        bytes: &[u8],
        short: LineKind,
    ) -> Result<Option<Head>, Stop<LineKind>>
        requires { IsLine bytes.now }
        ensures { ReadsAs (line_if self.new) (says short (words_in bytes.now)) result }
    {
        let words = skip_blanks(bytes);
        if words[0] == b'c' {
            return Ok(None);
        }
        let Some((number, rest)) = split_number(words) else {
            return Ok(None);
        };
        let id = number.first()?;
        let head = self.after_id(rest, short, id)?;
        Ok(Some(head))
    }

    fn after_id(&mut self, bytes: &[u8], short: LineKind, id: u64) -> Result<Head, Stop<LineKind>>
        requires { IsLine bytes.now }
        ensures { ReadsAs (line_of self.new) (after_id short id (words_in bytes.now)) result }
    {
        let words = skip_blanks(bytes);
        if id != 0 && words[0] != b'd' {
            // its first word is read once, as a literal
            return self.clause(words, short, id);
        }
        self.after_word(words, short, id)
    }

    /// Reads what follows an id, by its first word.
    fn after_word(&mut self, bytes: &[u8], short: LineKind, id: u64) -> Result<Head, Stop<LineKind>>
        requires { IsLine bytes.now }
        ensures { ReadsAs (line_of self.new) (after_id short id (words_in bytes.now)) result }
    {
        let Some((word, rest)) = split_word(bytes) else {
            return Err(Stop::Wrong(short));
        };
        if word == b"d".as_slice() {
            return self.deletion(skip_blanks(rest), short);
        }
        if id == 0 {
            return Err(Stop::Wrong(LineKind::Malformed));
        }
        self.clause(bytes, short, id)
    }

    fn deletion(&mut self, bytes: &[u8], short: LineKind) -> Result<Head, Stop<LineKind>>
        requires { IsLine bytes.now }
        ensures { ReadsAs (line_of self.new) (deletion_at short (words_in bytes.now)) result }
    {
        let rest = read_items(bytes, short, &mut self.ids)?;
        end(rest)?;
        Ok(Head::Delete)
    }

    fn clause(&mut self, bytes: &[u8], short: LineKind, id: u64) -> Result<Head, Stop<LineKind>>
        requires { IsLine bytes.now }
        ensures { ReadsAs (line_of self.new) (clause_at short id (words_in bytes.now)) result }
    {
        let after_lits = read_items(bytes, short, &mut self.lits)?;
        let rest = read_items(after_lits, short, &mut self.hints)?;
        end(rest)?;
        Ok(Head::Add { id })
    }
}

/// Nothing but blanks follows a line's last 0.
fn end(bytes: &[u8]) -> Result<(), LineKind>
    requires { IsLine bytes.now }
    ensures ok { OnOk result (words_in bytes.now ≡ []) }
    ensures err { IfErr result (λ kind. (line : Line)
        → alone line (words_in bytes.now) ≡ Err kind) }
{
    match split_word(bytes) {
        None => Ok(()),
        Some(_) => Err(LineKind::Malformed),
    }
}
