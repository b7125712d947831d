//! Lines of LRAT proofs.
ghost use Rattle.std.specs.Prelude.{◌≡◌, ◌++◌, ◌∷◌, [], map, IfOk, IsErr, OnErr, OnOk};
ghost use Rattle.std.specs.Io.KnownBytes.{Appends};
ghost use Rattle.lrat_text.specs.Grammar.{hint_of};
ghost use Rattle.lrat_text.specs.NextLine.{view};
ghost use Rattle.sat_output.specs.LineForms.{lines_in};
ghost use Rattle.sat_output.specs.LratBytes.{HasLargeHint};
ghost use Rattle.sat_output.specs.LratTexts.{addition_words, deletion_words, last_after, lines_text};
ghost use Rattle.whole_writes.specs.Beginnings.{AppendsBeginning};
ghost use Rattle.written_numbers.specs.Words.{line_text};

use crate::binary::bytes_of;
use crate::form::LineForm;
use crate::words::{push_hints, push_numbers};
use lrat_text::{Hint, LratLine};
use sat_formula::Lit;
use std::alloc::{AllocError, Global};
use std::io;
use std::io::Write;
use whole_writes::append_whole;
use written_numbers::words::{push_literals, push_number};

/// Writes a line of an LRAT proof, text with its LF. A buffered writer may keep some of it back.
///
/// `last` is the number in front of a line of text that deletes clauses: by custom that of the last
/// clause that was added.
///
/// # Errors
///
/// That of the writer, after which a beginning of the line is written. With nothing written: out of
/// memory, and `InvalidData` if a hint of a binary line has an id of 2^63 or more.
pub fn write_lrat_line<W: Write>(
    alloc: Global,
    out: &mut W,
    form: LineForm,
    last: u64,
    line: LratLine<'_>,
) -> io::Result<()>
    ensures whole { OnOk result (Appends (W.contents out.old) (W.contents out.new)
        (lines_in form last (view line.entry ∷ []))) }
    ensures beginning { OnErr result (AppendsBeginning (W.contents out.old) (W.contents out.new)
        (lines_in form last (view line.entry ∷ []))) }
    ensures large { form ≡ LineForm.Binary → HasLargeHint (view line.entry)
        → IsErr result × (out.new ≡ out.old) }
{
    let line = line_in(alloc, form, last, line)?;
    append_whole(out, &line)
}

/// Returns a line in its form.
fn line_in(alloc: Global, form: LineForm, last: u64, line: LratLine<'_>) -> io::Result<Vec<u8>>
    ensures whole { IfOk result (λ bytes. bytes.items
        ≡ lines_in form last (view line.entry ∷ [])) }
    ensures large { form ≡ LineForm.Binary → HasLargeHint (view line.entry) → IsErr result }
{
    match form {
        LineForm::Text => Ok(text_of(alloc, last, line)?),
        LineForm::Binary => bytes_of(alloc, line),
    }
}

/// Returns the number in front of a deletion after this line: its own id, if it adds a clause.
pub fn number_after(last: u64, line: LratLine<'_>) -> u64
    ensures { result ≡ last_after last (view line.entry) }
{
    match line {
        LratLine::Add { id, .. } => id,
        LratLine::Delete { .. } => last,
    }
}

/// Returns the text of a line, with its LF.
fn text_of(alloc: Global, last: u64, line: LratLine<'_>) -> Result<Vec<u8>, AllocError>
    ensures { IfOk result (λ text. text.items ≡ lines_text last (view line.entry ∷ [])) }
{
    match line {
        LratLine::Add { id, clause, hints } => addition(alloc, id, clause, hints),
        LratLine::Delete { ids } => deletion(alloc, last, ids),
    }
}

/// Returns the text of a line that adds a clause.
fn addition(alloc: Global, id: u64, clause: &[Lit], hints: &[Hint]) -> Result<Vec<u8>, AllocError>
    ensures { IfOk result (λ text. text.items
        ≡ line_text (addition_words id clause.now (map hint_of hints.now)) ++ 10 ∷ []) }
{
    let mut text = Vec::new(alloc);
    push_number(&mut text, id)?;
    push_literals(&mut text, clause)?;
    text.extend_from_slice(b"0 ")?;
    push_hints(&mut text, hints)?;
    text.extend_from_slice(b"0\n")?;
    Ok(text)
}

/// Returns the text of a line that deletes clauses.
fn deletion(alloc: Global, last: u64, ids: &[u64]) -> Result<Vec<u8>, AllocError>
    ensures { IfOk result (λ text. text.items
        ≡ line_text (deletion_words last ids.now) ++ 10 ∷ []) }
{
    let mut text = Vec::new(alloc);
    push_number(&mut text, last)?;
    text.extend_from_slice(b"d ")?;
    push_numbers(&mut text, ids)?;
    text.extend_from_slice(b"0\n")?;
    Ok(text)
}
