//! What letters and numbers say in a line.
ghost use Rattle.std.specs.Prelude.{◌≡◌};
ghost use Rattle.session_text.specs.Fields.{count_read, group_said, header, id_read, ids_said, lits_said, needs_header, number_said};
ghost use Rattle.session_text.specs.automaton.Places.{due_in_icnf, due_in_lidrup, letter_due};

use crate::fault::TextKind;
use crate::format::Format;
use crate::line::{Item, LineKind};
use crate::number::{code_said, id_said, lit_said};
use crate::spot::Due;
use sat_formula::Lit;

/// What a number does in a line.
#[derive(Clone, Copy)]
pub(crate) enum Said {
    /// It says this, and then this is due.
    Next(Item, Due),
    /// It ends a list, and then this is due.
    Turns(Due),
    /// It ends a line of this kind.
    Last(LineKind),
    Wrong(TextKind),
}

/// Returns the header of a text.
pub(crate) fn header(format: Format) -> &'static [u8]
    ensures { result.now ≡ header format }
{
    match format {
        Format::Icnf => b"p icnf",
        Format::Lidrup => b"p lidrup",
    }
}

/// Returns whether a text that begins with this byte needs a header. Solvers write proofs without
/// one.
pub(crate) fn needs_header(format: Format, byte: u8) -> bool
    ensures { result ≡ needs_header format byte }
{
    match format {
        Format::Icnf => true,
        Format::Lidrup => byte == b'p',
    }
}

/// Returns what is due after the letter of a line, if the byte is one.
pub(crate) fn due_after(format: Format, letter: u8) -> Option<Due>
    ensures { result ≡ letter_due format letter }
{
    match format {
        Format::Icnf => due_in_icnf(letter),
        Format::Lidrup => due_in_lidrup(letter),
    }
}

fn due_in_icnf(letter: u8) -> Option<Due>
    ensures { result ≡ due_in_icnf letter }
{
    match letter {
        b'i' => Some(Due::Lit(LineKind::Clause)),
        b'q' => Some(Due::Lit(LineKind::Query)),
        b'v' => Some(Due::Lit(LineKind::Values)),
        b'm' => Some(Due::Lit(LineKind::Values)),
        b'f' => Some(Due::Lit(LineKind::Failed)),
        b'u' => Some(Due::Lit(LineKind::Failed)),
        _ => None,
    }
}

fn due_in_lidrup(letter: u8) -> Option<Due>
    ensures { result ≡ due_in_lidrup letter }
{
    match letter {
        b'i' => Some(Due::Id(LineKind::Clause)),
        b'l' => Some(Due::Id(LineKind::Lemma)),
        b'd' => Some(Due::Hint(LineKind::Deletion)),
        b'w' => Some(Due::Hint(LineKind::Weakening)),
        b'r' => Some(Due::Hint(LineKind::Weakening)),
        b'q' => Some(Due::Lit(LineKind::Query)),
        b'm' => Some(Due::Lit(LineKind::Model)),
        b'u' => Some(Due::Lit(LineKind::Core)),
        b'U' => Some(Due::Count),
        b'e' => Some(Due::Lit(LineKind::Trail)),
        _ => None,
    }
}

/// Returns what a number of this value does, after a `-` or not.
#[inline(always)]
pub(crate) fn number_said(due: Due, negative: bool, value: u64) -> Said
    ensures { result ≡ number_said due negative value }
{
    match due {
        Due::Lit(kind) => lits_said(kind, lit_said(negative, value)),
        Due::Hint(kind) => ids_said(kind, id_said(negative, value)),
        Due::Id(kind) => id_read(kind, id_said(negative, value)),
        Due::Count => count_read(id_said(negative, value)),
    }
}

/// Returns what a binary number of this value does.
#[inline(always)]
pub(crate) fn group_said(due: Due, value: u64) -> Said
    ensures { result ≡ group_said due value }
{
    match due {
        Due::Lit(kind) => lits_said(kind, code_said(value)),
        Due::Hint(kind) => ids_said(kind, id_said(false, value)),
        Due::Id(kind) => id_read(kind, id_said(false, value)),
        Due::Count => count_read(id_said(false, value)),
    }
}

/// Returns what a number does that says this among the literals of a line.
#[inline(always)]
fn lits_said(kind: LineKind, said: Result<Option<Lit>, TextKind>) -> Said
    ensures { result ≡ lits_said kind said }
{
    match said {
        Ok(Some(lit)) => Said::Next(Item::Lit(lit), Due::Lit(kind)),
        Ok(None) if kind.has_hints() => Said::Turns(Due::Hint(kind)),
        Ok(None) => Said::Last(kind),
        Err(kind) => Said::Wrong(kind),
    }
}

/// Returns what a number does that says this among the ids of a line.
#[inline(always)]
fn ids_said(kind: LineKind, said: Result<Option<u64>, TextKind>) -> Said
    ensures { result ≡ ids_said kind said }
{
    match said {
        Ok(Some(id)) => Said::Next(Item::Hint(id), Due::Hint(kind)),
        Ok(None) => Said::Last(kind),
        Err(kind) => Said::Wrong(kind),
    }
}

/// Returns what a number does that says this as the id of a clause.
fn id_read(kind: LineKind, said: Result<Option<u64>, TextKind>) -> Said
    ensures { result ≡ id_read kind said }
{
    match said {
        Ok(Some(id)) => Said::Next(Item::Id(id), Due::Lit(kind)),
        Ok(None) => Said::Wrong(TextKind::Malformed),
        Err(kind) => Said::Wrong(kind),
    }
}

/// Returns what a number does that says this as how many cores follow.
fn count_read(said: Result<Option<u64>, TextKind>) -> Said
    ensures { result ≡ count_read said }
{
    match said {
        Ok(Some(count)) => Said::Last(LineKind::Several(count)),
        Ok(None) => Said::Wrong(TextKind::Malformed),
        Err(kind) => Said::Wrong(kind),
    }
}
