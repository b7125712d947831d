//! Detects the form of a proof's lines from its first bytes.
ghost use Rattle.std.specs.Prelude.{◌≡◌};
ghost use Rattle.std.specs.List.{list_all};
ghost use Rattle.drat_text.specs.Bytes.{is_text_byte};
ghost use Rattle.lrat_binary.specs.Telling.{are_doubled, begins_as_binary, deleted_seen, form_by, form_of, hint_seen, id_seen, is_binary, letter_seen, lit_seen, next_id, seen_at, told_ids};
ghost use Rattle.lrat_binary.specs.declared.telling.Sight.TheVariants.{Letter};

use crate::ids::{Ids, LratForm};
use drat_text::number::is_text_byte;

/// How many bytes are examined, if the first one may be that of a binary line.
pub(crate) const LOOKED_AT: usize = 4096;

/// What the next byte is a part of, as far as detection needs it.
#[derive(Clone, Copy)]
pub(crate) enum Sight {
    Letter,
    /// The id of a line. The id after the formula's is compared with it: this is left of that one,
    /// and so far they were the same or not.
    Id {
        begins: bool,
        left: u64,
        is_same: bool,
    },
    /// A literal, or the 0 after the last: whether all its bits so far are 0.
    Lit {
        is_zero: bool,
    },
    /// A hint, or the 0 after the last.
    Hint {
        is_zero: bool,
    },
    /// An id that is deleted, or the 0 after the last.
    Deleted {
        begins: bool,
        is_zero: bool,
    },
}

/// What a byte shows of the ids.
#[derive(Clone, Copy)]
pub(crate) enum Seen {
    Later(Sight),
    /// Whether they are doubled.
    Told(bool),
}

/// Returns the form of a proof that has or begins with these bytes, after a formula of this many
/// clauses. The encoding of ids is the given one, if there is one.
pub(crate) fn form_of(ids: Option<Ids>, clauses: u64, bytes: &[u8]) -> LratForm
    ensures { result ≡ form_of ids clauses bytes.now }
{
    form_by(ids, clauses, &bytes[..LOOKED_AT.min(bytes.len())])
}

/// Returns the form of a proof by the first bytes that are examined.
fn form_by(ids: Option<Ids>, clauses: u64, first: &[u8]) -> LratForm
    ensures { result ≡ form_by ids clauses first.now }
{
    if !is_binary(first) {
        return LratForm::Text;
    }
    match ids {
        Some(ids) => LratForm::Binary(ids),
        None => LratForm::Binary(told_ids(clauses, first)),
    }
}

/// Returns whether a binary line may begin with the first byte.
pub(crate) fn begins_as_binary(first: &[u8]) -> bool
    ensures { result ≡ begins_as_binary first.now }
{
    matches!(first.first(), Some(b'a' | b'd'))
}

/// Returns whether the bytes begin with an `a`, or with a `d` and have one that no text has.
fn is_binary(first: &[u8]) -> bool
    ensures { result ≡ is_binary first.now }
{
    match first.first() {
        Some(b'a') => true,
        Some(b'd') => !is_text(first),
        _ => false,
    }
}

/// Returns whether a text can have each of the bytes.
fn is_text(bytes: &[u8]) -> bool
    ensures { result ≡ list_all is_text_byte bytes.now }
{
    for byte in bytes {
        if !is_text_byte(*byte) {
            return false;
        }
    }
    true
}

/// Returns the encoding of the ids: doubled if every id is even, and no line has the next id after
/// those of the formula.
fn told_ids(clauses: u64, first: &[u8]) -> Ids
    ensures { result ≡ told_ids clauses first.now }
{
    if are_doubled(clauses.saturating_add(1), first) {
        Ids::Doubled
    } else {
        Ids::Plain
    }
}

fn are_doubled(next: u64, first: &[u8]) -> bool
    ensures { result ≡ are_doubled next Letter first.now }
{
    let mut sight = Sight::Letter;
    for byte in first {
        match seen_at(next, sight, *byte) {
            Seen::Later(later) => sight = later,
            Seen::Told(answer) => return answer,
        }
    }
    true
}

fn seen_at(next: u64, sight: Sight, byte: u8) -> Seen
    ensures { result ≡ seen_at next sight byte }
{
    match sight {
        Sight::Letter => letter_seen(next, byte),
        Sight::Id { begins: true, .. } | Sight::Deleted { begins: true, .. } if byte % 2 == 1 =>
            Seen::Told(false),
        Sight::Id { left, is_same, .. } => id_seen(left, is_same, byte),
        Sight::Lit { is_zero } => lit_seen(is_zero && byte % 128 == 0, byte),
        Sight::Hint { is_zero } => hint_seen(is_zero && byte % 128 == 0, byte),
        Sight::Deleted { is_zero, .. } => deleted_seen(is_zero && byte % 128 == 0, byte),
    }
}

/// Returns what a byte of a literal shows; `is_zero` is whether all its bits so far are 0.
fn lit_seen(is_zero: bool, byte: u8) -> Seen
    ensures { result ≡ lit_seen is_zero byte }
{
    if byte >= 128 {
        return Seen::Later(Sight::Lit { is_zero });
    }
    if is_zero {
        Seen::Later(Sight::Hint { is_zero: true })
    } else {
        Seen::Later(Sight::Lit { is_zero: true })
    }
}

/// Returns what a byte of a hint shows.
fn hint_seen(is_zero: bool, byte: u8) -> Seen
    ensures { result ≡ hint_seen is_zero byte }
{
    if byte >= 128 {
        return Seen::Later(Sight::Hint { is_zero });
    }
    if is_zero {
        Seen::Later(Sight::Letter)
    } else {
        Seen::Later(Sight::Hint { is_zero: true })
    }
}

/// Returns what a byte of an id that is deleted shows, unless it shows that the id is odd.
fn deleted_seen(is_zero: bool, byte: u8) -> Seen
    ensures { result ≡ deleted_seen is_zero byte }
{
    if byte >= 128 {
        return Seen::Later(Sight::Deleted {
            begins: false,
            is_zero,
        });
    }
    if is_zero {
        Seen::Later(Sight::Letter)
    } else {
        Seen::Later(Sight::Deleted {
            begins: true,
            is_zero: true,
        })
    }
}

/// Returns what a letter shows. After one with which no line begins nothing more is examined.
fn letter_seen(next: u64, byte: u8) -> Seen
    ensures { result ≡ letter_seen next byte }
{
    match byte {
        b'a' => Seen::Later(Sight::Id {
            begins: true,
            left: next,
            is_same: true,
        }),
        b'd' => Seen::Later(Sight::Deleted {
            begins: true,
            is_zero: true,
        }),
        _ => Seen::Told(true),
    }
}

/// Returns what a byte of an id shows, compared with the next id after the formula's.
fn id_seen(left: u64, is_same: bool, byte: u8) -> Seen
    ensures { result ≡ id_seen left is_same byte }
{
    let is_same = is_same && left % 128 == byte as u64 % 128;
    let left = left / 128;
    if byte >= 128 {
        return Seen::Later(Sight::Id {
            begins: false,
            left,
            is_same,
        });
    }
    if is_same && left == 0 {
        return Seen::Told(false);
    }
    Seen::Later(Sight::Lit { is_zero: true })
}
