//! Entries of an index: a field goes on over the lines that begin with a space or a tab.
ghost use Rattle.std.specs.Prelude.{◌≡◌, ◌+◌, ◌<◌, ◌≤◌, [], ◌∷◌, ℕ, true, false, drop, length, slice_index, IfSome, MatchOption};
ghost use Rattle.index_text.specs.Entries.{ends_entry, entries_of, goes_on, line_after};

use crate::class::tail_of;

/// Returns the first entry, a field or an empty line, and what follows the LF that ends it, if
/// there is one.
pub(crate) fn split_entry(text: &[u8]) -> (&[u8], Option<&[u8]>)
    ensures entries { MatchOption result.1 (entries_of text.now ≡ result.0.now ∷ [])
        (λ rest. entries_of text.now ≡ result.0.now ∷ entries_of rest.now) }
    ensures shorter { IfSome result.1 (λ rest. length rest.now < length text.now) }
{
    let len = entry_len(text);
    let (entry, rest) = text.split_at(len);
    (entry, tail_of(rest))
}

/// Returns how many bytes the first entry has.
fn entry_len(text: &[u8]) -> usize
    ensures within { result ≤ length text.now }
    ensures inside { (k : ℕ) → k < result
        → ends_entry (slice_index text.now k) (drop (k + 1) text.now) ≡ false }
    ensures ends { result < length text.now
        → ends_entry (slice_index text.now result) (drop (result + 1) text.now) ≡ true }
{
    let mut len = 0;
    'bytes: while len < text.len() && !ends_at(text, len) {
        len += 1;
    }
    len
}

/// Returns whether the byte at this place ends an entry.
#[inline(always)]
fn ends_at(text: &[u8], at: usize) -> bool
    requires { at < length text.now }
    ensures { result ≡ ends_entry (slice_index text.now at) (drop (at + 1) text.now) }
{
    if text[at] != b'\n' {
        return false;
    }
    let (_, rest) = text.split_at(at + 1);
    !goes_on(rest)
}

/// Returns whether a space or a tab comes next.
fn goes_on(text: &[u8]) -> bool
    ensures { result ≡ goes_on text.now }
{
    match text.split_first() {
        Some((first, _)) => *first == b' ' || *first == b'\t',
        None => false,
    }
}

/// Returns the number of the line after an entry that begins on this line; it stays at `u64::MAX`.
pub(crate) fn line_after(line: u64, entry: &[u8]) -> u64
    ensures { result ≡ line_after line entry.now }
{
    let mut last = line;
    'bytes: for byte in entry {
        if *byte == b'\n' {
            last = last.saturating_add(1);
        }
    }
    last.saturating_add(1)
}
