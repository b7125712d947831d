//! The words of a line: the bytes between blanks, up to the LF.
ghost use Rattle.std.specs.Prelude.{◌≡◌, ℕ, ◌<◌, ◌≤◌, ◌∷◌, [], length, slice_index, true, false, IfSome, IfNone};
ghost use Rattle.sat_formula.specs.Bytes.{is_blank};
ghost use Rattle.lrat_text.specs.Bytes.{IsLine, ends_word, words_in};

use sat_formula::bytes::{ends_word, is_blank};

/// Returns the first word, and what follows it.
pub(crate) fn split_word(bytes: &[u8]) -> Option<(&[u8], &[u8])>
    requires { IsLine bytes.now }
    ensures word { IfSome result (λ r. words_in bytes.now ≡ r.0.now ∷ words_in r.1.now) }
    ensures line { IfSome result (λ r. IsLine r.1.now) }
    ensures shorter { IfSome result (λ r. length r.1.now < length bytes.now) }
    ensures none { IfNone result (words_in bytes.now ≡ []) }
{
    let word = skip_blanks(bytes);
    let len = word_len(word);
    if len == 0 {
        return None;
    }
    Some((&word[..len], &word[len..]))
}

/// Returns what follows the blanks in front. The LF ends it, so no length is compared.
pub(crate) fn skip_blanks(bytes: &[u8]) -> &[u8]
    requires { IsLine bytes.now }
    ensures line { IsLine result.now }
    ensures words { words_in result.now ≡ words_in bytes.now }
    ensures len { length result.now ≤ length bytes.now }
    ensures word { is_blank (slice_index result.now 0) ≡ false }
{
    let mut rest = bytes;
    'blanks: while is_blank(rest[0]) {
        rest = &rest[1..];
    }
    rest
}

/// Returns how many bytes precede the first blank or the LF.
fn word_len(bytes: &[u8]) -> usize
    requires { IsLine bytes.now }
    ensures len { result < length bytes.now }
    ensures word { (k : ℕ) → k < result → ends_word (slice_index bytes.now k) ≡ false }
    ensures end { ends_word (slice_index bytes.now result) ≡ true }
{
    let mut len = 0;
    'bytes: while !ends_word(bytes[len]) {
        len += 1;
    }
    len
}
