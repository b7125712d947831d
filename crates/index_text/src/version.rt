//! Versions of packages.
ghost use Rattle.std.specs.Prelude.{◌≡◌};
ghost use Rattle.index_text.specs.Classes.{is_of};
ghost use Rattle.index_text.specs.Versions.{is_upstream, is_version};

use crate::class::{Class, split_class};
use sat_formula::bytes::is_digit;

/// Returns whether the text is a version: an epoch, which is digits and a `:`, or none; then a
/// digit and letters, digits, `.`, `+`, `~` and `-`, with `:` only behind an epoch. A `-` is not
/// the last byte, since what follows the last one is the revision.
pub fn is_version(text: &[u8]) -> bool
    ensures { result ≡ is_version text.now }
{
    let (digits, rest) = split_class(text, Class::Digit);
    match rest.split_first() {
        Some((b':', numbered)) if !digits.is_empty() => is_upstream(numbered, Class::EpochVersion),
        _ => is_upstream(text, Class::Version),
    }
}

/// Returns whether the text is a version without its epoch, of bytes of this class.
fn is_upstream(text: &[u8], class: Class) -> bool
    ensures { result ≡ is_upstream (is_of class) text.now }
{
    let Some((first, rest)) = text.split_first() else {
        return false;
    };
    let (_, other) = split_class(rest, class);
    is_digit(*first) && other.is_empty() && text[text.len() - 1] != b'-'
}
