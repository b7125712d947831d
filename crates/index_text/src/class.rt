//! Classes of bytes.
ghost use Rattle.std.specs.Prelude.{◌≡◌, ◌<◌, ◌≤◌, [], ◌∷◌, ℕ, true, false, length, slice_index, IfSome, MatchOption};
ghost use Rattle.index_text.specs.Classes.{behind, is_lower, is_of, leading};

use sat_formula::bytes::is_digit;

/// A class of bytes.
#[derive(Clone, Copy)]
pub(crate) enum Class {
    /// Between tokens: space, tab, and LF, with which a field goes on.
    Space,
    Digit,
    /// Of a package's name: `a` to `z`, digits, `+`, `-` and `.`.
    Name,
    /// Of the name of an architecture: `a` to `z`, digits and `-`.
    Architecture,
    /// Of a relation's sign: `<`, `=` and `>`.
    Sign,
    /// Of a version without an epoch: letters, digits, `.`, `+`, `~` and `-`.
    Version,
    /// Of a version that may have an epoch: `:` too.
    EpochVersion,
    /// Of the name of a field: what is printed, but no space and no `:`.
    FieldName,
    /// This byte.
    Only(u8),
    /// Any other byte.
    Not(u8),
}

impl Class {
    /// Returns whether the byte is of the class.
    #[inline(always)]
    pub(crate) fn has(self, byte: u8) -> bool
        ensures { result ≡ is_of self byte }
    {
        match self {
            Class::Space => byte == b' ' || byte == b'\t' || byte == b'\n',
            Class::Digit => is_digit(byte),
            Class::Name => is_lower(byte) || byte == b'+' || byte == b'-' || byte == b'.',
            Class::Architecture => is_lower(byte) || byte == b'-',
            Class::Sign => byte == b'<' || byte == b'=' || byte == b'>',
            Class::Version => is_in_version(byte),
            Class::EpochVersion => is_in_version(byte) || byte == b':',
            Class::FieldName => b'!' <= byte && byte <= b'~' && byte != b':',
            Class::Only(one) => byte == one,
            Class::Not(other) => byte != other,
        }
    }
}

/// Returns whether the byte is `a` to `z` or a digit.
pub(crate) fn is_lower(byte: u8) -> bool
    ensures { result ≡ is_lower byte }
{
    b'a' <= byte && byte <= b'z' || is_digit(byte)
}

/// Returns whether the byte is a letter, a digit, or `.`, `+`, `~` or `-`.
fn is_in_version(byte: u8) -> bool
    ensures { result ≡ is_of Class.Version byte }
{
    is_lower(byte)
        || b'A' <= byte && byte <= b'Z'
        || byte == b'.'
        || byte == b'+'
        || byte == b'~'
        || byte == b'-'
}

/// Returns the bytes in front that are of this class, and what follows them.
pub(crate) fn split_class(bytes: &[u8], class: Class) -> (&[u8], &[u8])
    ensures front { result.0.now ≡ leading (is_of class) bytes.now }
    ensures rest { result.1.now ≡ behind (is_of class) bytes.now }
    ensures shorter { length result.1.now ≤ length bytes.now }
{
    let len = class_len(bytes, class);
    bytes.split_at(len)
}

/// Returns what follows the first byte.
pub(crate) fn tail_of(bytes: &[u8]) -> Option<&[u8]>
    ensures tail { MatchOption result (bytes.now ≡ [])
        (λ rest. (b : ℕ) × (bytes.now ≡ b ∷ rest.now)) }
    ensures shorter { IfSome result (λ rest. length rest.now < length bytes.now) }
{
    match bytes.split_first() {
        Some((_, rest)) => Some(rest),
        None => None,
    }
}

/// Returns how many bytes in front are of this class.
fn class_len(bytes: &[u8], class: Class) -> usize
    ensures within { result ≤ length bytes.now }
    ensures pass { (k : ℕ) → k < result → is_of class (slice_index bytes.now k) ≡ true }
    ensures ends { result < length bytes.now
        → is_of class (slice_index bytes.now result) ≡ false }
{
    let mut len = 0;
    'bytes: while len < bytes.len() && class.has(bytes[len]) {
        len += 1;
    }
    len
}
