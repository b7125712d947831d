//! Fields of a stanza.
ghost use Rattle.std.specs.Prelude.{◌≡◌};
ghost use Rattle.index_text.specs.Reading.{Says};
ghost use Rattle.index_text.specs.Fields.{is_field_name, named_at, value_at};

use crate::class::{Class, split_class};
use crate::fault::IndexKind;

/// A field of a stanza.
#[derive(Clone, Copy)]
pub struct Field<'a> {
    /// The number of the line with its name, from 1; it stays at `u64::MAX`.
    pub line: u64,
    /// Upper and lower case are one.
    pub name: &'a [u8],
    /// What follows the `:` and spaces after it. It has the LFs of its lines but the last.
    pub value: &'a [u8],
}

/// Returns the name and the value of a field that is an entry.
pub(crate) fn named_at(entry: &[u8]) -> Result<(&[u8], &[u8]), IndexKind>
    ensures { Says (λ r. (r.0.now, r.1.now)) (named_at entry.now) result }
{
    let (name, rest) = split_class(entry, Class::FieldName);
    if !is_field_name(name) {
        return Err(IndexKind::NoField);
    }
    let value = value_at(rest)?;
    Ok((name, value))
}

/// Returns whether bytes of the class `FieldName` are the name of a field.
fn is_field_name(bytes: &[u8]) -> bool
    ensures { result ≡ is_field_name bytes.now }
{
    match bytes.split_first() {
        Some((first, _)) => *first != b'#' && *first != b'-',
        None => false,
    }
}

/// Returns what follows a `:` and spaces.
fn value_at(text: &[u8]) -> Result<&[u8], IndexKind>
    ensures { Says (λ value. value.now) (value_at text.now) result }
{
    let Some((b':', begun)) = text.split_first() else {
        return Err(IndexKind::NoField);
    };
    let (_, value) = split_class(begun, Class::Only(b' '));
    Ok(value)
}
