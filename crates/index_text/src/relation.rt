//! A relation to a package: its name, and which of its versions will do.
ghost use Rattle.std.specs.Prelude.{◌≡◌, codes};
ghost use Rattle.std.specs.Option.{option_map};
ghost use Rattle.index_text.specs.Classes.{is_of};
ghost use Rattle.index_text.specs.Relations.{bound_at, bounded, close_at, end_at, is_name, name_at, qualifier_at, relation_of, sign_of, version_at};
ghost use Rattle.index_text.specs.Reading.{Says, bound_seen, relation_seen};

use crate::class::{Class, is_lower, split_class};
use crate::fault::IndexKind;
use crate::version::is_version;

/// How a version must stand to that of a bound.
#[derive(Clone, Copy, Debug, PartialEq, Eq)]
pub enum Sign {
    /// `<<`
    Earlier,
    /// `<=`
    AtMost,
    /// `=`
    Exactly,
    /// `>=`
    AtLeast,
    /// `>>`
    Later,
}

/// Which versions will do.
#[derive(Clone, Copy)]
pub struct Bound<'a> {
    pub sign: Sign,
    pub version: &'a [u8],
}

/// A relation to a package.
#[derive(Clone, Copy)]
pub struct Relation<'a> {
    pub name: &'a [u8],
    /// What follows a `:` after the name: an architecture, `any` or `native`.
    pub qualifier: Option<&'a [u8]>,
    /// All versions will do where there is none.
    pub bound: Option<Bound<'a>>,
}

impl Relation<'_> {
    ghost use Rattle.index_text.specs.Lists.{is_feature};

    /// Returns whether it can be provided: it has no qualifier, and no bound or an `=`.
    pub(crate) fn is_feature(&self) -> bool
        ensures { result ≡ is_feature (relation_seen self.now) }
    {
        if self.qualifier.is_some() {
            return false;
        }
        match self.bound {
            Some(bound) => matches!(bound.sign, Sign::Exactly),
            None => true,
        }
    }
}

/// Reads one relation, `name`, `name:qualifier`, `name (sign version)` or both. Space, tab and LF
/// may stand at both ends and between the tokens, but not before the qualifier.
///
/// # Errors
///
/// The first fault of the text.
pub fn read_relation(text: &[u8]) -> Result<Relation<'_>, IndexKind>
    ensures { Says relation_seen (relation_of text.now) result }
{
    let (_, start) = split_class(text, Class::Space);
    let (name, behind_name) = name_at(start)?;
    let (qualifier, behind_qualifier) = qualifier_at(behind_name)?;
    let (_, before_bound) = split_class(behind_qualifier, Class::Space);
    let (bound, behind_bound) = bound_at(before_bound)?;
    let (_, rest) = split_class(behind_bound, Class::Space);
    end_at(rest)?;
    Ok(Relation {
        name,
        qualifier,
        bound,
    })
}

/// Returns whether bytes of the class `Name` are the name of a package.
fn is_name(bytes: &[u8]) -> bool
    ensures { result ≡ is_name bytes.now }
{
    match bytes.split_first() {
        Some((first, rest)) => is_lower(*first) && !rest.is_empty(),
        None => false,
    }
}

/// Returns the name in front, and what follows it.
fn name_at(text: &[u8]) -> Result<(&[u8], &[u8]), IndexKind>
    ensures { Says (λ r. (r.0.now, r.1.now)) (name_at text.now) result }
{
    if text.is_empty() {
        return Err(IndexKind::EmptyRelation);
    }
    let (name, rest) = split_class(text, Class::Name);
    if !is_name(name) {
        return Err(IndexKind::BadName);
    }
    Ok((name, rest))
}

/// Returns the qualifier in front, if there is one, and what follows it.
fn qualifier_at(text: &[u8]) -> Result<(Option<&[u8]>, &[u8]), IndexKind>
    ensures { Says (λ r. (option_map (λ q. q.now) r.0, r.1.now)) (qualifier_at text.now) result }
{
    let Some((b':', begun)) = text.split_first() else {
        return Ok((None, text));
    };
    let (qualifier, rest) = split_class(begun, Class::Architecture);
    if qualifier.is_empty() {
        return Err(IndexKind::BadQualifier);
    }
    Ok((Some(qualifier), rest))
}

/// Returns the bound in front, if there is one, and what follows it.
fn bound_at(text: &[u8]) -> Result<(Option<Bound<'_>>, &[u8]), IndexKind>
    ensures { Says (λ r. (option_map bound_seen r.0, r.1.now)) (bound_at text.now) result }
{
    let Some((b'(', begun)) = text.split_first() else {
        return Ok((None, text));
    };
    let (_, inside) = split_class(begun, Class::Space);
    let (bound, rest) = bounded(inside)?;
    Ok((Some(bound), rest))
}

/// Returns a bound whose `(` was read, and what follows its `)`.
fn bounded(text: &[u8]) -> Result<(Bound<'_>, &[u8]), IndexKind>
    ensures { Says (λ r. (bound_seen r.0, r.1.now)) (bounded text.now) result }
{
    let (word, behind_sign) = split_class(text, Class::Sign);
    let sign = sign_of(word)?;
    let (_, start) = split_class(behind_sign, Class::Space);
    let (version, behind_version) = version_at(start)?;
    let (_, end) = split_class(behind_version, Class::Space);
    let rest = close_at(end)?;
    Ok((Bound { sign, version }, rest))
}

fn sign_of(word: &[u8]) -> Result<Sign, IndexKind>
    ensures { result ≡ sign_of word.now }
{
    if word == b"<<".as_slice() {
        Ok(Sign::Earlier)
    } else if word == b"<=".as_slice() {
        Ok(Sign::AtMost)
    } else if word == b"=".as_slice() {
        Ok(Sign::Exactly)
    } else if word == b">=".as_slice() {
        Ok(Sign::AtLeast)
    } else if word == b">>".as_slice() {
        Ok(Sign::Later)
    } else if word == b"<".as_slice() || word == b">".as_slice() {
        Err(IndexKind::ObsoleteSign)
    } else {
        Err(IndexKind::BadSign)
    }
}

/// Returns the version in front, and what follows it.
fn version_at(text: &[u8]) -> Result<(&[u8], &[u8]), IndexKind>
    ensures { Says (λ r. (r.0.now, r.1.now)) (version_at text.now) result }
{
    let (version, rest) = split_class(text, Class::EpochVersion);
    if !is_version(version) {
        return Err(IndexKind::BadVersion);
    }
    Ok((version, rest))
}

/// Returns what follows the `)` in front.
fn close_at(text: &[u8]) -> Result<&[u8], IndexKind>
    ensures { Says (λ rest. rest.now) (close_at text.now) result }
{
    match text.split_first() {
        Some((b')', rest)) => Ok(rest),
        _ => Err(IndexKind::Malformed),
    }
}

/// Nothing follows a relation.
fn end_at(text: &[u8]) -> Result<(), IndexKind>
    ensures { result ≡ end_at text.now }
{
    match text.split_first() {
        None => Ok(()),
        Some((b'|', _)) => Err(IndexKind::Alternatives),
        Some((b'[' | b'<', _)) => Err(IndexKind::Restriction),
        Some(_) => Err(IndexKind::Malformed),
    }
}
