//! Lists of relations, as fields have them.
ghost use Rattle.index_text.specs.Reading.{ReadsAs, groups_seen, relation_seen, relations_seen};
ghost use Rattle.std.specs.Prelude.{◌≡◌, ◌<◌, [], ◌∷◌, length, IfSome, MatchOption};
ghost use Rattle.std.specs.List.{list_all};
ghost use Rattle.index_text.specs.Lists.{conflicts_of, groups_of, is_feature, parts_of, provides_of, relations_in};

use crate::class::{Class, split_class, tail_of};
use crate::fault::IndexKind;
use crate::relation::{Relation, read_relation};
use sat_formula::stop::Stop;
use std::alloc::Global;

/// Reads a list of groups with `,` between two, each of relations with `|` between two: what a
/// package depends on.
///
/// # Errors
///
/// `Wrong` with the first fault of the text, or `OutOfMemory`.
pub fn read_groups(alloc: Global, text: &[u8]) -> Result<Vec<Vec<Relation<'_>>>, Stop<IndexKind>>
    ensures { ReadsAs (λ v. groups_seen v.items) (groups_of text.now) result }
{
    let mut groups = Vec::new(alloc);
    let mut rest = text;
    'groups: loop {
        let (part, behind) = split_part(rest, b',');
        groups.push(read_relations(alloc, part, b'|')?)?;
        match behind {
            Some(next) => rest = next,
            None => return Ok(groups),
        }
    }
}

/// Reads a list of relations with `,` between two: what a package conflicts with.
///
/// # Errors
///
/// `Wrong` with the first fault of the text, or `OutOfMemory`.
pub fn read_conflicts(alloc: Global, text: &[u8]) -> Result<Vec<Relation<'_>>, Stop<IndexKind>>
    ensures { ReadsAs (λ v. relations_seen v.items) (conflicts_of text.now) result }
{
    read_relations(alloc, text, b',')
}

/// Reads a list of features with `,` between two: what a package provides. A feature is a relation
/// without a qualifier, with no bound or an `=`.
///
/// # Errors
///
/// `Wrong` with the first fault of the text as a list of relations, else `BadFeature`; or
/// `OutOfMemory`.
pub fn read_provides(alloc: Global, text: &[u8]) -> Result<Vec<Relation<'_>>, Stop<IndexKind>>
    ensures { ReadsAs (λ v. relations_seen v.items) (provides_of text.now) result }
{
    let relations = read_relations(alloc, text, b',')?;
    if !are_features(&relations) {
        return Err(Stop::Wrong(IndexKind::BadFeature));
    }
    Ok(relations)
}

/// Returns whether all are features.
fn are_features(relations: &[Relation<'_>]) -> bool
    ensures { result ≡ list_all (λ r. is_feature (relation_seen r)) relations.now }
{
    relations.iter().all(|relation| relation.is_feature())
}

/// Reads a list of relations with this byte between two.
fn read_relations(
    alloc: Global,
    text: &[u8],
    separator: u8,
) -> Result<Vec<Relation<'_>>, Stop<IndexKind>>
    ensures { ReadsAs (λ v. relations_seen v.items) (relations_in separator text.now) result }
{
    let mut relations = Vec::new(alloc);
    let mut rest = text;
    'parts: loop {
        let (part, behind) = split_part(rest, separator);
        relations.push(read_relation(part)?)?;
        match behind {
            Some(next) => rest = next,
            None => return Ok(relations),
        }
    }
}

/// Returns what precedes the first byte of this value, and what follows it, if it is there.
fn split_part(text: &[u8], separator: u8) -> (&[u8], Option<&[u8]>)
    ensures parts { MatchOption result.1 (parts_of separator text.now ≡ result.0.now ∷ [])
        (λ rest. parts_of separator text.now ≡ result.0.now ∷ parts_of separator rest.now) }
    ensures shorter { IfSome result.1 (λ rest. length rest.now < length text.now) }
{
    let (part, behind) = split_class(text, Class::Not(separator));
    (part, tail_of(behind))
}
