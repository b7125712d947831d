//! The clause of a watch is read when its literal became false.
use crate::arena::Block;
use crate::clauses::narrow;
use crate::fault::ElaborateFault;
use crate::local::LocalLit;
use crate::trail::Value;

/// The status of a clause whose watched literal became false.
#[derive(Clone, Copy)]
pub(crate) enum Found {
    /// This literal of it is true.
    True(LocalLit),
    /// The first literal, which is free, watches it instead; the second is the other one that does.
    Moved(LocalLit, LocalLit),
    Unit(LocalLit),
    Conflict,
    /// It is a long clause, which was not visited.
    Long,
}

/// Returns the status of a clause all of whose other literals are false. The remaining one is not
/// true.
#[inline(always)]
pub(crate) fn forced(lit: LocalLit, value: Value) -> Found {
    if value == Value::False {
        Found::Conflict
    } else {
        Found::Unit(lit)
    }
}

/// Searches a clause for a literal that is not false, to be watched in place of one that became
/// false. A block that is none counts as that of a true clause.
#[inline(always)]
pub(crate) fn look(
    words: &mut [LocalLit],
    block: Block,
    falsified: LocalLit,
    values: &[Value],
) -> Found {
    // Its literals begin behind its number and its length.
    let start = block.code() as usize + 2;
    if start + 2 > words.len() {
        return Found::True(falsified);
    }
    let end = start + words[start - 1].code() as usize;
    if end > words.len() {
        return Found::Long;
    }
    let other = LocalLit::other_of(words[start], words[start + 1], falsified);
    let value = known(values, other);
    if value == Value::True {
        return Found::True(other);
    }
    for place in start + 2..end {
        let lit = words[place];
        match known(values, lit) {
            Value::False => {}
            Value::True => return Found::True(lit),
            Value::Free => {
                words[place] = falsified;
                words[start] = other;
                words[start + 1] = lit;
                return Found::Moved(lit, other);
            }
        }
    }
    forced(other, value)
}

/// Does what `look` does for a long clause: the search starts where the last one ended.
pub(crate) fn look_in_long(
    words: &mut [LocalLit],
    block: Block,
    falsified: LocalLit,
    values: &[Value],
) -> Result<Found, ElaborateFault> {
    // Its literals come after its number, a mark, its length and that place.
    let start = block.code() as usize + 4;
    if start + 2 > words.len() {
        return Err(ElaborateFault::Internal);
    }
    let end = start + words[start - 2].code() as usize;
    if end > words.len() {
        return Err(ElaborateFault::Internal);
    }
    let other = LocalLit::other_of(words[start], words[start + 1], falsified);
    let value = known(values, other);
    if value == Value::True {
        return Ok(Found::True(other));
    }
    let last = start + words[start - 1].code() as usize;
    let Some(place) = unfalsified(&words[..end], start + 2, last, values) else {
        return Ok(forced(other, value));
    };
    if place < start || place >= end {
        return Err(ElaborateFault::Internal);
    }
    words[start - 1] = LocalLit::from_code(narrow(place - start)?);
    let lit = words[place];
    if known(values, lit) == Value::True {
        return Ok(Found::True(lit));
    }
    words[place] = falsified;
    words[start] = other;
    words[start + 1] = lit;
    Ok(Found::Moved(lit, other))
}

/// Returns the place of a literal from `first` on that is not false, if there is one. Those from
/// `last` on are tried first.
fn unfalsified(words: &[LocalLit], first: usize, last: usize, values: &[Value]) -> Option<usize> {
    match unfalsified_from(words, last.max(first), values) {
        Some(place) => Some(place),
        None => unfalsified_from(words, first, values),
    }
}

/// Returns the first place from `from` on whose literal is not false, if there is one.
fn unfalsified_from(words: &[LocalLit], from: usize, values: &[Value]) -> Option<usize> {
    for place in from..words.len() {
        if known(values, words[place]) != Value::False {
            return Some(place);
        }
    }
    None
}

/// Returns the value of a literal of a clause. One without a slot is true, so that its clause is
/// passed over: a checker of the lines need not trust that.
#[inline(always)]
pub(crate) fn known(values: &[Value], lit: LocalLit) -> Value {
    values.get(lit.place()).copied().unwrap_or(Value::True)
}
