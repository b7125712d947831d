//! Lines of LRAT proofs in the binary form, with ids as they are.
ghost use Rattle.std.specs.Prelude.{◌≡◌, ◌++◌, ◌^◌, ◌<◌, map, All, IfOk, IsErr, OnOk};
ghost use Rattle.lrat_rules.specs.Lines.{adds, deletes};
ghost use Rattle.lrat_text.specs.Grammar.{hint_of};
ghost use Rattle.lrat_text.specs.NextLine.{view};
ghost use Rattle.sat_output.specs.LratBytes.{HasLargeHint, hint_id, hint_number, line_bytes, lit_number, numbers_bytes};
ghost use Rattle.written_numbers.specs.GroupedBytes.{number_bytes};

use lrat_text::{Hint, LratLine};
use sat_formula::Lit;
use std::alloc::{AllocError, Global};
use std::io;
use std::io::ErrorKind;
use written_numbers::groups::push_number;

/// Returns the bytes of a line. Of a hint with an id of 2^63 or more there are none: `InvalidData`.
pub(crate) fn bytes_of(alloc: Global, line: LratLine<'_>) -> io::Result<Vec<u8>>
    ensures whole { IfOk result (λ bytes. bytes.items ≡ line_bytes (view line.entry)) }
    ensures large { HasLargeHint (view line.entry) → IsErr result }
{
    match line {
        LratLine::Add { id, clause, hints } => addition(alloc, id, clause, hints),
        LratLine::Delete { ids } => deletion(alloc, ids),
    }
}

/// Returns the bytes of a line that adds a clause.
fn addition(alloc: Global, id: u64, clause: &[Lit], hints: &[Hint]) -> io::Result<Vec<u8>>
    ensures whole { IfOk result (λ bytes. bytes.items
        ≡ line_bytes (adds id clause.now (map hint_of hints.now))) }
    ensures large { HasLargeHint (adds id clause.now (map hint_of hints.now)) → IsErr result }
{
    let mut bytes = Vec::new(alloc);
    bytes.push(b'a')?;
    push_number(&mut bytes, id)?;
    push_literals(&mut bytes, clause)?;
    bytes.push(0)?;
    push_hints(&mut bytes, hints)?;
    bytes.push(0)?;
    Ok(bytes)
}

/// Returns the bytes of a line that deletes clauses.
fn deletion(alloc: Global, ids: &[u64]) -> io::Result<Vec<u8>>
    ensures { IfOk result (λ bytes. bytes.items ≡ line_bytes (deletes ids.now)) }
{
    let mut bytes = Vec::new(alloc);
    bytes.push(b'd')?;
    push_numbers(&mut bytes, ids)?;
    bytes.push(0)?;
    Ok(bytes)
}

/// Appends the number of each literal.
fn push_literals(bytes: &mut Vec<u8>, lits: &[Lit]) -> Result<(), AllocError>
    ensures { OnOk result (bytes.new.items
        ≡ bytes.old.items ++ numbers_bytes (map lit_number lits.now)) }
{
    for lit in lits {
        push_number(bytes, lit.code() as u64 + 2)?;
    }
    Ok(())
}

/// Appends each number.
fn push_numbers(bytes: &mut Vec<u8>, numbers: &[u64]) -> Result<(), AllocError>
    ensures { OnOk result (bytes.new.items ≡ bytes.old.items ++ numbers_bytes numbers.now) }
{
    for number in numbers {
        push_number(bytes, *number)?;
    }
    Ok(())
}

/// Appends the number of a hint.
fn push_hint(bytes: &mut Vec<u8>, hint: Hint) -> io::Result<()>
    ensures pushed { OnOk result (bytes.new.items
        ≡ bytes.old.items ++ number_bytes (hint_number (hint_of hint))) }
    ensures small { OnOk result (hint_id (hint_of hint) < 2 ^ 63) }
{
    let (id, sign) = match hint {
        Hint::Along(id) => (id, 0),
        Hint::Against(id) => (id, 1),
    };
    let Some(twice) = id.checked_mul(2) else {
        return Err(io::Error::from(ErrorKind::InvalidData));
    };
    push_number(bytes, twice + sign)?;
    Ok(())
}

/// Appends the number of each hint.
fn push_hints(bytes: &mut Vec<u8>, hints: &[Hint]) -> io::Result<()>
    ensures pushed { OnOk result (bytes.new.items
        ≡ bytes.old.items ++ numbers_bytes (map hint_number (map hint_of hints.now))) }
    ensures small { OnOk result (All (λ hint. hint_id (hint_of hint) < 2 ^ 63) hints.now) }
{
    for hint in hints {
        push_hint(bytes, *hint)?;
    }
    Ok(())
}
