//! Words at the end of a text.
ghost use Rattle.std.specs.Prelude.{◌≡◌, ◌++◌, map, decimal, OnOk};
ghost use Rattle.written_numbers.specs.Words.{literal_text, spaced, spaced_word};

use itoa::Buffer;
use sat_formula::Lit;
use std::alloc::AllocError;

/// Appends a number in decimal digits.
///
/// # Errors
///
/// `AllocError` if memory runs out.
pub fn push_decimal(text: &mut Vec<u8>, number: u64) -> Result<(), AllocError>
    ensures { OnOk result (text.new.items ≡ text.old.items ++ decimal number) }
{
    let mut buffer = Buffer::new();
    text.extend_from_slice(buffer.format(number).as_bytes())?;
    Ok(())
}

/// Appends a number, and a space.
///
/// # Errors
///
/// `AllocError` if memory runs out.
pub fn push_number(text: &mut Vec<u8>, number: u64) -> Result<(), AllocError>
    ensures { OnOk result (text.new.items ≡ text.old.items ++ spaced_word (decimal number)) }
{
    push_decimal(text, number)?;
    text.push(b' ')?;
    Ok(())
}

/// Appends a literal as in DIMACS, and a space.
fn push_literal(text: &mut Vec<u8>, lit: Lit) -> Result<(), AllocError>
    ensures { OnOk result (text.new.items ≡ text.old.items ++ spaced_word (literal_text lit)) }
{
    if lit.is_negative() {
        text.push(b'-')?;
    }
    push_number(text, lit.index() as u64 + 1)
}

/// Appends each literal as in DIMACS, and a space after it.
///
/// # Errors
///
/// `AllocError` if memory runs out.
pub fn push_literals(text: &mut Vec<u8>, lits: &[Lit]) -> Result<(), AllocError>
    ensures { OnOk result (text.new.items
        ≡ text.old.items ++ spaced (map literal_text lits.now)) }
{
    for lit in lits {
        push_literal(text, *lit)?;
    }
    Ok(())
}
