//! The lines of verdicts, and of inputs and outputs.
ghost use Rattle.std.specs.Prelude.{◌≡◌, ◌++◌, map, IfOk, OnOk};
ghost use Rattle.circuit_answers.specs.Lines.{different_text, digit_of, open_text, possible_text, values_line};

use std::alloc::{AllocError, Global};

/// Returns the lines of an input that makes an output true, and of the outputs.
pub(crate) fn possible_text(
    alloc: Global,
    input: &[bool],
    outputs: &[bool],
) -> Result<Vec<u8>, AllocError>
    ensures { IfOk result (λ text. text.items ≡ possible_text input.now outputs.now) }
{
    let mut text = Vec::new(alloc);
    text.extend_from_slice(b"s VERIFIED POSSIBLE\n")?;
    add_values(&mut text, b'i', input)?;
    add_values(&mut text, b'o', outputs)?;
    Ok(text)
}

/// Returns the lines of an input for which two circuits differ, and of the outputs of both.
pub(crate) fn different_text(
    alloc: Global,
    input: &[bool],
    outputs: &[bool],
    others: &[bool],
) -> Result<Vec<u8>, AllocError>
    ensures { IfOk result (λ text. text.items
        ≡ different_text input.now outputs.now others.now) }
{
    let mut text = Vec::new(alloc);
    text.extend_from_slice(b"s VERIFIED DIFFERENT\n")?;
    add_values(&mut text, b'i', input)?;
    add_values(&mut text, b'o', outputs)?;
    add_values(&mut text, b'o', others)?;
    Ok(text)
}

/// Returns the line of an answer that shows nothing.
pub(crate) fn open_text(alloc: Global) -> Result<Vec<u8>, AllocError>
    ensures { IfOk result (λ text. text.items ≡ open_text) }
{
    let mut text = Vec::new(alloc);
    text.extend_from_slice(b"s NOT VERIFIED\n")?;
    Ok(text)
}

/// Adds the line of values: a letter, a space, and a digit for each value.
fn add_values(text: &mut Vec<u8>, letter: u8, values: &[bool]) -> Result<(), AllocError>
    ensures { OnOk result (text.new.items ≡ text.old.items ++ values_line letter values.now) }
{
    text.push(letter)?;
    text.push(b' ')?;
    add_digits(text, values)?;
    text.push(b'\n')?;
    Ok(())
}

/// Adds a digit for each value.
fn add_digits(text: &mut Vec<u8>, values: &[bool]) -> Result<(), AllocError>
    ensures { OnOk result (text.new.items ≡ text.old.items ++ map digit_of values.now) }
{
    for value in values {
        text.push(digit(*value))?;
    }
    Ok(())
}

/// Returns the digit of a value: `1` if it is true, else `0`.
fn digit(value: bool) -> u8
    ensures { result ≡ digit_of value }
{
    if value { b'1' } else { b'0' }
}
