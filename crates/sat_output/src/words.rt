//! Words of LRAT lines at the end of a text, each before a space.
ghost use Rattle.std.specs.Prelude.{◌≡◌, ◌++◌, map, decimal, OnOk};
ghost use Rattle.lrat_text.specs.Grammar.{hint_of};
ghost use Rattle.sat_output.specs.LratTexts.{hint_text};
ghost use Rattle.written_numbers.specs.Words.{spaced, spaced_word};

use lrat_text::Hint;
use std::alloc::AllocError;
use written_numbers::words::push_number;

/// Appends each number, and a space after it.
pub(crate) fn push_numbers(text: &mut Vec<u8>, numbers: &[u64]) -> Result<(), AllocError>
    ensures { OnOk result (text.new.items
        ≡ text.old.items ++ spaced (map decimal numbers.now)) }
{
    for number in numbers {
        push_number(text, *number)?;
    }
    Ok(())
}

/// Appends a hint, and a space.
fn push_hint(text: &mut Vec<u8>, hint: Hint) -> Result<(), AllocError>
    ensures { OnOk result (text.new.items
        ≡ text.old.items ++ spaced_word (hint_text (hint_of hint))) }
{
    match hint {
        Hint::Along(id) => push_number(text, id),
        Hint::Against(id) => {
            text.push(b'-')?;
            push_number(text, id)
        }
    }
}

/// Appends each hint, and a space after it.
pub(crate) fn push_hints(text: &mut Vec<u8>, hints: &[Hint]) -> Result<(), AllocError>
    ensures { OnOk result (text.new.items
        ≡ text.old.items ++ spaced (map hint_text (map hint_of hints.now))) }
{
    for hint in hints {
        push_hint(text, *hint)?;
    }
    Ok(())
}
