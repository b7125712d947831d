//! Steps of DRAT proofs.
ghost use Rattle.std.specs.Prelude.{◌≡◌, ◌++◌, OnOk};
ghost use Rattle.sat_output.specs.DratTexts.{addition_text, deletion_text};

use sat_formula::Lit;
use std::alloc::AllocError;
use written_numbers::words::push_literals;

/// Appends a step that adds a clause, with its LF.
///
/// # Errors
///
/// `AllocError` if memory runs out.
pub fn push_addition(text: &mut Vec<u8>, clause: &[Lit]) -> Result<(), AllocError>
    ensures { OnOk result (text.new.items ≡ text.old.items ++ addition_text clause.now) }
{
    push_literals(text, clause)?;
    text.extend_from_slice(b"0\n")?;
    Ok(())
}

/// Appends a step that deletes a clause, with its LF.
///
/// # Errors
///
/// `AllocError` if memory runs out.
pub fn push_deletion(text: &mut Vec<u8>, clause: &[Lit]) -> Result<(), AllocError>
    ensures { OnOk result (text.new.items ≡ text.old.items ++ deletion_text clause.now) }
{
    text.extend_from_slice(b"d ")?;
    push_addition(text, clause)
}
