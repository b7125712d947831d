//! Inputs of circuits, from the literals of an answer.
ghost use Rattle.std.specs.Prelude.{◌≡◌, ◌<◌, ◌^◌, IfOk};
ghost use Rattle.answer_text.specs.Literals.{has_lit};
ghost use Rattle.circuit_answers.specs.Simulations.{input_by};

use answer_text::Literals;
use sat_formula::Lit;
use std::alloc::{AllocError, Global};

/// Returns the values of inputs, this many: an input is true if its positive literal is listed.
///
/// # Errors
///
/// `AllocError` if memory runs out.
pub(crate) fn read_input(
    alloc: Global,
    literals: &Literals,
    inputs: u32,
) -> Result<Vec<bool>, AllocError>
    requires { inputs < 2 ^ 28 }
    ensures { IfOk result (λ input. input.items ≡ input_by (has_lit literals.now) inputs) }
{
    let mut input = Vec::new(alloc);
    for index in 0..inputs as usize {
        let Some(lit) = Lit::from_code(2 * (index + 1)) else {
            unreachable!();
        };
        input.push(literals.contains(lit))?;
    }
    Ok(input)
}
