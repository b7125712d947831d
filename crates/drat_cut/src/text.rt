//! Clauses as text.
use sat_formula::Lit;
use std::alloc::AllocError;
use written_numbers::words::push_literals;

/// Appends the literals of a clause as DIMACS numbers, and the 0 with its LF.
pub(crate) fn push_clause(text: &mut Vec<u8>, clause: &[Lit]) -> Result<(), AllocError> {
    push_literals(text, clause)?;
    text.extend_from_slice(b"0\n")
}
