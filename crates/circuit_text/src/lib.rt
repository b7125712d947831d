//! Circuits in AIGER, binary or text: inputs, latches, outputs, bad outputs, constraints and and
//! gates.
//!
//! Source: Biere, Heljanko, Wieringa, AIGER 1.9 and beyond, 2011.
#![tactic(auto)]

mod circuit;
mod fault;
mod grammar;
mod header;
mod laws;
mod number;
mod reader;
mod spot;
mod text_form;

pub use circuit::{Circuit, Gate, Latch};
pub use fault::{AigerFault, AigerKind, Location};
pub use laws::{aiger_rows, has_one_circuit, read_is_written, text_is_read, written_is_read};
pub use reader::read_circuit;
