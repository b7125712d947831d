//! Why a circuit is not read.
use sat_formula::read_fault::{FaultKind, ReadFault};
use thiserror::Error;

/// What is wrong with the text of a circuit.
#[derive(Clone, Copy, Debug, PartialEq, Eq, Error)]
pub enum AigerKind {
    /// The text does not begin with `aig` or `aag` and a space.
    #[error("no header of an AIGER file")]
    NoHeader,
    /// A byte that the form does not have here.
    #[error("malformed")]
    Malformed,
    /// A number of the header from 2^28 on, or a gate's number of more than five bytes.
    #[error("number too large")]
    NumberTooLarge,
    /// The header's maximal variable is not the number of inputs, latches and gates.
    #[error("the maximal variable is not the number of inputs, latches and gates")]
    WrongMaximum,
    /// The header counts justice properties.
    #[error("justice properties, which are not checked")]
    Justice,
    /// The header counts fairness constraints.
    #[error("fairness constraints, which are not checked")]
    Fairness,
    /// A literal of a variable above the maximal one.
    #[error("literal out of range")]
    LiteralOutOfRange,
    /// A reset other than 0, 1 and the latch itself.
    #[error("a reset is 0, 1 or the latch itself")]
    WrongReset,
    /// A gate that does not read a literal below its own, or whose second literal is above its
    /// first one.
    #[error("a gate reads literals below its own, the larger one first")]
    GateOrder,
    /// In the text form, a literal of an input, latch or gate that is not the next one.
    #[error("inputs, latches and gates are numbered in this order, as aigtoaig does it")]
    OtherOrder,
    /// In the text form, a gate that reads a literal that is not below its own.
    #[error("a gate reads itself or a later gate, which aigtoaig puts in order")]
    LaterGate,
    /// A symbol's position that is not below the count of its kind.
    #[error("symbol out of range")]
    SymbolOutOfRange,
    /// The text ends before its last gate, or within a symbol.
    #[error("the text ends too early")]
    Unfinished,
}

/// Where a fault is.
#[derive(Clone, Copy, Debug, PartialEq, Eq, Error)]
pub enum Location {
    /// A line of the text; lines count from 1, and the gates are no lines.
    #[error("line {0}")]
    Line(u64),
    /// The gate of this variable.
    #[error("gate of variable {0}")]
    Gate(u64),
}

impl FaultKind for AigerKind {
    const TEXT: &'static str = "circuit";
}

/// Why a reader of a circuit gave up.
pub type AigerFault = ReadFault<Location, AigerKind>;
