//! Headers of circuits.
ghost use Rattle.std.specs.Prelude.{◌≡◌};
ghost use Rattle.circuit_text.specs.automaton.Headers.{as_text, field_after, gate_place, header_with, latch_place, lit_said, may_end, no_header, place_at, place_of, symbols_of, var_said, with_gates};

use crate::fault::AigerKind;
use crate::spot::{Line, Own, Place};
use sat_formula::Lit;

/// The numbers of a header from this one on are too large.
const LIMIT: u64 = 0x1000_0000;

/// The two forms of AIGER.
#[derive(Clone, Copy)]
pub(crate) enum Form {
    /// Inputs, and the own variables of latches and gates, are not written; gates are binary
    /// numbers.
    Binary,
    /// Each input, latch and gate is a line of numbers, of which the first is its own literal.
    Text,
}

/// The form and the counts of a header.
#[derive(Clone, Copy)]
pub(crate) struct Header {
    pub(crate) form: Form,
    pub(crate) maximum: u32,
    pub(crate) inputs: u32,
    pub(crate) latches: u32,
    pub(crate) outputs: u32,
    pub(crate) gates: u32,
    pub(crate) bad: u32,
    pub(crate) constraints: u32,
}

/// The numbers of a header, in their order.
#[derive(Clone, Copy)]
pub(crate) enum Field {
    Maximum,
    Inputs,
    Latches,
    Outputs,
    Gates,
    Bad,
    Constraints,
    Justice,
    Fairness,
}

impl Field {
    /// The number after this one.
    pub(crate) fn after(self) -> Option<Field>
        ensures { result ≡ field_after self }
    {
        match self {
            Field::Maximum => Some(Field::Inputs),
            Field::Inputs => Some(Field::Latches),
            Field::Latches => Some(Field::Outputs),
            Field::Outputs => Some(Field::Gates),
            Field::Gates => Some(Field::Bad),
            Field::Bad => Some(Field::Constraints),
            Field::Constraints => Some(Field::Justice),
            Field::Justice => Some(Field::Fairness),
            Field::Fairness => None,
        }
    }

    /// Whether a header may end after this number.
    pub(crate) fn may_end(self) -> bool
        ensures { result ≡ may_end self }
    {
        match self {
            Field::Maximum | Field::Inputs | Field::Latches | Field::Outputs => false,
            Field::Gates | Field::Bad | Field::Constraints => true,
            Field::Justice | Field::Fairness => true,
        }
    }
}

impl Header {
    /// The header of nothing.
    pub(crate) fn none() -> Header
        ensures { result ≡ no_header }
    {
        Header {
            form: Form::Binary,
            maximum: 0,
            inputs: 0,
            latches: 0,
            outputs: 0,
            gates: 0,
            bad: 0,
            constraints: 0,
        }
    }

    /// The header of a text in the text form.
    pub(crate) fn as_text(self) -> Header
        ensures { result ≡ as_text self }
    {
        Header {
            form: Form::Text,
            ..self
        }
    }

    /// The header with this number.
    pub(crate) fn with(self, field: Field, number: u64) -> Result<Header, AigerKind>
        ensures { result ≡ header_with self field number }
    {
        if number >= LIMIT {
            return Err(AigerKind::NumberTooLarge);
        }
        let count = number as u32;
        match field {
            Field::Maximum => Ok(Header {
                maximum: count,
                ..self
            }),
            Field::Inputs => Ok(Header {
                inputs: count,
                ..self
            }),
            Field::Latches => Ok(Header {
                latches: count,
                ..self
            }),
            Field::Outputs => Ok(Header {
                outputs: count,
                ..self
            }),
            Field::Gates => self.with_gates(count),
            Field::Bad => Ok(Header { bad: count, ..self }),
            Field::Constraints => Ok(Header {
                constraints: count,
                ..self
            }),
            Field::Justice if count > 0 => Err(AigerKind::Justice),
            Field::Fairness if count > 0 => Err(AigerKind::Fairness),
            Field::Justice | Field::Fairness => Ok(self),
        }
    }

    /// The header with this number of gates, by which the maximal variable is known.
    fn with_gates(self, gates: u32) -> Result<Header, AigerKind>
        ensures { result ≡ with_gates self gates }
    {
        if self.maximum as u64 == self.inputs as u64 + self.latches as u64 + gates as u64 {
            Ok(Header { gates, ..self })
        } else {
            Err(AigerKind::WrongMaximum)
        }
    }

    /// The literal of a code, if its variable is not above the maximal one.
    pub(crate) fn lit(self, code: u64) -> Result<Lit, AigerKind>
        ensures { result ≡ lit_said self code }
    {
        match Lit::from_code(code as usize) {
            Some(lit) if lit.index() <= self.maximum as usize => Ok(lit),
            _ => Err(AigerKind::LiteralOutOfRange),
        }
    }

    /// The literal of a variable that is not above the maximal one.
    pub(crate) fn var(self, variable: u64) -> Result<Lit, AigerKind>
        ensures { result ≡ var_said self variable }
    {
        if variable > self.maximum as u64 {
            return Err(AigerKind::LiteralOutOfRange);
        }
        match Lit::from_code(2 * variable as usize) {
            Some(lit) => Ok(lit),
            None => Err(AigerKind::LiteralOutOfRange),
        }
    }

    /// How many symbols there may be of the kind of this letter.
    pub(crate) fn symbols(self, letter: u8) -> Option<u32>
        ensures { result ≡ symbols_of self letter }
    {
        match letter {
            b'i' => Some(self.inputs),
            b'l' => Some(self.latches),
            b'o' => Some(self.outputs),
            b'b' => Some(self.bad),
            b'j' | b'f' => Some(0),
            _ => None,
        }
    }

    /// Where the item of this number begins: a line of numbers, a gate, or what follows the gates.
    /// Items count from 0, and inputs are items in the text form.
    pub(crate) fn place(self, item: u64) -> Place
        ensures { result ≡ place_at self item }
    {
        match self.form {
            Form::Binary => self.place_of(item),
            Form::Text if item < self.inputs as u64 => Place::Own(Own::Input, item + 1, None),
            Form::Text => self.place_of(item - self.inputs as u64),
        }
    }

    /// The same, where inputs are no items.
    fn place_of(self, item: u64) -> Place
        ensures { result ≡ place_of self item }
    {
        let latches = self.latches as u64;
        let outputs = latches + self.outputs as u64;
        let bad = outputs + self.bad as u64;
        let lines = bad + self.constraints as u64;
        if item < latches {
            self.latch_place(self.inputs as u64 + 1 + item)
        } else if item < outputs {
            Place::Line(Line::Output, None)
        } else if item < bad {
            Place::Line(Line::Bad, None)
        } else if item < lines {
            Place::Line(Line::Constraint, None)
        } else if item < lines + self.gates as u64 {
            let before = self.inputs as u64 + latches + 1;
            self.gate_place(before + (item - lines))
        } else {
            Place::LineStart
        }
    }

    /// Where the latch of this variable begins.
    fn latch_place(self, variable: u64) -> Place
        ensures { result ≡ latch_place self variable }
    {
        match self.form {
            Form::Binary => Place::Line(Line::Latch(variable), None),
            Form::Text => Place::Own(Own::Latch, variable, None),
        }
    }

    /// Where the gate of this variable begins.
    fn gate_place(self, variable: u64) -> Place
        ensures { result ≡ gate_place self variable }
    {
        match self.form {
            Form::Binary => Place::Left(variable, 0, 1),
            Form::Text => Place::Own(Own::Gate, variable, None),
        }
    }
}
