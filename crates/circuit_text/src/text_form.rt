//! The lines of inputs, latches and gates in the text form.
ghost use Rattle.std.specs.Prelude.{◌≡◌};
ghost use Rattle.circuit_text.specs.automaton.Places.{first_read, first_said, in_first, in_own, in_second, own_read, own_said, second_read, second_said};

use crate::circuit::{Gate, Item};
use crate::fault::AigerKind;
use crate::number::Digits;
use crate::spot::{After, Line, Own, Place, Spot};
use sat_formula::Lit;

impl Spot {
    pub(crate) fn in_own(self, own: Own, variable: u64, digits: Digits, byte: u8) -> After
        ensures { result ≡ in_own self own variable digits byte }
    {
        match digits {
            Digits::More(value) => After::Next(self.moved(Place::Own(own, variable, Some(value)))),
            Digits::Missing => After::Stops(AigerKind::Malformed),
            Digits::Whole(value) => {
                self.own_read(own, variable, self.header.var(variable), value, byte)
            }
        }
    }

    /// At the byte after the own literal of this variable.
    fn own_read(
        self,
        own: Own,
        variable: u64,
        output: Result<Lit, AigerKind>,
        value: u64,
        byte: u8,
    ) -> After
        ensures { result ≡ own_read self own variable output value byte }
    {
        match output {
            Ok(output) if value == output.code() as u64 => self.own_said(own, variable, byte),
            Ok(_) => After::Stops(AigerKind::OtherOrder),
            Err(kind) => After::Stops(kind),
        }
    }

    fn own_said(self, own: Own, variable: u64, byte: u8) -> After
        ensures { result ≡ own_said self own variable byte }
    {
        match own {
            Own::Input if byte == b'\n' => After::Next(self.next_line().next_item()),
            Own::Latch if byte == b' ' => {
                After::Next(self.moved(Place::Line(Line::Latch(variable), None)))
            }
            Own::Gate if byte == b' ' => After::Next(self.moved(Place::First(variable, None))),
            Own::Input | Own::Latch | Own::Gate => After::Stops(AigerKind::Malformed),
        }
    }

    pub(crate) fn in_first(self, variable: u64, digits: Digits, byte: u8) -> After
        ensures { result ≡ in_first self variable digits byte }
    {
        match digits {
            Digits::More(value) => After::Next(self.moved(Place::First(variable, Some(value)))),
            Digits::Missing => After::Stops(AigerKind::Malformed),
            Digits::Whole(value) => {
                let (output, left) = (self.header.var(variable), self.header.lit(value));
                self.first_read(variable, output, left, byte)
            }
        }
    }

    /// At the byte after the first literal of a gate.
    fn first_read(
        self,
        variable: u64,
        output: Result<Lit, AigerKind>,
        left: Result<Lit, AigerKind>,
        byte: u8,
    ) -> After
        ensures { result ≡ first_read self variable output left byte }
    {
        match (output, left) {
            (Ok(output), Ok(left)) => self.first_said(variable, output, left, byte),
            (Err(kind), _) => After::Stops(kind),
            (Ok(_), Err(kind)) => After::Stops(kind),
        }
    }

    fn first_said(self, variable: u64, output: Lit, left: Lit, byte: u8) -> After
        ensures { result ≡ first_said self variable output left byte }
    {
        if left.code() >= output.code() {
            After::Stops(AigerKind::LaterGate)
        } else if byte == b' ' {
            After::Next(self.moved(Place::Second(variable, left.code() as u64, None)))
        } else {
            After::Stops(AigerKind::Malformed)
        }
    }

    pub(crate) fn in_second(self, variable: u64, left: u64, digits: Digits, byte: u8) -> After
        ensures { result ≡ in_second self variable left digits byte }
    {
        match digits {
            Digits::More(value) => {
                After::Next(self.moved(Place::Second(variable, left, Some(value))))
            }
            Digits::Missing => After::Stops(AigerKind::Malformed),
            Digits::Whole(value) => {
                let (output, left) = (self.header.var(variable), self.header.lit(left));
                self.second_read(output, left, self.header.lit(value), byte)
            }
        }
    }

    /// At the byte after the second literal of a gate.
    fn second_read(
        self,
        output: Result<Lit, AigerKind>,
        left: Result<Lit, AigerKind>,
        right: Result<Lit, AigerKind>,
        byte: u8,
    ) -> After
        ensures { result ≡ second_read self output left right byte }
    {
        match (output, left, right) {
            (Ok(output), Ok(left), Ok(right)) => {
                let gate = Gate {
                    output,
                    left,
                    right,
                };
                self.second_said(gate, byte)
            }
            (Err(kind), _, _) => After::Stops(kind),
            (Ok(_), Err(kind), _) => After::Stops(kind),
            (Ok(_), Ok(_), Err(kind)) => After::Stops(kind),
        }
    }

    fn second_said(self, gate: Gate, byte: u8) -> After
        ensures { result ≡ second_said self gate byte }
    {
        if gate.right.code() >= gate.output.code() {
            After::Stops(AigerKind::LaterGate)
        } else if byte == b'\n' {
            self.item_read(Item::OfGate(gate))
        } else {
            After::Stops(AigerKind::Malformed)
        }
    }
}
