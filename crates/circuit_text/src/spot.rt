//! Where the reading of a circuit is.
ghost use Rattle.std.specs.Prelude.{◌≡◌};
ghost use Rattle.circuit_text.specs.automaton.Places.{is_done, location, moved, next_item, next_line, start};

use crate::circuit::Item;
use crate::fault::{AigerKind, Location};
use crate::header::{Field, Header};

/// A line of numbers.
#[derive(Clone, Copy)]
pub(crate) enum Line {
    /// Of the latch of this variable.
    Latch(u64),
    Output,
    Bad,
    Constraint,
}

/// What begins with its own literal in the text form.
#[derive(Clone, Copy)]
pub(crate) enum Own {
    Input,
    Latch,
    Gate,
}

/// A place in the text. In a number it has the value of the digits, if there were any.
#[derive(Clone, Copy)]
pub(crate) enum Place {
    /// In the first word, of which this many bytes were read.
    Word(usize),
    /// In a number of the header.
    Head(Field, Option<u64>),
    /// In the first number of a line.
    Line(Line, Option<u64>),
    /// In the reset of the latch of this variable, which takes the value of the literal of this
    /// code.
    Reset(u64, u64, Option<u64>),
    /// In the own literal of the input, latch or gate of this variable, in the text form.
    Own(Own, u64, Option<u64>),
    /// In the first literal of the gate of this variable, in the text form.
    First(u64, Option<u64>),
    /// In its second one, after a first one of this code.
    Second(u64, u64, Option<u64>),
    /// In the first number of the gate of this variable, with bytes of this value, and before one
    /// of this weight.
    Left(u64, u32, u32),
    /// In the second number of the gate of this variable, whose first literal has this code.
    Right(u64, u64, u32, u32),
    /// At the start of a line after the gates.
    LineStart,
    /// After a `c` that began such a line.
    AfterC,
    /// In the position of a symbol, which is below this count.
    Position(u32, Option<u64>),
    /// In the name of a symbol.
    Name,
    /// In the comment that ends the text.
    Comment,
}

/// Where the reading of a text is.
#[derive(Clone, Copy)]
pub(crate) struct Spot {
    pub(crate) header: Header,
    /// The number of the line; it stays at `u64::MAX`.
    pub(crate) line: u64,
    /// How many lines of numbers, and gates, were read; it stays at `u64::MAX`.
    pub(crate) item: u64,
    pub(crate) place: Place,
}

/// What a byte does.
#[derive(Clone, Copy)]
pub(crate) enum After {
    Next(Spot),
    /// An item was read.
    Gives(Item, Spot),
    Stops(AigerKind),
}

impl Spot {
    /// The start of a text.
    pub(crate) fn start() -> Spot
        ensures { result ≡ start }
    {
        Spot {
            header: Header::none(),
            line: 1,
            item: 0,
            place: Place::Word(0),
        }
    }

    /// Where a fault at this spot is.
    #[inline(always)]
    pub(crate) fn location(&self) -> Location
        ensures { result ≡ location self.now }
    {
        match self.place {
            Place::Left(variable, _, _) | Place::Right(variable, _, _, _) => {
                Location::Gate(variable)
            }
            _ => Location::Line(self.line),
        }
    }

    /// Whether the text may end here.
    pub(crate) fn is_done(&self) -> bool
        ensures { result ≡ is_done self.now.place }
    {
        match self.place {
            Place::LineStart | Place::Comment => true,
            _ => false,
        }
    }

    #[inline(always)]
    pub(crate) fn moved(self, place: Place) -> Spot
        ensures { result ≡ moved self place }
    {
        Spot { place, ..self }
    }

    /// The same place of the next line.
    #[inline(always)]
    pub(crate) fn next_line(self) -> Spot
        ensures { result ≡ next_line self }
    {
        Spot {
            line: self.line.saturating_add(1),
            ..self
        }
    }

    /// The start of the next item.
    #[inline(always)]
    pub(crate) fn next_item(self) -> Spot
        ensures { result ≡ next_item self }
    {
        let item = self.item.saturating_add(1);
        Spot {
            item,
            place: self.header.place(item),
            ..self
        }
    }
}
