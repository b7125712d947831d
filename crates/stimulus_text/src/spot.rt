//! The state of the parser of stimuli, and what a byte does in it.
ghost use Rattle.std.specs.Prelude.{◌≡◌};
ghost use Rattle.stimulus_text.specs.automaton.Places.{after, at_status, between, in_property, in_row, in_values, is_dot, is_done, item_of, kind_of, line_start, moved, next_line, properties, row_read, start, value_of, value_read, width};

use crate::fault::StimulusKind;
use crate::stimulus::Item;
use sat_formula::bytes::is_digit;

/// How many values there are in lines.
#[derive(Clone, Copy, Debug, PartialEq, Eq)]
pub struct Shape {
    /// How many latches the machine has.
    pub latches: usize,
    /// How many inputs it has.
    pub inputs: usize,
}

/// A line of values.
#[derive(Clone, Copy)]
pub(crate) enum Row {
    Latches,
    Inputs,
}

/// A position in a line.
#[derive(Clone, Copy)]
pub(crate) enum Place {
    /// Before the status.
    Status,
    /// After the status.
    Told,
    /// At the start of a line of properties, or of that of the latches.
    Properties,
    /// In the number of a property, with a digit before or not.
    Property(bool),
    /// After a blank that follows a property.
    Between,
    /// In a line of values, of which this many were read.
    Values(Row, usize),
    /// After the `.`.
    Dot,
    /// At the start of a line after that of the `.`.
    LineStart,
    Comment,
}

/// The state of the parser.
#[derive(Clone, Copy)]
pub(crate) struct Spot {
    pub(crate) shape: Shape,
    /// The number of the line; it stays at `u64::MAX`.
    pub(crate) line: u64,
    pub(crate) place: Place,
}

/// What a byte does.
#[derive(Clone, Copy)]
pub(crate) enum After {
    Next(Spot),
    /// An item was read.
    Gives(Item, Spot),
    Stops(StimulusKind),
}

impl Row {
    /// How many values such a line has.
    fn width(self, shape: Shape) -> usize
        ensures { result ≡ width shape self }
    {
        match self {
            Row::Latches => shape.latches,
            Row::Inputs => shape.inputs,
        }
    }

    /// What is wrong with a line that has not as many.
    fn kind(self) -> StimulusKind
        ensures { result ≡ kind_of self }
    {
        match self {
            Row::Latches => StimulusKind::OtherLatches,
            Row::Inputs => StimulusKind::OtherInputs,
        }
    }

    /// What a value of such a line says.
    fn item(self, value: bool) -> Item
        ensures { result ≡ item_of self value }
    {
        match self {
            Row::Latches => Item::OfLatch(value),
            Row::Inputs => Item::OfInput(value),
        }
    }

    /// Whether a byte of such a line, after this many values, is the `.` that follows the steps.
    fn is_dot(self, count: usize, byte: u8) -> bool
        ensures { result ≡ is_dot self count byte }
    {
        match self {
            Row::Latches => false,
            Row::Inputs => count == 0 && byte == b'.',
        }
    }
}

impl Spot {
    /// Returns the start of a text.
    pub(crate) fn start(shape: Shape) -> Spot
        ensures { result ≡ start shape }
    {
        Spot {
            shape,
            line: 1,
            place: Place::Status,
        }
    }

    /// Returns whether the text may end here.
    pub(crate) fn is_done(&self) -> bool
        ensures { result ≡ is_done self.now.place }
    {
        match self.place {
            Place::Dot | Place::LineStart | Place::Comment => true,
            _ => false,
        }
    }

    /// Returns what the next byte does.
    #[tactic(auto, unfolding(crate::specs::automaton::Places::after))]
    pub(crate) fn after(self, byte: u8) -> After
        ensures { result ≡ after self byte }
    {
        match self.place {
            Place::Status => self.at_status(byte),
            Place::Told if byte == b'\n' => After::Next(self.next_line(Place::Properties)),
            Place::Told => After::Stops(StimulusKind::Malformed),
            Place::Properties => self.properties(byte),
            Place::Property(any) => self.in_property(any, byte),
            Place::Between => self.between(byte),
            Place::Values(row, count) => self.in_row(row, count, byte),
            Place::Dot if byte == b'\n' => After::Next(self.next_line(Place::LineStart)),
            Place::Dot => After::Stops(StimulusKind::Malformed),
            Place::LineStart => self.line_start(byte),
            Place::Comment if byte == b'\n' => After::Next(self.next_line(Place::LineStart)),
            Place::Comment => After::Next(self),
        }
    }

    fn moved(self, place: Place) -> Spot
        ensures { result ≡ moved self place }
    {
        Spot { place, ..self }
    }

    fn next_line(self, place: Place) -> Spot
        ensures { result ≡ next_line self place }
    {
        Spot {
            line: self.line.saturating_add(1),
            place,
            ..self
        }
    }

    fn at_status(self, byte: u8) -> After
        ensures { result ≡ at_status self byte }
    {
        match byte {
            b'1' => After::Next(self.moved(Place::Told)),
            b'0' => After::Stops(StimulusKind::Unreached),
            b'2' => After::Stops(StimulusKind::Unknown),
            _ => After::Stops(StimulusKind::Malformed),
        }
    }

    fn properties(self, byte: u8) -> After
        ensures { result ≡ properties self byte }
    {
        if byte == b'b' {
            After::Next(self.moved(Place::Property(false)))
        } else {
            self.in_row(Row::Latches, 0, byte)
        }
    }

    fn between(self, byte: u8) -> After
        ensures { result ≡ between self byte }
    {
        if byte == b'b' {
            After::Next(self.moved(Place::Property(false)))
        } else {
            After::Stops(StimulusKind::Malformed)
        }
    }

    fn in_property(self, any: bool, byte: u8) -> After
        ensures { result ≡ in_property self any byte }
    {
        if is_digit(byte) {
            After::Next(self.moved(Place::Property(true)))
        } else if any && byte == b'\n' {
            After::Next(self.next_line(Place::Properties))
        } else if any && byte == b' ' {
            After::Next(self.moved(Place::Between))
        } else {
            After::Stops(StimulusKind::Malformed)
        }
    }

    fn in_row(self, row: Row, count: usize, byte: u8) -> After
        ensures { result ≡ in_row self row count byte }
    {
        if row.is_dot(count, byte) {
            After::Next(self.moved(Place::Dot))
        } else {
            self.in_values(row, count, byte)
        }
    }

    fn in_values(self, row: Row, count: usize, byte: u8) -> After
        ensures { result ≡ in_values self row count byte }
    {
        if byte != b'\n' {
            self.value_read(row, count, value_of(byte))
        } else if count == row.width(self.shape) {
            self.row_read(row)
        } else {
            After::Stops(row.kind())
        }
    }

    /// At a byte that is this value, if it is one.
    fn value_read(self, row: Row, count: usize, value: Option<bool>) -> After
        ensures { result ≡ value_read self row count value }
    {
        let Some(value) = value else {
            return After::Stops(StimulusKind::Malformed);
        };
        if count < row.width(self.shape) {
            After::Gives(row.item(value), self.moved(Place::Values(row, count + 1)))
        } else {
            After::Stops(row.kind())
        }
    }

    /// At the end of a line that has all its values.
    fn row_read(self, row: Row) -> After
        ensures { result ≡ row_read self row }
    {
        let next = self.next_line(Place::Values(Row::Inputs, 0));
        match row {
            Row::Latches => After::Next(next),
            Row::Inputs => After::Gives(Item::OfStep, next),
        }
    }

    fn line_start(self, byte: u8) -> After
        ensures { result ≡ line_start self byte }
    {
        if byte == b'c' {
            After::Next(self.moved(Place::Comment))
        } else {
            After::Stops(StimulusKind::Malformed)
        }
    }
}

/// Returns the value that a byte says: an `x` may be anything, and is 0 here.
fn value_of(byte: u8) -> Option<bool>
    ensures { result ≡ value_of byte }
{
    match byte {
        b'0' | b'x' => Some(false),
        b'1' => Some(true),
        _ => None,
    }
}
