//! Places in the text of a circuit, as far as names are concerned.
ghost use Rattle.std.specs.Prelude.{◌≡◌};
ghost use Rattle.circuit_names.specs.Starts.{letter_place, named_after, place_after, place_before};

use sat_formula::bytes::{is_digit, value_after};

/// What has a name.
#[derive(Clone, Copy, Debug, PartialEq, Eq)]
pub enum Kind {
    Input,
    Output,
}

/// A place in the text of a circuit.
#[derive(Clone, Copy)]
pub(crate) enum Place {
    /// In the lines before the symbols or the binary gates, of which this many have not ended; and
    /// how many numbers the gates behind them have.
    Lines(u64, u64),
    /// In the binary gates, of which this many numbers have not ended.
    Numbers(u64),
    /// At the start of a line after the gates.
    Start,
    /// In the position of an input or output, which has this value so far.
    Position(Kind, u64),
    /// After a `c` that began such a line.
    AfterC,
    /// In the rest of a line.
    Rest,
    /// In the comment that ends the text.
    Comment,
}

impl Place {
    /// Returns the place before this many lines, and gates with this many numbers behind them.
    pub(crate) fn before(lines: u64, numbers: u64) -> Place
        ensures { result ≡ place_before lines numbers }
    {
        if lines > 0 {
            Place::Lines(lines, numbers)
        } else if numbers > 0 {
            Place::Numbers(numbers)
        } else {
            Place::Start
        }
    }

    /// Returns the place after a byte.
    #[tactic(auto, unfolding(crate::specs::Starts::place_after))]
    pub(crate) fn after(self, byte: u8) -> Place
        ensures { result ≡ place_after self byte }
    {
        match self {
            Place::Lines(lines, numbers) if byte == b'\n' => {
                Place::before(lines.saturating_sub(1), numbers)
            }
            Place::Numbers(numbers) if byte < 128 => Place::before(0, numbers.saturating_sub(1)),
            Place::Start => letter_place(byte),
            Place::Position(kind, value) if is_digit(byte) => {
                Place::Position(kind, value_after(value, byte))
            }
            Place::AfterC if byte == b'\n' => Place::Comment,
            Place::Rest if byte == b'\n' => Place::Start,
            Place::Position(_, _) | Place::AfterC | Place::Rest => Place::Rest,
            Place::Lines(_, _) | Place::Numbers(_) | Place::Comment => self,
        }
    }

    /// Returns the input or output whose name begins after a byte, if one does.
    pub(crate) fn named(self, byte: u8) -> Option<(Kind, u64)>
        ensures { result ≡ named_after self byte }
    {
        match self {
            Place::Position(kind, position) if !is_digit(byte) => Some((kind, position)),
            _ => None,
        }
    }
}

/// Returns the place after the first byte of a line behind the gates.
fn letter_place(byte: u8) -> Place
    ensures { result ≡ letter_place byte }
{
    match byte {
        b'i' => Place::Position(Kind::Input, 0),
        b'o' => Place::Position(Kind::Output, 0),
        b'c' => Place::AfterC,
        _ => Place::Rest,
    }
}
