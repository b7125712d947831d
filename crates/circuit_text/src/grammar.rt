//! The grammar of a circuit, a byte after the other.
ghost use Rattle.std.specs.Prelude.{◌≡◌};
ghost use Rattle.circuit_text.specs.automaton.Headers.{reset_said};
ghost use Rattle.circuit_text.specs.automaton.Places.{after, after_c, first_word, gate_read, gate_said, header_read, in_header, in_left, in_line, in_name, in_position, in_reset, in_right, in_word, item_read, latch_read, latch_said, left_read, left_said, line_lit, line_start, lit_less, lit_read, next_field, reset_read, right_read, symbol_start, with_header};

use crate::circuit::{Gate, Item, Latch};
use crate::fault::AigerKind;
use crate::header::{Field, Header};
use crate::number::{Digits, Number, digits_after, number_after};
use crate::spot::{After, Line, Place, Spot};
use sat_formula::Lit;

impl Spot {
    /// What the next byte does.
    #[inline(always)]
    #[tactic(auto, unfolding(crate::specs::automaton::Places::after))]
    pub(crate) fn after(self, byte: u8) -> After
        ensures { result ≡ after self byte }
    {
        match self.place {
            Place::Word(read) => self.in_word(read, byte),
            Place::Head(field, digits) => self.in_header(field, digits_after(digits, byte), byte),
            Place::Line(line, digits) => self.in_line(line, digits_after(digits, byte), byte),
            Place::Reset(variable, next, digits) => {
                self.in_reset(variable, next, digits_after(digits, byte), byte)
            }
            Place::Own(own, variable, digits) => {
                self.in_own(own, variable, digits_after(digits, byte), byte)
            }
            Place::First(variable, digits) => {
                self.in_first(variable, digits_after(digits, byte), byte)
            }
            Place::Second(variable, left, digits) => {
                self.in_second(variable, left, digits_after(digits, byte), byte)
            }
            Place::Left(variable, value, weight) => {
                self.in_left(variable, number_after(value, weight, byte))
            }
            Place::Right(variable, left, value, weight) => {
                self.in_right(variable, left, number_after(value, weight, byte))
            }
            Place::LineStart => self.line_start(byte),
            Place::AfterC => self.after_c(byte),
            Place::Position(count, digits) => {
                self.in_position(count, digits_after(digits, byte), byte)
            }
            Place::Name => self.in_name(byte),
            Place::Comment => After::Next(self),
        }
    }

    fn in_word(self, read: usize, byte: u8) -> After
        ensures { result ≡ in_word self read byte }
    {
        let word = first_word();
        if read == 1 && byte == b'a' {
            let header = self.header.as_text();
            After::Next(Spot { header, ..self }.moved(Place::Word(2)))
        } else if read >= word.len() || word[read] != byte {
            After::Stops(AigerKind::NoHeader)
        } else if read + 1 == word.len() {
            After::Next(self.moved(Place::Head(Field::Maximum, None)))
        } else {
            After::Next(self.moved(Place::Word(read + 1)))
        }
    }

    // ---- the header

    fn in_header(self, field: Field, digits: Digits, byte: u8) -> After
        ensures { result ≡ in_header self field digits byte }
    {
        match digits {
            Digits::More(value) => After::Next(self.moved(Place::Head(field, Some(value)))),
            Digits::Missing => After::Stops(AigerKind::Malformed),
            Digits::Whole(value) => self.with_header(field, self.header.with(field, value), byte),
        }
    }

    /// At the byte after a number with which the header is this one.
    fn with_header(self, field: Field, header: Result<Header, AigerKind>, byte: u8) -> After
        ensures { result ≡ with_header self field header byte }
    {
        match header {
            Ok(header) => Spot { header, ..self }.header_read(field, byte),
            Err(kind) => After::Stops(kind),
        }
    }

    fn header_read(self, field: Field, byte: u8) -> After
        ensures { result ≡ header_read self field byte }
    {
        if byte == b'\n' && field.may_end() {
            let place = self.header.place(0);
            After::Next(self.next_line().moved(place))
        } else {
            self.next_field(field.after(), byte)
        }
    }

    /// At the byte before a number of the header, if it has one more.
    fn next_field(self, next: Option<Field>, byte: u8) -> After
        ensures { result ≡ next_field self next byte }
    {
        match next {
            Some(field) if byte == b' ' => After::Next(self.moved(Place::Head(field, None))),
            Some(_) | None => After::Stops(AigerKind::Malformed),
        }
    }

    // ---- lines of numbers

    fn in_line(self, line: Line, digits: Digits, byte: u8) -> After
        ensures { result ≡ in_line self line digits byte }
    {
        match digits {
            Digits::More(value) => After::Next(self.moved(Place::Line(line, Some(value)))),
            Digits::Missing => After::Stops(AigerKind::Malformed),
            Digits::Whole(value) => self.line_lit(line, self.header.lit(value), byte),
        }
    }

    /// At the byte after the first number of a line, which is this literal.
    fn line_lit(self, line: Line, lit: Result<Lit, AigerKind>, byte: u8) -> After
        ensures { result ≡ line_lit self line lit byte }
    {
        match lit {
            Ok(lit) => self.lit_read(line, lit, byte),
            Err(kind) => After::Stops(kind),
        }
    }

    fn lit_read(self, line: Line, lit: Lit, byte: u8) -> After
        ensures { result ≡ lit_read self line lit byte }
    {
        match line {
            Line::Latch(variable) if byte == b' ' => {
                After::Next(self.moved(Place::Reset(variable, lit.code() as u64, None)))
            }
            _ if byte != b'\n' => After::Stops(AigerKind::Malformed),
            Line::Latch(variable) => self.latch_read(self.header.var(variable), lit, 0),
            Line::Output => self.item_read(Item::OfOutput(lit)),
            Line::Bad => self.item_read(Item::OfBad(lit)),
            Line::Constraint => self.item_read(Item::OfConstraint(lit)),
        }
    }

    fn in_reset(self, variable: u64, next: u64, digits: Digits, byte: u8) -> After
        ensures { result ≡ in_reset self variable next digits byte }
    {
        match digits {
            Digits::More(value) => {
                After::Next(self.moved(Place::Reset(variable, next, Some(value))))
            }
            Digits::Missing => After::Stops(AigerKind::Malformed),
            Digits::Whole(_) if byte != b'\n' => After::Stops(AigerKind::Malformed),
            Digits::Whole(value) => self.reset_read(variable, self.header.lit(next), value),
        }
    }

    /// After the reset of the latch of this variable.
    fn reset_read(self, variable: u64, next: Result<Lit, AigerKind>, reset: u64) -> After
        ensures { result ≡ reset_read self variable next reset }
    {
        match next {
            Ok(next) => self.latch_read(self.header.var(variable), next, reset),
            Err(kind) => After::Stops(kind),
        }
    }

    /// After the line of a latch.
    fn latch_read(self, output: Result<Lit, AigerKind>, next: Lit, reset: u64) -> After
        ensures { result ≡ latch_read self output next reset }
    {
        match output {
            Ok(output) => self.latch_said(output, next, reset_said(output, reset)),
            Err(kind) => After::Stops(kind),
        }
    }

    /// After the line of a latch with this first value.
    fn latch_said(self, output: Lit, next: Lit, reset: Result<Option<bool>, AigerKind>) -> After
        ensures { result ≡ latch_said self output next reset }
    {
        match reset {
            Ok(reset) => self.item_read(Item::OfLatch(Latch {
                output,
                next,
                reset,
            })),
            Err(kind) => After::Stops(kind),
        }
    }

    /// After a line.
    pub(crate) fn item_read(self, item: Item) -> After
        ensures { result ≡ item_read self item }
    {
        After::Gives(item, self.next_line().next_item())
    }

    // ---- gates

    #[inline(always)]
    fn in_left(self, variable: u64, number: Number) -> After
        ensures { result ≡ in_left self variable number }
    {
        match number {
            Number::Partial(value, weight) => {
                After::Next(self.moved(Place::Left(variable, value, weight)))
            }
            Number::TooLong => After::Stops(AigerKind::NumberTooLarge),
            Number::Whole(less) => self.left_read(variable, self.header.var(variable), less),
        }
    }

    /// After the number by which a gate's first literal is less than its own.
    #[inline(always)]
    fn left_read(self, variable: u64, output: Result<Lit, AigerKind>, less: u64) -> After
        ensures { result ≡ left_read self variable output less }
    {
        match output {
            Ok(output) => self.left_said(variable, lit_less(output, less), less),
            Err(kind) => After::Stops(kind),
        }
    }

    #[inline(always)]
    fn left_said(self, variable: u64, left: Option<Lit>, less: u64) -> After
        ensures { result ≡ left_said self variable left less }
    {
        match left {
            Some(left) if less > 0 => {
                After::Next(self.moved(Place::Right(variable, left.code() as u64, 0, 1)))
            }
            Some(_) | None => After::Stops(AigerKind::GateOrder),
        }
    }

    #[inline(always)]
    fn in_right(self, variable: u64, left: u64, number: Number) -> After
        ensures { result ≡ in_right self variable left number }
    {
        match number {
            Number::Partial(value, weight) => {
                After::Next(self.moved(Place::Right(variable, left, value, weight)))
            }
            Number::TooLong => After::Stops(AigerKind::NumberTooLarge),
            Number::Whole(less) => self.right_read(variable, self.header.lit(left), less),
        }
    }

    /// After the number by which a gate's second literal is less than its first one.
    #[inline(always)]
    fn right_read(self, variable: u64, left: Result<Lit, AigerKind>, less: u64) -> After
        ensures { result ≡ right_read self variable left less }
    {
        match left {
            Ok(left) => self.gate_read(self.header.var(variable), left, lit_less(left, less)),
            Err(kind) => After::Stops(kind),
        }
    }

    /// After a gate.
    #[inline(always)]
    fn gate_read(self, output: Result<Lit, AigerKind>, left: Lit, right: Option<Lit>) -> After
        ensures { result ≡ gate_read self output left right }
    {
        match output {
            Ok(output) => self.gate_said(output, left, right),
            Err(kind) => After::Stops(kind),
        }
    }

    #[inline(always)]
    fn gate_said(self, output: Lit, left: Lit, right: Option<Lit>) -> After
        ensures { result ≡ gate_said self output left right }
    {
        match right {
            Some(right) => {
                let gate = Gate {
                    output,
                    left,
                    right,
                };
                After::Gives(Item::OfGate(gate), self.next_item())
            }
            None => After::Stops(AigerKind::GateOrder),
        }
    }

    // ---- symbols and the comment

    fn line_start(self, byte: u8) -> After
        ensures { result ≡ line_start self byte }
    {
        if byte == b'c' {
            After::Next(self.moved(Place::AfterC))
        } else {
            self.symbol_start(self.header.symbols(byte))
        }
    }

    /// After the letter of a symbol, of which there may be this many.
    fn symbol_start(self, count: Option<u32>) -> After
        ensures { result ≡ symbol_start self count }
    {
        match count {
            Some(count) => After::Next(self.moved(Place::Position(count, None))),
            None => After::Stops(AigerKind::Malformed),
        }
    }

    /// After a `c`, which begins the comment or the symbol of a constraint.
    fn after_c(self, byte: u8) -> After
        ensures { result ≡ after_c self byte }
    {
        if byte == b'\n' {
            After::Next(self.next_line().moved(Place::Comment))
        } else {
            let count = self.header.constraints;
            self.in_position(count, digits_after(None, byte), byte)
        }
    }

    fn in_position(self, count: u32, digits: Digits, byte: u8) -> After
        ensures { result ≡ in_position self count digits byte }
    {
        match digits {
            Digits::More(value) => After::Next(self.moved(Place::Position(count, Some(value)))),
            Digits::Missing => After::Stops(AigerKind::Malformed),
            Digits::Whole(_) if byte != b' ' => After::Stops(AigerKind::Malformed),
            Digits::Whole(value) if value < count as u64 => After::Next(self.moved(Place::Name)),
            Digits::Whole(_) => After::Stops(AigerKind::SymbolOutOfRange),
        }
    }

    fn in_name(self, byte: u8) -> After
        ensures { result ≡ in_name self byte }
    {
        if byte == b'\n' {
            After::Next(self.next_line().moved(Place::LineStart))
        } else {
            After::Next(self)
        }
    }
}

/// The first word of a text, with the space after it.
fn first_word() -> &'static [u8]
    ensures { result.now ≡ first_word }
{
    b"aig "
}

/// The literal whose code is this much less, if there is one.
#[inline(always)]
fn lit_less(lit: Lit, less: u64) -> Option<Lit>
    ensures { result ≡ lit_less lit less }
{
    let code = lit.code() as u64;
    if less <= code {
        Lit::from_code((code - less) as usize)
    } else {
        None
    }
}

/// What a reset says of the latch of this literal.
fn reset_said(output: Lit, reset: u64) -> Result<Option<bool>, AigerKind>
    ensures { result ≡ reset_said output reset }
{
    match reset {
        0 => Ok(Some(false)),
        1 => Ok(Some(true)),
        _ if reset == output.code() as u64 => Ok(None),
        _ => Err(AigerKind::WrongReset),
    }
}
