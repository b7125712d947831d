//! The state of the parser of answers, and what a byte does in it.
ghost use Rattle.std.specs.Prelude.{◌≡◌, ◌≤◌, length};
ghost use Rattle.answer_text.specs.automaton.Places.{after, before_word, between, first_digit, in_digits, in_word, is_spelled, line_start, moved, next_line, number_read, passed, satisfiable_read, start, status_read, text_start, turns, word_of};

use crate::fault::AnswerKind;
use crate::number::lit_said;
use sat_formula::Lit;
use sat_formula::bytes::{ends_word, is_blank, is_digit, value_after};

/// What a status line says of the formula.
#[derive(Clone, Copy)]
pub(crate) enum Status {
    Satisfiable,
    Unsatisfiable,
    Unknown,
    /// `SAT`, as the first line.
    Sat,
    /// `UNSAT`, as the first line.
    Unsat,
}

/// A position in a line.
#[derive(Clone, Copy)]
pub(crate) enum Place {
    LineStart,
    Comment,
    AfterS,
    BeforeWord,
    /// This many bytes of a status' word were read. `UN` counts as of `UNSATISFIABLE`.
    Word(Status, usize),
    AfterV,
    /// Between numbers.
    Between,
    /// After a `-`.
    Sign,
    /// In digits of this value, after a `-` or not.
    Digits(bool, u64),
}

/// The state of the parser.
#[derive(Clone, Copy)]
pub(crate) struct Spot {
    /// Its number; it stays at `u64::MAX`.
    pub(crate) line: u64,
    pub(crate) place: Place,
    /// The 0 that ends the literals was read.
    pub(crate) listed: bool,
    /// `s SATISFIABLE` was read.
    pub(crate) told: bool,
    /// A line began with `v`.
    pub(crate) marked: bool,
}

/// What a byte does.
#[derive(Clone, Copy)]
pub(crate) enum After {
    Goes(Spot),
    /// A literal was read.
    Gives(Lit, Spot),
    Stops(AnswerKind),
}

impl Status {
    fn word(self) -> &'static [u8]
        ensures { result.now ≡ word_of self }
    {
        match self {
            Status::Satisfiable => b"SATISFIABLE",
            Status::Unsatisfiable => b"UNSATISFIABLE",
            Status::Unknown => b"UNKNOWN",
            Status::Sat => b"SAT",
            Status::Unsat => b"UNSAT",
        }
    }
}

impl Spot {
    /// Returns the start of a text.
    pub(crate) fn start() -> Spot
        ensures { result ≡ start }
    {
        Spot {
            line: 1,
            place: Place::LineStart,
            listed: false,
            told: false,
            marked: false,
        }
    }

    /// Returns what the next byte does: the state after it, a literal that it ends, or a fault.
    #[inline(always)]
    #[tactic(auto, unfolding(crate::specs::automaton::Places::after))]
    pub(crate) fn after(self, byte: u8) -> After
        ensures { result ≡ after self byte }
    {
        match self.place {
            Place::LineStart => self.line_start(byte),
            Place::Comment if byte == b'\n' => After::Goes(self.next_line()),
            Place::Comment => After::Goes(self),
            Place::AfterS if is_blank(byte) => After::Goes(self.moved(Place::BeforeWord)),
            Place::AfterV if ends_word(byte) => After::Goes(self.passed(byte)),
            Place::AfterS | Place::AfterV => After::Stops(AnswerKind::Malformed),
            Place::BeforeWord => self.before_word(byte),
            Place::Word(status, read) => self.in_word(status, read, byte),
            Place::Between => self.between(byte),
            Place::Sign => self.first_digit(true, byte),
            Place::Digits(negative, value) => self.in_digits(negative, value, byte),
        }
    }

    #[inline(always)]
    fn moved(self, place: Place) -> Spot
        ensures { result ≡ moved self place }
    {
        Spot { place, ..self }
    }

    fn next_line(self) -> Spot
        ensures { result ≡ next_line self }
    {
        Spot {
            line: self.line.saturating_add(1),
            place: Place::LineStart,
            ..self
        }
    }

    /// Returns the state after a blank or an LF that ends a word.
    fn passed(self, byte: u8) -> Spot
        ensures { result ≡ passed self byte }
    {
        if byte == b'\n' {
            self.next_line()
        } else {
            self.moved(Place::Between)
        }
    }

    fn line_start(self, byte: u8) -> After
        ensures { result ≡ line_start self byte }
    {
        match byte {
            b'c' => After::Goes(self.moved(Place::Comment)),
            b's' => After::Goes(self.moved(Place::AfterS)),
            b'v' => After::Goes(Spot {
                place: Place::AfterV,
                marked: true,
                ..self
            }),
            _ => self.text_start(byte),
        }
    }

    /// At a byte that begins no other line.
    fn text_start(self, byte: u8) -> After
        ensures { result ≡ text_start self byte }
    {
        if self.line == 1 && byte == b'S' {
            After::Goes(self.moved(Place::Word(Status::Sat, 1)))
        } else if self.line == 1 && byte == b'U' {
            After::Goes(self.moved(Place::Word(Status::Unsat, 1)))
        } else {
            self.between(byte)
        }
    }

    fn before_word(self, byte: u8) -> After
        ensures { result ≡ before_word self byte }
    {
        if is_blank(byte) {
            After::Goes(self.moved(Place::BeforeWord))
        } else if byte == b'S' {
            After::Goes(self.moved(Place::Word(Status::Satisfiable, 1)))
        } else if byte == b'U' {
            After::Goes(self.moved(Place::Word(Status::Unsatisfiable, 1)))
        } else {
            After::Stops(AnswerKind::Malformed)
        }
    }

    /// In a status' word, or after it.
    fn in_word(self, status: Status, read: usize, byte: u8) -> After
        ensures { result ≡ in_word self status read byte }
    {
        if is_spelled(status, read, byte) {
            After::Goes(self.moved(Place::Word(status, read + 1)))
        } else if turns(status, read, byte) {
            After::Goes(self.moved(Place::Word(Status::Unknown, 3)))
        } else if ends_word(byte) && read == status.word().len() {
            self.status_read(status, byte)
        } else {
            After::Stops(AnswerKind::Malformed)
        }
    }

    fn status_read(self, status: Status, byte: u8) -> After
        ensures { result ≡ status_read self status byte }
    {
        match status {
            Status::Satisfiable | Status::Sat => self.satisfiable_read(byte),
            Status::Unsatisfiable | Status::Unsat => After::Stops(AnswerKind::Unsatisfiable),
            Status::Unknown => After::Stops(AnswerKind::Unknown),
        }
    }

    fn satisfiable_read(self, byte: u8) -> After
        ensures { result ≡ satisfiable_read self byte }
    {
        if self.told {
            After::Stops(AnswerKind::SecondStatus)
        } else if byte == b'\n' {
            let told = Spot { told: true, ..self };
            After::Goes(told.next_line())
        } else {
            After::Goes(self)
        }
    }

    fn between(self, byte: u8) -> After
        ensures { result ≡ between self byte }
    {
        if ends_word(byte) {
            After::Goes(self.passed(byte))
        } else if byte == b'-' {
            After::Goes(self.moved(Place::Sign))
        } else {
            self.first_digit(false, byte)
        }
    }

    fn first_digit(self, negative: bool, byte: u8) -> After
        ensures { result ≡ first_digit self negative byte }
    {
        if is_digit(byte) {
            After::Goes(self.moved(Place::Digits(negative, (byte - b'0') as u64)))
        } else {
            After::Stops(AnswerKind::Malformed)
        }
    }

    #[inline(always)]
    fn in_digits(self, negative: bool, value: u64, byte: u8) -> After
        ensures { result ≡ in_digits self negative value byte }
    {
        if is_digit(byte) {
            After::Goes(self.moved(Place::Digits(negative, value_after(value, byte))))
        } else if ends_word(byte) {
            self.number_read(lit_said(negative, value), self.passed(byte))
        } else {
            After::Stops(AnswerKind::Malformed)
        }
    }

    /// After a number that says this.
    fn number_read(self, said: Result<Option<Lit>, AnswerKind>, next: Spot) -> After
        ensures { result ≡ number_read self said next }
    {
        match said {
            Err(kind) => After::Stops(kind),
            Ok(_) if self.listed => After::Stops(AnswerKind::AfterEnd),
            Ok(Some(lit)) => After::Gives(lit, next),
            Ok(None) => After::Goes(Spot {
                listed: true,
                ..next
            }),
        }
    }
}

/// Returns whether the byte is the next one of a word, of which this many were read.
fn is_spelled(status: Status, read: usize, byte: u8) -> bool
    ensures { result ≡ is_spelled status read byte }
{
    let word = status.word();
    read < word.len() && word[read] == byte
}

/// Returns whether a word that began as `UNSATISFIABLE` is `UNKNOWN` by this byte.
fn turns(status: Status, read: usize, byte: u8) -> bool
    ensures { result ≡ turns status read byte }
{
    match status {
        Status::Unsatisfiable => read == 2 && byte == b'K',
        Status::Satisfiable | Status::Unknown | Status::Sat | Status::Unsat => false,
    }
}
