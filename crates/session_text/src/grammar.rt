//! The grammar of a session, a byte after the other.
ghost use Rattle.std.specs.Prelude.{◌≡◌};
ghost use Rattle.session_text.specs.Statuses.{is_spelled, turns, word_of};
ghost use Rattle.session_text.specs.automaton.Places.{after, after_letter, after_s, before_word, between, binary_start, done, first_digit, group_read, in_comment, in_digits, in_group, in_header, in_word, last_read, letter_of, letter_place, line_start, number_read, start_of, word_goes};

use crate::fault::TextKind;
use crate::format::Form;
use crate::line::{LineKind, Status};
use crate::number::{LAST_WEIGHT, with_digit, with_group};
use crate::said::{Said, due_after, group_said, header, needs_header, number_said};
use crate::spot::{After, Due, Place, Spot};
use sat_formula::bytes::{ends_word, is_blank, is_digit};

impl Status {
    fn word(self) -> &'static [u8]
        ensures { result.now ≡ word_of self }
    {
        match self {
            Status::Satisfiable => b"SATISFIABLE",
            Status::Unsatisfiable => b"UNSATISFIABLE",
            Status::Unknown => b"UNKNOWN",
        }
    }
}

impl Spot {
    /// Returns what the next byte does.
    #[inline(always)]
    #[tactic(auto, unfolding(crate::specs::automaton::Places::after))]
    pub(crate) fn after(self, byte: u8) -> After
        ensures { result ≡ after self byte }
    {
        match self.place {
            Place::Digits(due, negative, value) => self.in_digits(due, negative, value, byte),
            Place::Group(due, value, weight) => self.in_group(due, value, weight, byte),
            Place::Between(due) => self.between(due, byte),
            Place::Sign(due) => self.first_digit(due, true, byte),
            Place::LineStart => self.line_start(byte),
            Place::Letter(due) => self.after_letter(due, byte),
            Place::Done(kind) => self.done(kind, byte),
            Place::Comment => self.in_comment(byte),
            Place::Header(read) => self.in_header(read, byte),
            Place::AfterS => self.after_s(byte),
            Place::BeforeWord => self.before_word(byte),
            Place::Word(status, read) => self.in_word(status, read, byte),
        }
    }

    // ---- lines

    fn line_start(self, byte: u8) -> After
        ensures { result ≡ line_start self byte }
    {
        if self.is_binary() {
            self.binary_start(byte)
        } else if byte == b'\n' {
            After::Goes(self.next_line())
        } else if is_blank(byte) {
            After::Goes(self)
        } else if byte == b'c' {
            After::Goes(self.moved(Place::Comment))
        } else {
            self.start_of(byte)
        }
    }

    /// The status of a query may have an LF behind it.
    fn binary_start(self, byte: u8) -> After
        ensures { result ≡ binary_start self byte }
    {
        if byte == b'\n' {
            After::Goes(self)
        } else {
            self.start_of(byte)
        }
    }

    /// At the first byte of the header or of a line.
    fn start_of(self, byte: u8) -> After
        ensures { result ≡ start_of self byte }
    {
        if !self.headed && needs_header(self.format, byte) {
            self.in_header(0, byte)
        } else {
            self.in_lines().letter_of(byte)
        }
    }

    /// At the first byte of a line.
    fn letter_of(self, byte: u8) -> After
        ensures { result ≡ letter_of self byte }
    {
        if byte == b's' {
            return After::Goes(self.moved(Place::AfterS));
        }
        match due_after(self.format, byte) {
            Some(due) => After::Goes(self.moved(self.letter_place(due))),
            None => After::Stops(TextKind::Malformed),
        }
    }

    fn in_comment(self, byte: u8) -> After
        ensures { result ≡ in_comment self byte }
    {
        if byte == b'\n' {
            After::Goes(self.next_line())
        } else {
            After::Goes(self)
        }
    }

    /// In the header, of which this many bytes were read, or after it.
    fn in_header(self, read: usize, byte: u8) -> After
        ensures { result ≡ in_header self read byte }
    {
        let word = header(self.format);
        if read < word.len() && word[read] == byte {
            After::Goes(self.moved(Place::Header(read + 1)))
        } else if read == word.len() && ends_word(byte) {
            self.done(None, byte)
        } else {
            After::Stops(TextKind::NoHeader)
        }
    }

    /// Returns the place after the letter of a line.
    fn letter_place(self, due: Due) -> Place
        ensures { result ≡ letter_place self due }
    {
        if self.is_binary() {
            Place::Group(due, 0, 1)
        } else {
            Place::Letter(due)
        }
    }

    /// After the letter. A space after that of the first line tells text from binary.
    fn after_letter(self, due: Due, byte: u8) -> After
        ensures { result ≡ after_letter self due byte }
    {
        if self.is_untold() && byte != b' ' {
            self.told(Form::Binary).in_group(due, 0, 1, byte)
        } else if is_blank(byte) {
            After::Goes(self.moved(Place::Between(due)).told(Form::Text))
        } else {
            After::Stops(TextKind::Malformed)
        }
    }

    /// After all that a line of this kind has, or after the header.
    fn done(self, kind: Option<LineKind>, byte: u8) -> After
        ensures { result ≡ done self kind byte }
    {
        if byte == b'\n' {
            self.ends(kind)
        } else if is_blank(byte) {
            After::Goes(self.moved(Place::Done(kind)))
        } else {
            After::Stops(TextKind::Malformed)
        }
    }

    // ---- statuses

    fn after_s(self, byte: u8) -> After
        ensures { result ≡ after_s self byte }
    {
        if is_blank(byte) {
            After::Goes(self.moved(Place::BeforeWord))
        } else if self.is_binary() {
            self.before_word(byte)
        } else {
            After::Stops(TextKind::Malformed)
        }
    }

    fn before_word(self, byte: u8) -> After
        ensures { result ≡ before_word self byte }
    {
        if is_blank(byte) {
            After::Goes(self)
        } else if byte == b'S' {
            After::Goes(self.moved(Place::Word(Status::Satisfiable, 1)))
        } else if byte == b'U' {
            After::Goes(self.moved(Place::Word(Status::Unsatisfiable, 1)))
        } else {
            After::Stops(TextKind::Malformed)
        }
    }

    /// In a status' word, or after it.
    fn in_word(self, status: Status, read: usize, byte: u8) -> After
        ensures { result ≡ in_word self status read byte }
    {
        if is_spelled(status, read, byte) {
            self.word_goes(status, read + 1)
        } else if turns(status, read, byte) {
            After::Goes(self.moved(Place::Word(Status::Unknown, 3)))
        } else if ends_word(byte) && read == status.word().len() {
            self.done(Some(LineKind::Answer(status)), byte)
        } else {
            After::Stops(TextKind::Malformed)
        }
    }

    /// After this many bytes of a status' word. In binary its last byte ends the line.
    fn word_goes(self, status: Status, read: usize) -> After
        ensures { result ≡ word_goes self status read }
    {
        if self.is_binary() && read == status.word().len() {
            self.ends(Some(LineKind::Answer(status)))
        } else {
            After::Goes(self.moved(Place::Word(status, read)))
        }
    }

    // ---- numbers

    /// In a binary number, after groups of this value, at a byte of this weight.
    #[inline(always)]
    fn in_group(self, due: Due, value: u64, weight: u64, byte: u8) -> After
        ensures { result ≡ in_group self due value weight byte }
    {
        let value = with_group(value, weight, byte);
        if byte < 128 {
            self.group_read(group_said(due, value))
        } else if weight < LAST_WEIGHT {
            After::Goes(self.moved(Place::Group(due, value, weight * 128)))
        } else {
            After::Stops(TextKind::NumberTooLarge)
        }
    }

    /// After a binary number.
    #[inline(always)]
    fn group_read(self, said: Said) -> After
        ensures { result ≡ group_read self said }
    {
        match said {
            Said::Next(item, due) => After::Gives(item, self.moved(Place::Group(due, 0, 1))),
            Said::Turns(due) => After::Goes(self.moved(Place::Group(due, 0, 1))),
            Said::Last(line) => self.ends(Some(line)),
            Said::Wrong(kind) => After::Stops(kind),
        }
    }

    fn between(self, due: Due, byte: u8) -> After
        ensures { result ≡ between self due byte }
    {
        if is_blank(byte) {
            After::Goes(self)
        } else if byte == b'-' {
            After::Goes(self.moved(Place::Sign(due)))
        } else {
            self.first_digit(due, false, byte)
        }
    }

    fn first_digit(self, due: Due, negative: bool, byte: u8) -> After
        ensures { result ≡ first_digit self due negative byte }
    {
        if is_digit(byte) {
            After::Goes(self.moved(Place::Digits(due, negative, (byte - b'0') as u64)))
        } else {
            After::Stops(TextKind::Malformed)
        }
    }

    /// In digits of this value, or after them.
    #[inline(always)]
    fn in_digits(self, due: Due, negative: bool, value: u64, byte: u8) -> After
        ensures { result ≡ in_digits self due negative value byte }
    {
        if is_digit(byte) {
            After::Goes(self.moved(Place::Digits(due, negative, with_digit(value, byte))))
        } else if is_blank(byte) {
            self.number_read(number_said(due, negative, value))
        } else if byte == b'\n' {
            self.last_read(number_said(due, negative, value))
        } else {
            After::Stops(TextKind::Malformed)
        }
    }

    /// After a number and a blank.
    #[inline(always)]
    fn number_read(self, said: Said) -> After
        ensures { result ≡ number_read self said }
    {
        match said {
            Said::Next(item, due) => After::Gives(item, self.moved(Place::Between(due))),
            Said::Turns(due) => After::Goes(self.moved(Place::Between(due))),
            Said::Last(kind) => After::Goes(self.moved(Place::Done(Some(kind)))),
            Said::Wrong(kind) => After::Stops(kind),
        }
    }

    /// After a number and an LF.
    fn last_read(self, said: Said) -> After
        ensures { result ≡ last_read self said }
    {
        match said {
            Said::Last(kind) => self.ends(Some(kind)),
            Said::Wrong(kind) => After::Stops(kind),
            Said::Next(_, _) | Said::Turns(_) => After::Stops(TextKind::Malformed),
        }
    }
}

/// Returns whether the byte is the next one of a word, of which this many were read.
fn is_spelled(status: Status, read: usize, byte: u8) -> bool
    ensures { result ≡ is_spelled status read byte }
{
    let word = status.word();
    read < word.len() && word[read] == byte
}

/// Returns whether a word that began as `UNSATISFIABLE` is `UNKNOWN` by this byte.
fn turns(status: Status, read: usize, byte: u8) -> bool
    ensures { result ≡ turns status read byte }
{
    match status {
        Status::Unsatisfiable => read == 2 && byte == b'K',
        Status::Satisfiable | Status::Unknown => false,
    }
}
