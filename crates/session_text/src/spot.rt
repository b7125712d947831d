//! Where the reading of a text is.
ghost use Rattle.std.specs.Prelude.{◌≡◌};
ghost use Rattle.session_text.specs.automaton.Places.{at_end, between_lines, ends, form_at_start, in_lines, is_binary, is_untold, moved, next_line, start, told, unended, within};

use crate::fault::TextKind;
use crate::format::{Form, Format};
use crate::line::{Item, LineKind, Status};

/// What is due next in a line of this kind.
#[derive(Clone, Copy)]
pub(crate) enum Due {
    /// The id of its clause.
    Id(LineKind),
    /// A literal, or the 0 after the last.
    Lit(LineKind),
    /// An id, or the 0 after the last.
    Hint(LineKind),
    /// How many cores follow.
    Count,
}

/// A place in a line.
#[derive(Clone, Copy)]
pub(crate) enum Place {
    /// Before its first byte that is no blank.
    LineStart,
    Comment,
    /// In the header, of which this many bytes were read.
    Header(usize),
    /// After the letter of a line.
    Letter(Due),
    /// Between numbers.
    Between(Due),
    /// After a `-`.
    Sign(Due),
    /// In digits of this value, after a `-` or not.
    Digits(Due, bool, u64),
    /// In a binary number, after groups of this value, before one of this weight.
    Group(Due, u64, u64),
    AfterS,
    BeforeWord,
    /// In a status, of which this many bytes were read. `UN` counts as of `UNSATISFIABLE`.
    Word(Status, usize),
    /// After all that a line of this kind has, or after the header.
    Done(Option<LineKind>),
}

/// Where the reading of a text is.
#[derive(Clone, Copy)]
pub(crate) struct Spot {
    pub(crate) format: Format,
    pub(crate) form: Form,
    /// The number of the line; it stays at `u64::MAX`.
    pub(crate) line: u64,
    /// Whether the header was read, or a line of a text without one.
    pub(crate) headed: bool,
    pub(crate) place: Place,
}

/// What a byte does.
#[derive(Clone, Copy)]
pub(crate) enum After {
    Goes(Spot),
    /// A number was read.
    Gives(Item, Spot),
    /// A line was read.
    Ends(LineKind, Spot),
    Stops(TextKind),
}

impl Spot {
    /// Returns the start of a text.
    pub(crate) fn start(format: Format) -> Spot
        ensures { result ≡ start format }
    {
        Spot {
            format,
            form: form_at_start(format),
            line: 1,
            headed: false,
            place: Place::LineStart,
        }
    }

    #[inline(always)]
    pub(crate) fn moved(self, place: Place) -> Spot
        ensures { result ≡ moved self place }
    {
        Spot { place, ..self }
    }

    /// Returns this place where lines are written so.
    #[inline(always)]
    pub(crate) fn told(self, form: Form) -> Spot
        ensures { result ≡ told self form }
    {
        Spot { form, ..self }
    }

    #[inline(always)]
    pub(crate) fn is_binary(self) -> bool
        ensures { result ≡ is_binary self }
    {
        matches!(self.form, Form::Binary)
    }

    pub(crate) fn is_untold(self) -> bool
        ensures { result ≡ is_untold self }
    {
        matches!(self.form, Form::Untold)
    }

    /// Returns this place behind the header, or in a text without one.
    pub(crate) fn in_lines(self) -> Spot
        ensures { result ≡ in_lines self }
    {
        Spot {
            headed: true,
            ..self
        }
    }

    /// Returns the start of the next line.
    pub(crate) fn next_line(self) -> Spot
        ensures { result ≡ next_line self }
    {
        Spot {
            line: self.line.saturating_add(1),
            place: Place::LineStart,
            ..self
        }
    }

    /// Returns what the LF after a line of this kind does, or after the header.
    pub(crate) fn ends(self, kind: Option<LineKind>) -> After
        ensures { result ≡ ends self kind }
    {
        match kind {
            Some(kind) => After::Ends(kind, self.next_line()),
            None => After::Goes(self.next_line().in_lines()),
        }
    }

    /// Returns what is wrong with a text that ends here, if something is.
    pub(crate) fn at_end(self) -> Option<TextKind>
        ensures { result ≡ at_end self }
    {
        match self.place {
            Place::LineStart | Place::Comment => self.between_lines(),
            _ => Some(self.within()),
        }
    }

    /// Returns what is wrong with a text that ends where no line is open, if something is.
    fn between_lines(self) -> Option<TextKind>
        ensures { result ≡ between_lines self }
    {
        if self.headed {
            None
        } else {
            Some(TextKind::NoHeader)
        }
    }

    /// Returns what is wrong with a text that ends within a line: the fault that an LF would have
    /// shown, if there is one.
    fn within(self) -> TextKind
        ensures { result ≡ within self }
    {
        if self.is_binary() {
            return TextKind::Unfinished;
        }
        match self.after(b'\n') {
            After::Stops(kind) => kind,
            _ => TextKind::Unfinished,
        }
    }
}

/// Returns how the lines of a text are written, as far as its format says.
fn form_at_start(format: Format) -> Form
    ensures { result ≡ form_at_start format }
{
    match format {
        Format::Icnf => Form::Text,
        Format::Lidrup => Form::Untold,
    }
}
