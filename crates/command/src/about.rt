//! What a program says of itself.
ghost use Rattle.std.specs.Prelude.{◌≡◌, ◌<◌, option_map};
ghost use Rattle.command.specs.Calls.{before, behind, has_value};

use std::fmt;
use std::fmt::{Display, Formatter};

/// A name, as of an operand, an option or an exit status, with its text in `--help`.
#[derive(Clone, Copy)]
pub struct Entry<'a> {
    pub name: &'a str,
    pub text: &'a str,
}

impl<'a> Entry<'a> {
    /// Returns the flag of an option, without the name of its value.
    pub(crate) fn flag(&self) -> &'a str
        ensures { result.now ≡ before 32 self.now.name.now }
    {
        cut_at(self.name, ' ').0
    }

    /// Returns whether an option takes a value.
    pub(crate) fn has_value(&self) -> bool
        ensures { result ≡ has_value self.now.name.now }
    {
        cut_at(self.name, ' ').1.is_some()
    }
}

/// Returns the text before the first `mark`, an ASCII character, and the text after it, if it
/// occurs.
#[tactic(auto, using(std::proofs::lemmas::Str::Pattern::split_once_first))]
pub(crate) fn cut_at(text: &str, mark: char) -> (&str, Option<&str>)
    requires { mark < 128 }
    ensures before { result.0.now ≡ before mark text.now }
    ensures behind { option_map (λ rest. rest.now) result.1 ≡ behind mark text.now }
{
    match text.split_once(mark) {
        Some((front, rest)) => (front, Some(rest)),
        None => (text, None),
    }
}

/// The text of a program's `--help`, by which the words of its call are read, too. Its man page and
/// its completions are made from it.
#[derive(Clone, Copy)]
pub struct About<'a> {
    /// Its name, and the arguments that may follow.
    pub call: &'a str,
    /// What it does, as a sentence.
    pub does: &'a str,
    /// The files that it reads and writes, in their order.
    pub operands: &'a [Entry<'a>],
    /// Its options, except `--help` and `--version`.
    pub options: &'a [Entry<'a>],
    /// What the exit status 0 means.
    pub verified: &'a str,
    /// What the exit status 3 means.
    pub open: &'a str,
    /// The environment variables that it reads.
    pub environment: &'a [Entry<'a>],
    /// Calls, each with what it does.
    pub examples: &'a [Entry<'a>],
}

pub(crate) const HELP: Entry<'static> = Entry {
    name: "--help",
    text: "show this help",
};

pub(crate) const VERSION: Entry<'static> = Entry {
    name: "--version",
    text: "show the version",
};

/// The operand of a program that reads a formula.
pub const CNF: Entry<'static> = Entry {
    name: "CNF",
    text: "the formula, DIMACS text; - is standard input",
};

/// The options of all programs.
const COMMON_OPTIONS: [Entry<'static>; 2] = [HELP, VERSION];

const FAILED_STATUS: Entry<'static> = Entry {
    name: "1",
    text: "no verdict: a file is malformed or rejected, or a read, a write or an allocation \
        failed; the reason is on standard error",
};

const NOT_RUN_STATUS: Entry<'static> = Entry {
    name: "2",
    text: "wrong arguments, or a file that can't be opened",
};

impl Display for Entry<'_> {
    fn fmt<F: fmt::Write>(&self, f: &mut Formatter<F>) -> fmt::Result {
        let (name, text) = (self.name, self.text);
        write!(f, "  {name:<12}  {text}\n")
    }
}

impl Display for About<'_> {
    fn fmt<F: fmt::Write>(&self, f: &mut Formatter<F>) -> fmt::Result {
        let (call, does) = (self.call, self.does);
        write!(f, "usage: {call}\n\n{does}\n\noperands:\n")?;
        write_entries(f, self.operands)?;
        write!(f, "\noptions:\n")?;
        write_entries(f, self.options)?;
        write_entries(f, &COMMON_OPTIONS)?;
        write!(f, "\nexit status:\n")?;
        self.write_statuses(f)?;
        if !self.environment.is_empty() {
            write!(f, "\nenvironment:\n")?;
            write_entries(f, self.environment)?;
        }
        write!(f, "\nexamples:\n")?;
        write_examples(f, self.examples)
    }
}

impl<'a> About<'a> {
    /// Returns the program's name.
    pub(crate) fn program(&self) -> &'a str {
        cut_at(self.call, ' ').0
    }

    fn write_statuses<F: fmt::Write>(&self, f: &mut Formatter<F>) -> fmt::Result {
        let verified = Entry {
            name: "0",
            text: self.verified,
        };
        let open = Entry {
            name: "3",
            text: self.open,
        };
        write_entries(f, &[verified, FAILED_STATUS, NOT_RUN_STATUS, open])
    }
}

/// Writes each entry on a line: its name, and its text in a column.
fn write_entries<F: fmt::Write>(f: &mut Formatter<F>, entries: &[Entry<'_>]) -> fmt::Result {
    for entry in entries {
        write!(f, "{entry}")?;
    }
    Ok(())
}

/// Writes each call on a line, below what it does.
fn write_examples<F: fmt::Write>(f: &mut Formatter<F>, examples: &[Entry<'_>]) -> fmt::Result {
    for example in examples {
        let (call, does) = (example.name, example.text);
        write!(f, "  {does}:\n      {call}\n")?;
    }
    Ok(())
}
