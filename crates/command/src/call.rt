//! The words of a call, as `About` says them.
ghost use Rattle.std.specs.Prelude.{◌≡◌, MatchResult, map, option_map, string_bytes};
ghost use Rattle.std.specs.Vec.Iter.{into_iter_items};
ghost use Rattle.command.specs.Calls.{IsOrNoMemory, IsSaid, after, at_end, choice_of, choices_of, given, is_given, is_one_flag, meant, names_of, operands_of, option_of, said_by, state_of, value_given, with_choice, with_operand, with_option};

use crate::about::{Entry, HELP, VERSION, cut_at};
use std::alloc::Global;
use std::env::Args;
use thiserror::Error;

/// The options and operands of a call, in their order.
#[derive(Drop)]
pub struct Call<'a> {
    pub operands: Vec<String>,
    pub settings: Vec<Setting<'a>>,
}

/// An option of a call, and its value, if it takes one.
#[derive(Drop)]
pub struct Setting<'a> {
    pub flag: &'a str,
    pub value: Option<String>,
}

/// Why the words of a call can't be read, and which one it is.
#[derive(Debug, Drop, Error)]
pub enum Misuse<'a> {
    #[error("there is no option {0}")]
    UnknownOption(String),
    #[error("{0} given twice")]
    GivenTwice(&'a str),
    #[error("{0} needs a value")]
    NoValue(&'a str),
    #[error("{0} takes no value")]
    NeedlessValue(&'a str),
    #[error("unexpected argument: {0}")]
    NeedlessOperand(String),
    #[error("out of memory")]
    OutOfMemory,
}

impl<'a> Call<'a> {
    /// Returns whether the call has an option.
    pub fn has(&self, flag: &str) -> bool
        ensures { result ≡ is_given (choices_of self.now) flag.now }
    {
        self.setting(flag).is_some()
    }

    /// Returns the value of an option, or `None` if the call does not have it or it takes none.
    pub fn value(&self, flag: &str) -> Option<&str>
        ensures { option_map (λ value. value.now) result
            ≡ value_given (choices_of self.now) flag.now }
    {
        match &self.setting(flag)?.value {
            Some(value) => Some(value.as_str()),
            None => None,
        }
    }

    /// Returns what the value of an option means, by the words that it may be; `Some(None)` without
    /// a value, and `None` if it is another word.
    pub fn choice<T: Copy>(&self, flag: &str, words: &[(&str, T)]) -> Option<Option<T>>
        ensures { result ≡ meant (λ word. word.now) words.now
            (value_given (choices_of self.now) flag.now) }
    {
        let Some(value) = self.value(flag) else {
            return Some(None);
        };
        for (word, meaning) in words {
            if *word == value {
                return Some(Some(*meaning));
            }
        }
        None
    }

    /// Returns whether the call is one option without a value.
    pub fn is_one_word(&self) -> bool
        ensures { result ≡ is_one_flag (operands_of self.now) (choices_of self.now) }
    {
        self.operands.is_empty() && self.settings.len() == 1
    }

    fn setting(&self, flag: &str) -> Option<&Setting<'a>>
        ensures { option_map (λ setting. choice_of setting.now) result
            ≡ given (choices_of self.now) flag.now }
    {
        for setting in &self.settings {
            if setting.flag == flag {
                return Some(setting);
            }
        }
        None
    }
}

/// What the next word may be.
#[derive(Clone, Copy)]
enum Awaited<'a> {
    /// An option or an operand.
    Any,
    /// The value of this option.
    Value(&'a str),
    /// An operand, as all words after `--` are.
    Operand,
}

/// The part of a call that was read.
#[derive(Drop)]
struct Reading<'a> {
    options: &'a [Entry<'a>],
    awaited: Awaited<'a>,
    call: Call<'a>,
}

/// Returns the call that the words after a program's name make: options, those with a value as
/// `--flag VALUE` or `--flag=VALUE`, and up to `most` operands, in any order. All words after `--`
/// are operands, and so is `-`. `-h` and `-V` are `--help` and `--version`.
///
/// # Errors
///
/// The first word that is wrong, and why; or `OutOfMemory`.
#[tactic(auto, unfolding(crate::specs::Calls::said_after))]
pub fn read_words<'a>(
    alloc: Global,
    options: &'a [Entry<'a>],
    most: usize,
    words: Args,
) -> Result<Call<'a>, Misuse<'a>>
    ensures { let said = said_by (names_of options.now) most
        (map string_bytes (into_iter_items words)) in
        MatchResult result (IsSaid said) (IsOrNoMemory said) }
{
    let mut reading = Reading {
        options,
        awaited: Awaited::Any,
        call: Call {
            operands: Vec::new(alloc),
            settings: Vec::new(alloc),
        },
    };
    for word in words {
        reading.add(alloc, most, word)?;
    }
    reading.finish()
}

impl<'a> Reading<'a> {
    /// Returns the call, after its last word.
    fn finish(self) -> Result<Call<'a>, Misuse<'a>>
        ensures { let said = at_end (state_of self.entry) (state_of self.entry).next in
            MatchResult result (IsSaid said) (IsOrNoMemory said) }
    {
        match self.awaited {
            Awaited::Value(flag) => Err(Misuse::NoValue(flag)),
            Awaited::Any | Awaited::Operand => Ok(self.call),
        }
    }

    /// Takes the next word.
    fn add(&mut self, alloc: Global, most: usize, word: String) -> Result<(), Misuse<'a>>
        ensures said { let said = after (names_of self.old.options.now) most (state_of self.old)
            (state_of self.old).next (string_bytes word) in
            MatchResult result (λ _. said ≡ Ok (state_of self.new)) (IsOrNoMemory said) }
        ensures options { self.new.options ≡ self.old.options }
    {
        match self.awaited {
            Awaited::Any => {}
            Awaited::Value(flag) => {
                self.awaited = Awaited::Any;
                return self.set(flag, Some(word));
            }
            Awaited::Operand => return self.add_operand(most, word),
        }
        if word.as_str() == "--" {
            self.awaited = Awaited::Operand;
            return Ok(());
        }
        if word.as_str().starts_with('-') && word.as_str() != "-" {
            return self.add_option(alloc, word);
        }
        self.add_operand(most, word)
    }

    /// Takes an operand; `most` are allowed.
    fn add_operand(&mut self, most: usize, word: String) -> Result<(), Misuse<'a>>
        ensures said { let said = with_operand most (state_of self.old) (string_bytes word) in
            MatchResult result (λ _. said ≡ Ok (state_of self.new)) (IsOrNoMemory said) }
        ensures options { self.new.options ≡ self.old.options }
    {
        if self.call.operands.len() >= most {
            return Err(Misuse::NeedlessOperand(word));
        }
        match self.call.operands.push(word) {
            Ok(()) => Ok(()),
            Err(_) => Err(Misuse::OutOfMemory),
        }
    }

    /// Takes an option, perhaps with its value.
    fn add_option(&mut self, alloc: Global, word: String) -> Result<(), Misuse<'a>>
        ensures said { let said = with_option (names_of self.old.options.now) (state_of self.old)
            (string_bytes word) in
            MatchResult result (λ _. said ≡ Ok (state_of self.new)) (IsOrNoMemory said) }
        ensures options { self.new.options ≡ self.old.options }
    {
        let (spelled, value) = cut_at(word.as_str(), '=');
        let Some(option) = find_option(self.options, spelled) else {
            return Err(Misuse::UnknownOption(word));
        };
        let flag = option.flag();
        if self.call.has(flag) {
            return Err(Misuse::GivenTwice(flag));
        }
        match value {
            None if option.has_value() => {
                self.awaited = Awaited::Value(flag);
                Ok(())
            }
            None => self.set(flag, None),
            Some(value) if option.has_value() => match String::from_str(alloc, value) {
                Ok(value) => self.set(flag, Some(value)),
                Err(_) => Err(Misuse::OutOfMemory),
            },
            Some(_) => Err(Misuse::NeedlessValue(flag)),
        }
    }

    /// Adds an option with its value to the call.
    fn set(&mut self, flag: &'a str, value: Option<String>) -> Result<(), Misuse<'a>>
        ensures said { let said = with_choice (state_of self.old) flag.now
            (option_map string_bytes value) in
            MatchResult result (λ _. state_of self.new ≡ said) (λ misuse. misuse ≡ Misuse.OutOfMemory) }
        ensures options { self.new.options ≡ self.old.options }
    {
        match self.call.settings.push(Setting { flag, value }) {
            Ok(()) => Ok(()),
            Err(_) => Err(Misuse::OutOfMemory),
        }
    }
}

/// Returns the option of this flag: one of all programs, or one of these.
fn find_option<'a>(options: &[Entry<'a>], flag: &str) -> Option<Entry<'a>>
    ensures { option_map (λ option. option.name.now) result
        ≡ option_of (names_of options.now) flag.now }
{
    if flag == "-h" || flag == "--help" {
        return Some(HELP);
    }
    if flag == "-V" || flag == "--version" {
        return Some(VERSION);
    }
    for option in options {
        if option.flag() == flag {
            return Some(*option);
        }
    }
    None
}
