//! The operands of a call, and what is said of a call that can't be run.
ghost use Rattle.std.specs.Prelude.{◌≡◌, ◌∷◌, Some, [], IfErr, IfOk, IsOk, codes, length};
ghost use Rattle.command.specs.Calls.{choices_of, meant, operands_of, value_given};
ghost use Rattle.verdicts.specs.declared.status.Refusal.TheVariants.{NotRun};

use crate::about::{About, Entry};
use crate::call::Call;
use crate::places::InputNames;
use std::env::{Env, FillError};
use std::fmt::Display;
use std::io::Eprint;
use std::str;
use verdicts::Refusal;

/// How many bytes of a word are read if it is not UTF-8.
const WORD_LENGTH: usize = 4096;

/// Prints to standard error why a call can't be run, and the usage. Returns `NotRun`.
pub fn misused<R: Eprint, D: Display + Drop>(rt: &R, about: &About<'_>, why: D) -> Refusal
    ensures { result ≡ NotRun }
{
    let (call, program) = (about.call, about.program());
    let _ = eprintln!(rt; "{why}");
    let _ = eprintln!(rt; "usage: {call}");
    let _ = eprintln!(rt; "{program} --help says more");
    Refusal::NotRun
}

/// Prints to standard error which file is missing of a call that names `count`, and the usage.
/// Returns `NotRun`.
pub fn unnamed<R: Eprint>(rt: &R, about: &About<'_>, count: usize) -> Refusal
    ensures { result ≡ NotRun }
{
    match about.operands.get(count) {
        Some(operand) => {
            let name = operand.name;
            misused(rt, about, format_args!("no file is named for {name}"))
        }
        None => misused(rt, about, "unexpected argument"),
    }
}

/// Returns the names of the two files of a call.
///
/// # Errors
///
/// `NotRun` if the call names one file or none; standard error has the missing one.
pub fn input_names<'c, R: Eprint>(
    rt: &R,
    about: &About<'_>,
    call: &'c Call<'_>,
) -> Result<InputNames<'c>, Refusal>
    ensures err { IfErr result (λ refusal. refusal ≡ NotRun) }
    ensures ok { IfOk result (λ names.
        operands_of call.now ≡ names.cnf.now ∷ names.other.now ∷ []) }
    ensures two { length (operands_of call.now) ≡ 2 → IsOk result }
{
    match call.operands.as_slice() {
        [cnf, other] => Ok(InputNames {
            cnf: cnf.as_str(),
            other: other.as_str(),
        }),
        operands => Err(unnamed(rt, about, operands.len())),
    }
}

/// The option for the encoding of ids in binary LRAT.
pub const IDS: Entry<'static> = Entry {
    name: "--ids WAY",
    text: "encoding of ids in a binary proof, plain or doubled (default: detected)",
};

/// Returns the encoding of ids in binary lines that `--ids` names, or `None` without `--ids`.
///
/// # Errors
///
/// `NotRun` if the value is another word.
pub fn ids_of<R: Eprint, T: Copy>(
    rt: &R,
    about: &About<'_>,
    call: &Call<'_>,
    plain: T,
    doubled: T,
) -> Result<Option<T>, Refusal>
    ensures err { IfErr result (λ refusal. refusal ≡ NotRun) }
    ensures ok { IfOk result (λ ids. Some ids ≡ meant (λ word. word)
        ((codes "plain", plain) ∷ (codes "doubled", doubled) ∷ [])
        (value_given (choices_of call.now) (codes "--ids"))) }
{
    match call.value("--ids") {
        None => Ok(None),
        Some("plain") => Ok(Some(plain)),
        Some("doubled") => Ok(Some(doubled)),
        Some(_) => Err(misused(rt, about, "--ids takes plain or doubled")),
    }
}

/// Prints to standard error each word of the call that is not UTF-8.
pub(crate) fn say_unreadable<R: Env + Eprint>(rt: &R) {
    let mut word = [0; WORD_LENGTH];
    for place in 1..usize::MAX {
        match rt.arg(place, &mut word) {
            Ok(count) => say_no_text(rt, place, &word[..count]),
            Err(FillError::TooLong) => {}
            Err(FillError::NotPresent) => return,
        }
    }
}

fn say_no_text<R: Eprint>(rt: &R, place: usize, word: &[u8]) {
    if str::from_utf8(word).is_err() {
        let word = word.escape_ascii();
        let _ = eprintln!(rt; "word {place} of the call is not UTF-8: {word}");
    }
}
