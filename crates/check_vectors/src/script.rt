//! Scripts: calls with their results, and below each call the steps that it delivers.
//!
//! A line is
//!
//! - `new`: what follows is called of a new checker with processors and transcripts;
//! - `bare`: what follows is called of a new checker without any;
//! - `parts ID STEPS`: what follows are calls of [`crate::parts`], over new parts whose next id is
//!   this and that have counted this many steps;
//! - `here`, `again`: what follows `again` is called of a new checker that took the calls up to
//!   `here`;
//! - a call, as in [`crate::calls`], with its answer after ` > ` where it isn't `Ok`;
//! - `processor KINDS`, `transcript KINDS`: registers processors and transcripts of a bare checker:
//!   see [`crate::registered`];
//! - `processors`, `transcripts`: what these show, each with a bar for the end of a line. A
//!   slash stands between two of them, and a dash for nothing;
//! - `+ STEP`, `~ STEP`: the processors or the transcripts of `new` get this step from the call
//!   above; of `given` nothing is said;
//! - `# WORDS`: why the script goes on so.
use crate::calls::make;
use crate::listeners::{Processor, Transcript};
use crate::parts;
use crate::registered::{
    Checker, add_listeners, processors_shown, register, steps_listed, transcript_listed,
    transcripts_shown,
};
use crate::words::first_word;
use std::alloc::Global;
use std::test::Fail;

/// Returns the script, with the results of its calls in place of those that it expects; each read
/// returns this many bytes.
///
/// # Errors
///
/// If a line is no call, or there is no memory.
pub fn played(alloc: Global, script: &str, size: usize) -> Result<String, Fail> {
    let mut seen = String::new(alloc);
    let mut calls = String::new(alloc);
    let mut calls_here = String::new(alloc);
    let mut before = Seen::nothing(alloc);
    for line in script.lines() {
        if line.starts_with('+') || line.starts_with('~') {
            continue;
        }
        if is_no_call(line) {
            writeln!(seen, "{line}")?;
        }
        match first_word(line).0 {
            "here" => calls_here = calls.clone()?,
            "again" => {
                calls = calls_here.clone()?;
                before = Seen::of(alloc, &calls, size)?;
            }
            "new" | "bare" | "parts" => {
                calls.clear();
                before = Seen::nothing(alloc);
            }
            _ => {}
        }
        if !is_no_call(line) {
            let call = call_of(line);
            writeln!(calls, "{call}")?;
            let after = Seen::of(alloc, &calls, size)?;
            after.write_since(call, &before, &mut seen)?;
            before = after;
        }
    }
    Ok(seen)
}

/// Returns whether the line makes no call.
fn is_no_call(line: &str) -> bool {
    line.is_empty() || line.starts_with('#') || line == "here" || line == "again"
}

/// Returns the call of a line, without the result after it.
fn call_of(line: &str) -> &str {
    match line.split_once(" > ") {
        Some((call, _)) => call,
        None => line,
    }
}

/// Returns how many calls a script has, each with a result.
pub fn call_count(script: &str) -> usize {
    let is_call = |line: &&str| {
        !is_no_call(line) && !line.starts_with('+') && !line.starts_with('~')
    };
    script.lines().filter(is_call).count()
}

/// Returns the number of the first line that differs, from 1 on, the line, and what was played in
/// its place; `None` if there is none.
pub fn first_difference<'a>(script: &'a str, seen: &'a str) -> Option<(usize, &'a str, &'a str)> {
    let (mut expected, mut seen) = (script.lines(), seen.lines());
    for number in 1..usize::MAX {
        match (expected.next(), seen.next()) {
            (None, None) => return None,
            (line, other) if line == other => {}
            (line, other) => return Some((number, line.unwrap_or(""), other.unwrap_or(""))),
        }
    }
    None
}

/// The results of a list of calls.
#[derive(Drop)]
struct Seen {
    /// The result of the last one.
    answer: String,
    /// The lists of a processor and of a transcript.
    steps: String,
    transcript: String,
}

impl Seen {
    /// Returns empty results.
    fn nothing(alloc: Global) -> Seen {
        Seen {
            answer: String::new(alloc),
            steps: String::new(alloc),
            transcript: String::new(alloc),
        }
    }

    /// Makes the calls of these lines, of which the first one selects the checker, and returns
    /// their results.
    fn of(alloc: Global, calls: &str, size: usize) -> Result<Seen, Fail> {
        match first_word(calls.lines().next().unwrap_or("")).0 {
            "parts" => Ok(Seen {
                answer: parts::last_answer(alloc, calls)?,
                ..Seen::nothing(alloc)
            }),
            "bare" => Seen::of_bare(alloc, calls, size),
            _ => Seen::of_new(alloc, calls, size),
        }
    }

    /// Makes calls of a new checker without processors and transcripts.
    fn of_bare(alloc: Global, calls: &str, size: usize) -> Result<Seen, Fail> {
        let mut checker = Checker::new(alloc);
        let answer = last_answer(alloc, &mut checker, calls, size);
        let (processors, transcripts) = checker.into_processors();
        Seen::with_shown(alloc, answer, calls, &processors, &transcripts)
    }

    /// Returns the result with the outputs of the listeners, if the last call asks for them.
    fn with_shown(
        alloc: Global,
        answer: Result<String, Fail>,
        calls: &str,
        processors: &[Processor],
        transcripts: &[Transcript],
    ) -> Result<Seen, Fail> {
        let answer = answer?;
        let answer = match calls.lines().last() {
            Some("processors") => processors_shown(alloc, processors)?,
            Some("transcripts") => transcripts_shown(alloc, transcripts)?,
            _ => answer,
        };
        Ok(Seen {
            answer,
            ..Seen::nothing(alloc)
        })
    }

    /// Makes calls of a new checker with the processors and transcripts of the line `new`.
    fn of_new(alloc: Global, calls: &str, size: usize) -> Result<Seen, Fail> {
        let mut checker = Checker::new(alloc);
        let answer = last_answer(alloc, &mut checker, calls, size);
        let (processors, transcripts) = checker.into_processors();
        Seen::with_lists(alloc, answer, &processors, &transcripts)
    }

    /// Returns the result with the lists of the processors and transcripts of the line `new`.
    fn with_lists(
        alloc: Global,
        answer: Result<String, Fail>,
        processors: &[Processor],
        transcripts: &[Transcript],
    ) -> Result<Seen, Fail> {
        Ok(Seen {
            answer: answer?,
            steps: steps_listed(alloc, processors)?,
            transcript: transcript_listed(alloc, transcripts)?,
        })
    }

    /// Writes the last call and its results, by the results before it.
    fn write_since(&self, call: &str, before: &Seen, out: &mut String) -> Result<(), Fail> {
        match self.answer.as_str() {
            "Ok" => writeln!(out, "{call}")?,
            answer => writeln!(out, "{call} > {answer}")?,
        }
        if first_word(call).0 != "given" {
            write_added(out, '+', &before.steps, &self.steps)?;
            write_added(out, '~', &before.transcript, &self.transcript)?;
        }
        Ok(())
    }
}

/// Makes the calls of these lines, and returns the result of the last one.
fn last_answer(
    alloc: Global,
    checker: &mut Checker,
    calls: &str,
    size: usize,
) -> Result<String, Fail> {
    let mut answer = String::new(alloc);
    for call in calls.lines() {
        answer = answer_to(alloc, checker, call, size)?;
    }
    Ok(answer)
}

/// Writes the lines of a list that are new.
fn write_added(out: &mut String, mark: char, before: &str, after: &str) -> Result<(), Fail> {
    let added = after
        .strip_prefix(before)
        .ok_or("a list is no longer what it was")?;
    for line in added.lines() {
        writeln!(out, "{mark} {line}")?;
    }
    Ok(())
}

/// Makes the call of a line, and returns its result.
fn answer_to(
    alloc: Global,
    checker: &mut Checker,
    line: &str,
    size: usize,
) -> Result<String, Fail> {
    match first_word(line) {
        ("new", _) => {
            register(alloc, checker)?;
            Ok("Ok".to_string(alloc)?)
        }
        ("bare" | "processors" | "transcripts", _) => Ok("Ok".to_string(alloc)?),
        ("processor", kinds) => add_listeners(alloc, checker, "processor", kinds),
        ("transcript", kinds) => add_listeners(alloc, checker, "transcript", kinds),
        _ => make(alloc, checker, line, size),
    }
}
