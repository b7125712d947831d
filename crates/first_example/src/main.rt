//! An example of a small proved program: `first_example CNF ANSWER` checks that the literals of a
//! solver's answer satisfy a formula, and prints the verdict.
//!
//! It is `model_check` without its options, over the same library. So the way to a first proved
//! verdict is short, and a program of one's own may begin as this one.
#![tactic(auto)]

ghost use Rattle.first_example.specs.Meaning.{Means};
ghost use Rattle.model_check.specs.Verdicts.{shown_line, shows_sat};
ghost use Rattle.verdicts.specs.Statuses.{Ends, status_shown};

use model_check::run_check;
use std::alloc::Global;
use std::fs::File;
use std::io::{Read, Write};
use std::process::ExitCode;
use std::{env, io};
use verdicts::{Refusal, Unshown, ended, show_line};

const USAGE: &str = "first_example CNF ANSWER";

fn main(rt: HostRuntime) -> ExitCode {
    match run(&rt) {
        Ok(status) => ExitCode::from(status),
        Err(fault) => {
            let _ = eprintln!(rt; "{fault}");
            ExitCode::from(2)
        }
    }
}

/// Runs the call with these words. An option alone prints how it is called.
fn run(rt: &HostRuntime) -> io::Result<u8> {
    let mut words = env::args(rt)?.skip(1);
    let Some(cnf) = words.next() else {
        eprintln!(rt; "{USAGE}")?;
        return Ok(2);
    };
    let Some(answer) = words.next() else {
        eprintln!(rt; "{USAGE}")?;
        return Ok(if cnf.starts_with("--") { 0 } else { 2 });
    };
    let cnf = File::open(rt, cnf.as_str())?;
    let answer = File::open(rt, answer.as_str())?;
    match check(rt.alloc(), cnf, answer, &mut io::writer(rt)) {
        Ok(status) => Ok(status),
        Err(refusal) => Ok(refusal.status()),
    }
}

/// Checks an answer, prints the verdict, and returns the exit status.
///
/// # Errors
///
/// `Failed` if there is no verdict, or if its line could not be written.
fn check<F: Read + Drop, P: Read + Drop, W: Write>(
    alloc: Global,
    cnf: F,
    answer: P,
    out: &mut W,
) -> Result<u8, Refusal>
    ensures ends { Ends shown_line (status_shown shows_sat)
        (Means (F.remaining cnf) (P.remaining answer)) (Unit {0})
        (W.contents out.old) (W.contents out.new) result }
{
    let checked = run_check(alloc, cnf, answer, &mut None).map_err(Unshown::Fault);
    ended(&show_line(checked, out))
}
