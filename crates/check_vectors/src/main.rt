//! The command `check_vectors FILE ..`: plays scripts of calls of the checker, and compares the
//! results with what they expect.
//!
//! It writes a line for each script: how many calls are as expected, or the first line that
//! differs. The exit status is 0 where nothing differs. The lines of a script are listed in the
//! modules `script`, `calls`, `steps` and `parts`.
#![tactic(auto)]

mod answers;
mod boxes;
mod calls;
mod counting;
mod cuts;
mod lines;
mod listeners;
mod parts;
mod registered;
mod reports;
mod script;
mod steps;
mod texts;
mod words;

use crate::script::{call_count, first_difference, played};
use std::process::ExitCode;
use std::test::Fail;
use std::{env, fs};

fn main(rt: HostRuntime) -> Result<ExitCode, Fail> {
    let mut agree = true;
    for name in env::args(&rt)?.skip(1) {
        agree &= agrees(&rt, &name)?;
    }
    Ok(if agree {
        ExitCode::SUCCESS
    } else {
        ExitCode::FAILURE
    })
}

/// Plays a script with large reads and with reads of one byte. Returns whether both agree with it
/// line by line.
fn agrees(rt: &HostRuntime, name: &str) -> Result<bool, Fail> {
    let script = fs::read_to_string(rt, name)?;
    for size in [usize::MAX, 1] {
        let seen = played(rt.alloc(), &script, size)?;
        if let Some((number, expected, seen)) = first_difference(&script, &seen) {
            println!(rt; "{name}, line {number}: expected {expected:?}, seen {seen:?}")?;
            return Ok(false);
        }
    }
    println!(rt;
        "{name}: {} calls are answered as expected",
        call_count(&script)
    )?;
    Ok(true)
}
