//! Files that are read, by their names: which are opened and which rejected. What no contract can
//! state of a handle is believed by reading this file.
ghost use Rattle.std.specs.Prelude.{◌≡◌, ◌↔◌, IfOk, IfSome, IsNone, IsSome, IsTrue, codes, false};
ghost use Rattle.command.specs.Inputs.{IsOpenedBy, bytes_named, input_bytes_left, is_standard_input, source_bytes_left};

use crate::system::System;
use std::fmt::Display;
use std::fs::File;
use std::io;
use std::io::{Eprint, Read, Stdin};

/// The name of standard input.
pub(crate) const STANDARD_INPUT: &str = "-";

/// What is read: a file that was opened by its name, or descriptor 0, from its current position.
#[derive(Drop)]
pub enum Source<F = File, I = Stdin> {
    File(F),
    StandardInput(I),
}

impl<F: Read, I: Read> Read for Source<F, I> {
    ghost use Rattle.command.specs.Inputs.{source_bytes_left};

    ghost remaining = { source_bytes_left F.remaining I.remaining };

    fn read(&mut self, buf: &mut [u8]) -> io::Result<usize> {
        match self {
            Source::File(file) => file.read(buf),
            Source::StandardInput(stdin) => stdin.read(buf),
        }
    }
}

/// An open input, and the name by which it was opened.
#[derive(Drop)]
pub struct Input<'a, F = File, I = Stdin> {
    pub name: &'a str,
    pub file: Source<F, I>,
}

/// An open input of a system.
pub type InputOf<'a, S> = Input<'a, <S as System>::File, <S as System>::Input>;

impl<F: Read, I: Read> Input<'_, F, I> {
    /// Returns the length of a regular file in bytes.
    pub fn length<S: System<File = F, Input = I>>(&self, system: &S) -> Option<u64> {
        match &self.file {
            Source::File(file) => system.file_length(file),
            Source::StandardInput(_) => system.input_length(),
        }
    }
}

/// Returns the file that was opened, or standard input, if it is open.
fn open_source<S: System>(system: &S, name: &str) -> io::Result<Source<S::File, S::Input>>
    ensures named { IfOk result (λ source. IsTrue (is_standard_input source) ↔ (name.now ≡ codes "-")) }
    ensures bytes { IfOk result (λ source. source_bytes_left S.File.remaining S.Input.remaining source
        ≡ bytes_named (S.file_bytes system.now) (S.input_bytes system.now) name.now) }
{
    if name == STANDARD_INPUT {
        Ok(Source::StandardInput(system.standard_input()?))
    } else {
        Ok(Source::File(system.open_file(name)?))
    }
}

/// Returns two files that are opened for reading; one of them may be `-`, standard input.
///
/// Returns `None` if one can't be opened; then standard error names it, with the reason.
pub fn open_inputs<'a, S: System>(
    system: &S,
    first: &'a str,
    second: &'a str,
) -> Option<(InputOf<'a, S>, InputOf<'a, S>)>
    ensures first { IfSome result (λ inputs. IsOpenedBy first.now inputs.0) }
    ensures second { IfSome result (λ inputs. IsOpenedBy second.now inputs.1) }
    ensures first_bytes { IfSome result (λ inputs.
        input_bytes_left S.File.remaining S.Input.remaining inputs.0
        ≡ bytes_named (S.file_bytes system.now) (S.input_bytes system.now) first.now) }
    ensures second_bytes { IfSome result (λ inputs.
        input_bytes_left S.File.remaining S.Input.remaining inputs.1
        ≡ bytes_named (S.file_bytes system.now) (S.input_bytes system.now) second.now) }
    ensures once { first.now ≡ codes "-" → second.now ≡ codes "-" → IsNone result }
{
    if second != STANDARD_INPUT {
        let first = open_input(system, first)?;
        return Some((first, open_input(system, second)?));
    }
    if first == STANDARD_INPUT {
        let _ = eprintln!(system; "- given twice: only one file can be standard input");
        return None;
    }
    // Standard input first: if descriptor 0 is closed, the next file that is opened would get it.
    let second = open_input(system, second)?;
    Some((open_input(system, first)?, second))
}

/// Returns the open input, or prints why it can't be opened.
fn open_input<'a, S: System>(system: &S, name: &'a str) -> Option<InputOf<'a, S>>
    ensures named { IfSome result (IsOpenedBy name.now) }
    ensures bytes { IfSome result (λ input.
        input_bytes_left S.File.remaining S.Input.remaining input
        ≡ bytes_named (S.file_bytes system.now) (S.input_bytes system.now) name.now) }
{
    let file = match open_source(system, name) {
        Ok(file) => file,
        Err(fault) => return refuse(system, name, fault),
    };
    Some(Input { name, file })
}

/// Returns a file that is opened for reading by its name alone: `-` is not standard input here.
///
/// Returns `None` if it can't be opened; then standard error names it, with the reason.
pub fn open_file<'a, S: System>(system: &S, name: &'a str) -> Option<InputOf<'a, S>>
    ensures name { IfSome result (λ input. input.name.now ≡ name.now) }
    ensures file { IfSome result (λ input. is_standard_input input.file ≡ false) }
    ensures bytes { IfSome result (λ input.
        input_bytes_left S.File.remaining S.Input.remaining input
        ≡ S.file_bytes system.now name.now) }
{
    let file = match system.open_file(name) {
        Ok(file) => Source::File(file),
        Err(fault) => return refuse(system, name, fault),
    };
    Some(Input { name, file })
}

/// Warns on standard error if the header of a formula does not match the clauses that were read.
pub fn warn_of_header<R: Eprint, L: Display>(rt: &R, name: &str, lie: &Option<L>) {
    if let Some(header) = lie {
        let place = if name == "-" { "standard input" } else { name };
        let _ = eprintln!(rt; "warning: the header of {place} is {header}");
    }
}

/// Prints that a file can't be opened, and on a second line why. Returns `None`.
pub(crate) fn refuse<R: Eprint, T, D: Display + Drop>(rt: &R, name: &str, why: D) -> Option<T>
    ensures { IsNone result }
{
    let _ = eprintln!(rt; "cannot open {name}");
    let _ = eprintln!(rt; "{why}");
    None
}
