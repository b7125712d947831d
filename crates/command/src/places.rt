//! Messages about the file in which a fault is.
ghost use Rattle.std.specs.Prelude.{◌≡◌, IfErr, IfOk, IfSome};
ghost use Rattle.command.specs.Held.{held_in};
ghost use Rattle.command.specs.Inputs.{IsOpenedBy, bytes_named, input_bytes_left};
ghost use Rattle.verdicts.specs.declared.status.Refusal.TheVariants.{Failed};

use crate::files::{InputOf, open_inputs, warn_of_header};
use crate::guilty::FaultLine;
use crate::held::HeldBytes;
use crate::kind::{Kind, kind_of};
use crate::system::System;
use sat_formula::DimacsFault;
use std::fmt::Display;
use std::io;
use std::io::{Eprint, ErrorKind, Read};
use verdicts::Refusal;

/// How many bytes of a file are read to detect its kind.
const HEAD: usize = 16_384;

const TOO_LARGE: &str = "only a regular file may be larger than half of the free memory";

/// The names of the two files that a run reads: the formula, and what is checked with it.
#[derive(Clone, Copy)]
pub struct InputNames<'a> {
    pub cnf: &'a str,
    pub other: &'a str,
}

/// The file in which the fault of a run is.
#[derive(Clone, Copy)]
pub enum FaultPlace<'a> {
    /// On this line, if its text is at fault.
    Formula(Option<FaultLine>),
    /// A proof that is neither DRAT nor LRAT.
    Proof,
    /// A proof that may begin with the bytes of DRAT.
    DratProof,
    /// A proof that may begin with those of LRAT.
    LratProof,
    Answer,
    /// The target clauses of a piece, by the name of their file; on this line, if their text is at
    /// fault.
    Wanted(&'a str, Option<FaultLine>),
    /// A file that is written, by its name.
    Output(Option<&'a str>),
    /// In none of them, for example if the verdict's line can't be written.
    Elsewhere,
}

impl<'a> FaultPlace<'a> {
    /// Returns the place of a formula's fault.
    pub fn in_formula(fault: &DimacsFault) -> FaultPlace<'a> {
        FaultPlace::Formula(FaultLine::of(fault))
    }

    /// Returns the place of a fault of the target clauses.
    pub fn in_wanted(name: &'a str, fault: &DimacsFault) -> FaultPlace<'a> {
        FaultPlace::Wanted(name, FaultLine::of(fault))
    }
}

/// Prints to standard error why a run has no verdict, if it has none.
pub fn say_cause<R: Eprint, T, E: Display>(rt: &R, outcome: &Result<T, E>) {
    if let Err(fault) = outcome {
        let _ = eprintln!(rt; "{fault}");
    }
}

/// Prints to standard error why a run has no verdict, and in which file the fault is.
pub fn say_fault<S: System, D: Display>(
    rt: &S,
    names: InputNames<'_>,
    fault: &D,
    place: FaultPlace<'_>,
) {
    let _ = eprintln!(rt; "{fault}");
    match place {
        FaultPlace::Formula(line) => say_formula(rt, names.cnf, line, names.other),
        FaultPlace::Proof => say_proof(rt, names.other),
        FaultPlace::DratProof => say_drat_proof(rt, names.other),
        FaultPlace::LratProof => say_lrat_proof(rt, names.other),
        FaultPlace::Answer => say_answer(rt, names.other),
        FaultPlace::Wanted(holds, line) => say_formula(rt, holds, line, names.other),
        FaultPlace::Output(Some(name)) => {
            let _ = eprintln!(rt; "in {name}");
        }
        FaultPlace::Output(None) | FaultPlace::Elsewhere => {}
    }
}

/// Prints to standard error why a run has no verdict and in which file the fault is, if it has
/// none; and then a warning if the formula's header does not match.
pub fn say_end<S: System, T, E: Display, L: Display>(
    rt: &S,
    names: InputNames<'_>,
    outcome: &Result<T, E>,
    place: FaultPlace<'_>,
    lie: &Option<L>,
) {
    if let Err(fault) = outcome {
        say_fault(rt, names, fault, place);
    }
    warn_of_header(rt, names.cnf, lie);
}

/// Prints to standard error which target clause of a piece is missing, if one is.
pub fn say_missing<R: Eprint, M: Display>(rt: &R, holds: &str, missing: &Option<M>) {
    if let Some(missing) = missing {
        let _ = eprintln!(rt; "{missing}");
        let _ = eprintln!(rt; "in {holds}");
    }
}

/// Returns the bytes of an open file. For a regular file its length is reserved; of any other,
/// which may never end, at most half as many bytes are read as memory is free.
///
/// # Errors
///
/// As [`HeldBytes::of_reader`].
fn hold_input<S: System>(system: &S, input: InputOf<'_, S>) -> io::Result<HeldBytes>
    ensures { IfOk result (λ held. IfSome
        (input_bytes_left S.File.remaining S.Input.remaining input.entry) (λ bytes. held_in held ≡ bytes)) }
{
    let (expected, most) = match input.length(system) {
        // One byte more, so that the end is found without growth.
        Some(length) => ((length as usize).saturating_add(1), u64::MAX),
        None => (0, half_of_memory(system)),
    };
    HeldBytes::of_reader(system.alloc(), input.file, expected, most)
}

/// Returns half of the free memory in bytes, or `u64::MAX` if the system does not report it.
fn half_of_memory<S: System>(system: &S) -> u64 {
    match system.free_kilobytes() {
        Some(free) => free.saturating_mul(512),
        None => u64::MAX,
    }
}

/// Returns the bytes of a file of a run.
///
/// # Errors
///
/// `Failed` if it can't be read; standard error has the fault, the file, and for a file
/// that is too large which files may be larger.
pub fn hold_file<S: System, D: Display + Drop, F: FnOnce(io::Error) -> D>(
    rt: &S,
    names: InputNames<'_>,
    file: InputOf<'_, S>,
    place: FaultPlace<'_>,
    fault_of: F,
) -> Result<HeldBytes, Refusal>
    requires { F.IsAlwaysCallable fault_of }
    ensures err { IfErr result (λ refusal. refusal ≡ Failed) }
    ensures bytes { IfOk result (λ held. IfSome
        (input_bytes_left S.File.remaining S.Input.remaining file.entry) (λ bytes. held_in held ≡ bytes)) }
{
    match hold_input(rt, file) {
        Ok(held) => Ok(held),
        Err(fault) => {
            let is_too_large = fault.kind() == ErrorKind::FileTooLarge;
            say_fault(rt, names, &fault_of(fault), place);
            if is_too_large {
                let _ = eprintln!(rt; "{TOO_LARGE}");
            }
            Err(Refusal::Failed)
        }
    }
}

/// Opens the two files of a run, and reads the formula whole. Returns its bytes and the other file.
///
/// # Errors
///
/// `NotRun` or `Failed` if that fails; standard error has the reason.
pub fn open_and_hold<'a, S: System, D: Display + Drop, F: FnOnce(io::Error) -> D>(
    rt: &S,
    names: InputNames<'a>,
    fault_of: F,
) -> Result<(HeldBytes, InputOf<'a, S>), Refusal>
    requires { F.IsAlwaysCallable fault_of }
    ensures formula { IfOk result (λ opened. IfSome
        (bytes_named (S.file_bytes rt.now) (S.input_bytes rt.now) names.entry.cnf.now)
        (λ bytes. held_in opened.0 ≡ bytes)) }
    ensures other { IfOk result (λ opened. IsOpenedBy names.entry.other.now opened.1) }
    ensures bytes { IfOk result (λ opened.
        input_bytes_left S.File.remaining S.Input.remaining opened.1
        ≡ bytes_named (S.file_bytes rt.now) (S.input_bytes rt.now) names.entry.other.now) }
{
    let (cnf, other) = open_inputs(rt, names.cnf, names.other).ok_or(Refusal::NotRun)?;
    let cnf = hold_file(rt, names, cnf, FaultPlace::Formula(None), fault_of)?;
    Ok((cnf, other))
}

/// Prints to standard error, after a fault of a formula, which file it is and what is wrong there.
/// If this file or the other one begins as the other kind, asks whether they were exchanged.
///
/// If it is a regular file that begins as another kind of file, the kind is printed.
fn say_formula<S: System>(rt: &S, name: &str, line: Option<FaultLine>, other: &str) {
    let kind = match kind_of_file(rt, name) {
        Some(Kind::DratText | Kind::LratText | Kind::Formula) => None,
        kind => kind,
    };
    say_place(rt, name, kind);
    if let (None, Some(line)) = (kind, line) {
        line.say(rt, name);
    }
    if kind == Some(Kind::BinaryProof) || kind_of_file(rt, other) == Some(Kind::Formula) {
        ask_order(rt);
    }
}

/// Prints to standard error, after a fault of an answer, which file it is, or its kind, if it
/// begins as another kind of file.
fn say_answer<S: System>(rt: &S, name: &str) {
    match kind_of_file(rt, name) {
        Some(Kind::DratText | Kind::LratText | Kind::SolverOutput) => say_place(rt, name, None),
        kind => say_kind(rt, name, kind),
    }
}

/// Prints to standard error, after a fault of a proof, which file it is, or its kind, if it begins
/// as another kind of file.
fn say_proof<S: System>(rt: &S, name: &str) {
    say_kind(rt, name, kind_of_file(rt, name));
}

/// The same for an LRAT proof.
fn say_lrat_proof<S: System>(rt: &S, name: &str) {
    match kind_of_file(rt, name) {
        Some(Kind::LratText) => say_place(rt, name, None),
        kind => say_kind(rt, name, kind),
    }
}

/// The same for a DRAT proof, perhaps binary.
fn say_drat_proof<S: System>(rt: &S, name: &str) {
    match kind_of_file(rt, name) {
        Some(Kind::DratText | Kind::BinaryProof) => say_place(rt, name, None),
        kind => say_kind(rt, name, kind),
    }
}

/// Prints the kind of a file that is not the formula. If it begins as a formula, asks whether the
/// arguments are in the wrong order.
fn say_kind<S: System>(rt: &S, name: &str, kind: Option<Kind>) {
    say_place(rt, name, kind);
    if kind == Some(Kind::Formula) {
        ask_order(rt);
    }
}

/// Asks whether the arguments are in the wrong order.
fn ask_order<R: Eprint>(rt: &R) {
    let _ = eprintln!(rt; "arguments in the wrong order?");
}

/// Prints in which file a fault is, or which kind of file it begins as.
fn say_place<R: Eprint>(rt: &R, name: &str, kind: Option<Kind>) {
    let _ = match kind {
        Some(kind) => {
            let kind = kind.name();
            eprintln!(rt; "{name} begins as {kind}")
        }
        None if name == "-" => eprintln!(rt; "in standard input"),
        None => eprintln!(rt; "in {name}"),
    };
}

/// Returns the kind that the first bytes of a regular file have, after opening it again.
fn kind_of_file<S: System>(rt: &S, name: &str) -> Option<Kind> {
    let mut head = [0; HEAD];
    let count = rt.open_again(name)?.read(&mut head).ok()?;
    kind_of(&head[..count])
}
