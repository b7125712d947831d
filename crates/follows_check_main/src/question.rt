//! The formula that a solver is to be given, in a file.
ghost use Rattle.std.specs.Prelude.{◌≡◌, ℕ, List, [], Ok, Some, IfErr, IfOk, OnErr, OnOk};
ghost use Rattle.std.specs.Io.Buffered.{writer_contents};
ghost use Rattle.command.specs.Inputs.{bytes_named};
ghost use Rattle.command.specs.Outputs.{Gives};
ghost use Rattle.follows_check_main.specs.Questions.{NamesQuestion};

use crate::fault::place_of_question;
use crate::files::{Names, hold_question, warn_of_headers};
use command::{OutputSystem, ReadFile, Refusal, WrittenFiles, open_inputs, say_cause, say_fault};
use follows_check::{HeaderLies, write_question};
use std::io::BufWriter;

/// Writes the formula for a solver. The file is made once both others are open, and has its name
/// once it is whole. Returns the exit status.
pub(crate) fn write_formula<S: OutputSystem>(
    system: &S,
    names: Names<'_>,
    file: &str,
    given: &mut S::Names,
) -> Result<u8, Refusal>
    ensures named { (text said : List ℕ)
        → bytes_named (S.file_bytes system.now) (S.input_bytes system.now) names.entry.inputs.cnf.now ≡ Some text
        → bytes_named (S.file_bytes system.now) (S.input_bytes system.now) names.entry.claims.now ≡ Some said
        → S.unwritten system.now ≡ Some [] → result ≡ Ok 0
        → NamesQuestion (S.place system.now file.now) (Some text) (Some said)
        (S.renamed given.old) (S.renamed given.new) }
    ensures zero { IfOk result (λ status. status ≡ 0) }
    ensures unnamed { IfErr result (λ status. S.renamed given.new ≡ S.renamed given.old) }
{
    let (cnf, claims) = open_inputs(system, names.inputs.cnf, names.claims).ok_or(Refusal::NotRun)?;
    let mut files = WrittenFiles::new(system);
    let inputs = [ReadFile::of(system, &cnf), ReadFile::of(system, &claims)];
    let made = files.create_wanted(Some(file), &inputs)?;
    let mut out = made.ok_or(Refusal::NotRun)?;
    let (cnf, claims) = hold_question(system, names, cnf, claims)?;
    let mut lies = HeaderLies::none();
    let written = write_question(system.alloc(), cnf, claims, &mut out, &mut lies);
    if let Err(fault) = &written {
        let place = place_of_question(fault, names.claims, file);
        say_fault(system, names.inputs, fault, place);
    }
    warn_of_headers(system, names, lies);
    if written.is_err() {
        return Err(Refusal::Failed);
    }
    let named = files.name_buffered(given, file, out);
    say_cause(system, &named);
    match named {
        Ok(()) => Ok(0),
        Err(_) => Err(Refusal::Failed),
    }
}
