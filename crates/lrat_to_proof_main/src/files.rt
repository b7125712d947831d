//! A proof, in a file, and the file of its bytes.
ghost use Rattle.std.specs.Prelude.{◌≡◌, ℕ, List, [], Ok, Some};
ghost use Rattle.std.specs.Io.Buffered.{writer_contents};
ghost use Rattle.command.specs.Inputs.{bytes_named};
ghost use Rattle.command.specs.Outputs.{Gives};
ghost use Rattle.lrat_to_proof.specs.Widths.{bits_of};
ghost use Rattle.lrat_to_proof_main.specs.Named.{EndsConversion, HasNamed};

use command::{
    FaultPlace, InputNames, OutputSystem, ReadFile, Refusal, WrittenFiles, open_inputs, say_fault,
    warn_of_header,
};
use lrat_to_proof::{Conversion, ConvertFault, HashWidth, Ids, convert};
use std::io::BufWriter;
use verdicts::ended;

/// How ids stand in binary lines, where that is given, and how wide hashes are.
#[derive(Clone, Copy)]
pub(crate) struct Form {
    pub(crate) ids: Option<Ids>,
    pub(crate) width: HashWidth,
}

/// Writes a proof as bytes. The third file is made once both others are open, and before anything
/// is read. It is neither of them, and has its name once it is whole. Returns the exit status.
///
/// # Errors
///
/// `NotRun` if a file can't be opened; `Failed` if the conversion fails or the file can't be
/// written whole or renamed. Standard error has the reason.
pub(crate) fn convert_files<S: OutputSystem>(
    system: &S,
    names: InputNames<'_>,
    proof_name: &str,
    form: Form,
    given: &mut S::Names,
) -> Result<u8, Refusal>
    ensures ends { EndsConversion (λ conversion. (text lines : List ℕ)
        → bytes_named (S.file_bytes system.now) (S.input_bytes system.now) names.entry.cnf.now ≡ Some text
        → bytes_named (S.file_bytes system.now) (S.input_bytes system.now) names.entry.other.now ≡ Some lines
        → S.unwritten system.now ≡ Some []
        → HasNamed form.ids (bits_of form.width) (S.place system.now proof_name.now)
        (Some text) (Some lines) conversion (S.renamed given.old) (S.renamed given.new))
        (S.renamed given.new ≡ S.renamed given.old) result }
{
    let (cnf, lrat) = open_inputs(system, names.cnf, names.other).ok_or(Refusal::NotRun)?;
    let mut files = WrittenFiles::new(system);
    let inputs = [ReadFile::of(system, &cnf), ReadFile::of(system, &lrat)];
    let made = files.create_wanted(Some(proof_name), &inputs)?;
    let mut out = made.ok_or(Refusal::NotRun)?;
    let mut lie = None;
    let outcome = convert(
        system.alloc(),
        cnf.file,
        lrat.file,
        form.ids,
        form.width,
        &mut out,
        &mut lie,
    );
    if let Err(fault) = &outcome {
        say_fault(system, names, fault, place_of(fault));
    }
    warn_of_header(system, names.cnf, &lie);
    end(system, &files, proof_name, &outcome, out, given)
}

/// Gives the proof's bytes their name, if they are whole. Returns the exit status.
///
/// # Errors
///
/// `Failed` if they are not whole or get no name.
fn end<S: OutputSystem>(
    system: &S,
    files: &WrittenFiles<'_, S>,
    proof_name: &str,
    outcome: &Result<Conversion, ConvertFault>,
    out: BufWriter<S::Output>,
    given: &mut S::Names,
) -> Result<u8, Refusal>
    ensures ends { EndsConversion (λ conversion. (outcome.now ≡ Ok conversion)
        × Gives (S.renamed given.old) (S.renamed given.new)
        (S.place files.now.system.now proof_name.now) (writer_contents S.Output.contents out))
        (S.renamed given.new ≡ S.renamed given.old) result }
{
    if outcome.is_err() {
        return Err(Refusal::Failed);
    }
    match files.name_buffered(given, proof_name, out) {
        Ok(()) => ended(outcome),
        Err(fault) => {
            let _ = eprintln!(system; "error writing: {fault}");
            Err(Refusal::Failed)
        }
    }
}

fn place_of(fault: &ConvertFault) -> FaultPlace<'static> {
    match fault {
        ConvertFault::Formula(fault) => FaultPlace::in_formula(fault),
        ConvertFault::Read(_) | ConvertFault::Unread { .. } | ConvertFault::Refused { .. } => {
            FaultPlace::LratProof
        }
        ConvertFault::Write(_) | ConvertFault::OutOfMemory => FaultPlace::Elsewhere,
    }
}
