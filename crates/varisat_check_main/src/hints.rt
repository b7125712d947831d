//! A proof, in a file, and the file of its lines of hints.
ghost use Rattle.std.specs.Prelude.{◌≡◌, ℕ, List, [], IfOk, IsErr, IsOk, Ok, Some};
ghost use Rattle.command.specs.Held.{held_in};
ghost use Rattle.command.specs.Inputs.{bytes_named};
ghost use Rattle.command.specs.Outputs.{Gives};
ghost use Rattle.sat_formula.specs.Refuted.{IsRefuted};
ghost use Rattle.varisat_check.specs.Verdicts.{shown_line, shows_unsat};
ghost use Rattle.varisat_check.specs.declared.verdict.Verdict.TheVariants.{Unsatisfiable};
ghost use Rattle.varisat_check_main.specs.Meaning.{AreHints, HasHints, MeansOf};
ghost use Rattle.verdicts.specs.Statuses.{Ends, status_shown};

use crate::about::ABOUT;
use crate::files::{report, unread_formula};
use command::{
    Call, FaultPlace, HeldBytes, InputNames, OutputSystem, ReadFile, Refusal, WrittenFiles,
    hold_file, open_inputs, progress_of,
};
use log::Log;
use sat_formula::LyingHeader;
use sat_hints::LratWriter;
use std::alloc::Global;
use std::io;
use std::io::{Read, Write};
use varisat_check::{RunFault, Verdict, read_formula, run_lrat};
use verdicts::{Unshown, show_line};

/// Checks a proof, and writes its hints. The third file is made once both others are open, and
/// before anything is read. It is neither of them, and has its name before the verdict's line is
/// written. Returns the exit status.
///
/// # Errors
///
/// `NotRun` if a file can't be opened; `Failed` if the formula can't be read, the proof is
/// rejected, or the hints or the verdict's line can't be written. Standard error has the reason.
pub(crate) fn write_hints<S: OutputSystem, W: Write>(
    system: &S,
    names: InputNames<'_>,
    lrat_name: &str,
    call: &Call<'_>,
    given: &mut S::Names,
    out: &mut W,
) -> Result<u8, Refusal>
    ensures ends { Ends shown_line (status_shown shows_unsat)
        (λ verdict. MeansOf (bytes_named (S.file_bytes system.now) (S.input_bytes system.now)
        names.entry.cnf.now) verdict
        × HasHints (bytes_named (S.file_bytes system.now) (S.input_bytes system.now) names.entry.cnf.now)
        (S.unwritten system.now) (S.place system.now lrat_name.now)
        (S.renamed given.old) (S.renamed given.new))
        (S.renamed given.new ≡ S.renamed given.old)
        (W.contents out.old) (W.contents out.new) result }
{
    let (cnf, proof) = open_inputs(system, names.cnf, names.other).ok_or(Refusal::NotRun)?;
    let mut files = WrittenFiles::new(system);
    let inputs = [ReadFile::of(system, &cnf), ReadFile::of(system, &proof)];
    let mut lrat = files.create(lrat_name, &inputs).ok_or(Refusal::NotRun)?;
    let cnf = hold_file(
        system,
        names,
        cnf,
        FaultPlace::Formula(None),
        unread_formula,
    )?;
    let progress = progress_of(system, &ABOUT, call);
    let proof = proof.told(system, &progress);
    let log = progress.asked_log();
    let mut lie = None;
    let checked = hints_of(&log, system.alloc(), cnf, proof, &mut lrat, &mut lie);
    let named = name_hints(&files, lrat_name, lrat, checked, given);
    let outcome = show_line(named, out);
    report(system, names, &outcome, &lie)
}

/// Gives the hints of a run that has a verdict their name.
///
/// # Errors
///
/// That of the run, or `Write` with the rename that failed. No name is given then.
fn name_hints<S: OutputSystem>(
    files: &WrittenFiles<'_, S>,
    lrat_name: &str,
    lrat: S::Output,
    checked: Result<Verdict, RunFault>,
    given: &mut S::Names,
) -> Result<Verdict, Unshown<RunFault>>
    ensures verdict { IfOk result (λ verdict. checked ≡ Ok verdict) }
    ensures named { IsOk result → Gives (S.renamed given.old) (S.renamed given.new)
        (S.place files.now.system.now lrat_name.now) (S.Output.contents lrat) }
    ensures kept { IsErr result → S.renamed given.new ≡ S.renamed given.old }
{
    let verdict = match checked {
        Ok(verdict) => verdict,
        Err(fault) => return Err(Unshown::Fault(fault)),
    };
    match files.name_file(given, lrat_name, lrat) {
        Ok(()) => Ok(verdict),
        Err(fault) => Err(Unshown::Write(fault)),
    }
}

/// Runs the check with a writer of hints, whose output goes to `lrat`.
fn hints_of<L: Log, P: Read + Drop, V: Write>(
    log: &L,
    alloc: Global,
    cnf: HeldBytes,
    proof: P,
    lrat: &mut V,
    lie: &mut Option<LyingHeader>,
) -> Result<Verdict, RunFault>
    ensures refutes { result ≡ Ok Unsatisfiable → IsRefuted (held_in cnf) }
    ensures hints { V.contents lrat.old ≡ Some [] → IfOk result (λ verdict. (bytes : List ℕ)
        × AreHints (held_in cnf) bytes × (V.contents lrat.new ≡ Some bytes)) }
{
    let formula = read_formula(alloc, cnf, lie)?;
    let writer = LratWriter::new(alloc, formula.len() as u64);
    let (verdict, _) = run_lrat(log, alloc, &formula, writer, proof, &mut io::sink(), lrat)?;
    Ok(verdict)
}
