//! A run over a whole session.
ghost use Rattle.std.specs.Prelude.{◌≡◌, [], IfErr, OnOk};
ghost use Rattle.std.specs.Io.KnownBytes.{Appends};
ghost use Rattle.whole_writes.specs.Beginnings.{AppendsBeginning};
ghost use Rattle.session_check.specs.Counts.{last_line};
ghost use Rattle.session_check.specs.Lines.{Texts, alone, both};
ghost use Rattle.session_check.specs.NextLine.{Reads};
ghost use Rattle.session_check.specs.Progress.{progress_of};
ghost use Rattle.session_check.specs.Reports.{report_line};
ghost use Rattle.session_check.specs.Runs.{CutsOff, Finishes, IsRun, Tells, TellsPart, stop_fault};

use crate::counts::Counts;
use crate::fault::{RunFault, Stop};
use crate::lines::SessionLines;
use crate::report::{Report, set_line};
use crate::session::Session;
use std::alloc::Global;
use std::io::{Read, Write};
use whole_writes::write_whole;

/// Reads a session as LIDRUP text, in which the application's lines stand too, and checks each
/// answer as it comes. A line of each query is written and flushed before the next line is read,
/// and at the end a line of all. Returns how many answers there are.
///
/// # Errors
///
/// `Proof` if the text can't be read or is malformed, `Line` for a line that ends the session, or
/// `NoAnswer`: the lines of the queries before it are written. After `OutOfMemory` or `Write` the
/// last one of them may be cut off.
pub fn check_alone<P: Read + Drop, W: Write>(
    alloc: Global,
    proof: P,
    out: &mut W,
) -> Result<Counts, RunFault>
    ensures { IsRun (alone (P.remaining proof)) (W.contents out.old) (W.contents out.new) result }
{
    check_lines(alloc, SessionLines::<P, P>::alone(alloc, proof), out)
}

/// Reads a session as ICNF text, with its proof as LIDRUP text, and checks each answer of the
/// interaction, with the values or the core that it reports of it, as [`check_alone`] does. The
/// proof's own clauses, queries and answers tell only the ids of clauses, and the lines among which
/// they stand. What is reported of an answer is read before its line is written, so the interaction
/// is read on up to a line behind it.
///
/// # Errors
///
/// As [`check_alone`]; `Interaction` if this text can't be read or is malformed, `Line` also where
/// the proof does not repeat what comes next in it, and `Unproved` where the proof ends before it.
pub fn check_session<I: Read + Drop, P: Read + Drop, W: Write>(
    alloc: Global,
    interaction: I,
    proof: P,
    out: &mut W,
) -> Result<Counts, RunFault>
    ensures { IsRun (both (I.remaining interaction) (P.remaining proof)) (W.contents out.old)
        (W.contents out.new) result }
{
    check_lines(alloc, SessionLines::new(alloc, interaction, proof), out)
}

/// Checks a session before its first line.
fn check_lines<P: Read + Drop, I: Read + Drop, W: Write>(
    alloc: Global,
    mut lines: SessionLines<P, I>,
    out: &mut W,
) -> Result<Counts, RunFault>
    ensures { (known : Texts) → Reads P.remaining I.remaining known [] lines
        → IsRun known (W.contents out.old) (W.contents out.new) result }
{
    let mut session = match Session::new(alloc) {
        Ok(session) => session,
        Err(_) => return Err(RunFault::OutOfMemory),
    };
    let mut text = Vec::new(alloc);
    let mut counts = Counts::new();
    'lines: loop {
        match lines.next_line() {
            Ok(Some(kind)) => match session.take(kind, lines.lists()) {
                Ok(report) => tell(&mut text, &mut counts, report, out)?,
                Err(stop) => return Err(fault_of(stop, lines.line())),
            },
            Ok(None) => return finish(session, text, counts, lines.line(), out),
            Err(fault) => return Err(fault),
        }
    }
}

/// Ends a session whose lines were all taken.
fn finish<W: Write>(
    mut session: Session,
    mut text: Vec<u8>,
    mut counts: Counts,
    line: u64,
    out: &mut W,
) -> Result<Counts, RunFault>
    ensures { Finishes (progress_of session) counts (W.contents out.old) (W.contents out.new)
        result }
{
    let report = match session.close() {
        Ok(report) => report,
        Err(_) => return Err(RunFault::NoAnswer { line }),
    };
    tell(&mut text, &mut counts, report, out)?;
    write_last(&mut text, counts, out)?;
    Ok(counts)
}

/// Writes the line of a query, if something is said of one.
fn tell<W: Write>(
    text: &mut Vec<u8>,
    counts: &mut Counts,
    report: Option<Report>,
    out: &mut W,
) -> Result<(), RunFault>
    ensures whole { OnOk result (Tells counts.old counts.new report (W.contents out.old)
        (W.contents out.new)) }
    ensures part { IfErr result (CutsOff (TellsPart counts.old report (W.contents out.old)
        (W.contents out.new))) }
{
    match report {
        None => Ok(()),
        Some(report) => {
            counts.add(report);
            write_report(text, counts.queries, report, out)
        }
    }
}

/// Writes the line of the query of this number.
fn write_report<W: Write>(
    text: &mut Vec<u8>,
    number: u64,
    report: Report,
    out: &mut W,
) -> Result<(), RunFault>
    ensures whole { OnOk result
        (Appends (W.contents out.old) (W.contents out.new) (report_line number report)) }
    ensures part { IfErr result (CutsOff
        (AppendsBeginning (W.contents out.old) (W.contents out.new) (report_line number report))) }
{
    if set_line(text, number, report).is_err() {
        return Err(RunFault::OutOfMemory);
    }
    match write_whole(out, text) {
        Ok(()) => Ok(()),
        Err(fault) => Err(RunFault::Write(fault)),
    }
}

/// Writes the last line.
fn write_last<W: Write>(text: &mut Vec<u8>, counts: Counts, out: &mut W) -> Result<(), RunFault>
    ensures whole { OnOk result
        (Appends (W.contents out.old) (W.contents out.new) (last_line counts)) }
    ensures part { IfErr result (CutsOff
        (AppendsBeginning (W.contents out.old) (W.contents out.new) (last_line counts))) }
{
    if counts.set_last_line(text).is_err() {
        return Err(RunFault::OutOfMemory);
    }
    match write_whole(out, text) {
        Ok(()) => Ok(()),
        Err(fault) => Err(RunFault::Write(fault)),
    }
}

/// Returns the fault of a line of this number that was not taken.
fn fault_of(stop: Stop, line: u64) -> RunFault
    ensures { result ≡ stop_fault stop line }
{
    match stop {
        Stop::Line(cause) => RunFault::Line { line, cause },
        Stop::OutOfMemory => RunFault::OutOfMemory,
    }
}
