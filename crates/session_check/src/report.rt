//! What is said of a query.
ghost use Rattle.std.specs.Prelude.{◌≡◌, ◌++◌, OnOk};
ghost use Rattle.session_check.specs.Reports.{cause_text, ending_text, reason_text, report_line, shown_text, status_text};

use session_checker::SessionCause;
use session_text::Status;
use std::alloc::AllocError;
use written_numbers::words::push_decimal;

/// Why an answer is not shown.
#[derive(Clone, Copy, Debug, PartialEq, Eq)]
pub enum Reason {
    /// The proof has no model or core of it.
    NoConclusion,
    /// A lemma before it does not follow.
    Lemma,
    /// The model or the core is accepted, but it does not show what the application was told.
    Told,
    /// The application was told several cores.
    SeveralTold,
    /// The model or the core is rejected.
    Refused(SessionCause),
}

/// What is said of a query: its answer, and why it is not shown, if it is not. An answer that the
/// solver gave up claims nothing.
#[derive(Clone, Copy, Debug, PartialEq, Eq)]
pub struct Report {
    pub status: Status,
    pub reason: Option<Reason>,
}

/// Returns the word of an answer.
fn status_text(status: Status) -> &'static [u8]
    ensures { result.now ≡ status_text status }
{
    match status {
        Status::Satisfiable => b"satisfiable",
        Status::Unsatisfiable => b"unsatisfiable",
        Status::Unknown => b"unknown",
    }
}

/// Returns what follows an answer that is shown.
fn shown_text(status: Status) -> &'static [u8]
    ensures { result.now ≡ shown_text status }
{
    match status {
        Status::Satisfiable | Status::Unsatisfiable => b": shown",
        Status::Unknown => b"",
    }
}

/// Returns the words of a cause.
fn cause_text(cause: SessionCause) -> &'static [u8]
    ensures { result.now ≡ cause_text cause }
{
    match cause {
        SessionCause::IdTaken => b"id is taken",
        SessionCause::UnknownId => b"no clause has the id of a hint",
        SessionCause::NotUnit => b"clause of a hint is not unit",
        SessionCause::NoConflict => b"hints end without a conflict",
        SessionCause::NotAssumed => b"a literal of the core was not assumed",
        SessionCause::BothSigns => b"the model has both signs of a variable",
        SessionCause::MissesAssumption => b"the model does not have an assumption",
        SessionCause::MissesClause(_) => b"the model has no literal of a clause",
    }
}

/// Returns the words of a reason.
fn reason_text(reason: Reason) -> &'static [u8]
    ensures { result.now ≡ reason_text reason }
{
    match reason {
        Reason::NoConclusion => b"the proof has no conclusion of it",
        Reason::Lemma => b"a lemma before it does not follow",
        Reason::Told => b"the proof does not show what was reported",
        Reason::SeveralTold => b"several cores were reported",
        Reason::Refused(cause) => cause_text(cause),
    }
}

/// Appends what follows the answer, and the LF.
fn push_ending(text: &mut Vec<u8>, report: Report) -> Result<(), AllocError>
    ensures { OnOk result (text.new.items ≡ text.old.items ++ ending_text report) }
{
    match report.reason {
        None => text.extend_from_slice(shown_text(report.status))?,
        Some(reason) => {
            text.extend_from_slice(b": not shown: ")?;
            text.extend_from_slice(reason_text(reason))?;
        }
    }
    text.push(b'\n')?;
    Ok(())
}

/// Puts the line of a query of this number in place of a text.
pub(crate) fn set_line(text: &mut Vec<u8>, number: u64, report: Report) -> Result<(), AllocError>
    ensures { OnOk result (text.new.items ≡ report_line number report) }
{
    text.clear();
    text.extend_from_slice(b"q ")?;
    push_decimal(text, number)?;
    text.push(b' ')?;
    text.extend_from_slice(status_text(report.status))?;
    push_ending(text, report)
}
