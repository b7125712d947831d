//! A session, a line after the other.
ghost use Rattle.std.specs.Prelude.{◌≡◌, None, IfOk, OnErr, OnOk};
ghost use Rattle.session_check.specs.Interactions.{once_more};
ghost use Rattle.session_text.specs.Content.{content_of};

mod conclusions;

use crate::fault::{LineCause, Stop};
use crate::report::{Reason, Report};
use sat_formula::Lit;
use session_checker::{SessionCause, SessionChecker, SessionFault};
use session_text::{LineKind, Lists, Status};
use std::alloc::{AllocError, Global};

/// Where the last query stands.
#[derive(Clone, Copy)]
pub(crate) enum Turn {
    /// All was said of it, or there is none.
    Idle,
    /// It has no answer yet.
    Asked,
    /// It was answered so, and has no conclusion yet.
    Answered(Status),
}

/// How often the application was told values or a core of a query.
#[derive(Clone, Copy)]
pub(crate) enum Times {
    Never,
    Once,
    Again,
}

impl Times {
    /// Returns how often it is with once more.
    fn more(self) -> Times
        ensures { result ≡ once_more self }
    {
        match self {
            Times::Never => Times::Once,
            Times::Once | Times::Again => Times::Again,
        }
    }
}

/// A session up to a line.
#[derive(Drop)]
pub(crate) struct Session {
    checker: SessionChecker,
    turn: Turn,
    /// What the last query assumed.
    assumed: Vec<Lit>,
    /// What the application was told of it, one list behind the other.
    told: Vec<Lit>,
    times: Times,
    /// How many more cores of it are passed over.
    more: u64,
    /// Whether some lemma did not follow.
    broken: bool,
}

impl Session {
    ghost use Rattle.session_check.specs.Progress.{Answers, Asks, Closes, Deletes, Derives, Gives, IsFresh, IsUnanswered, Takes, pending_of, progress_of, settled};

    /// Returns a session before its first line.
    pub(crate) fn new(alloc: Global) -> Result<Session, AllocError>
        ensures { IfOk result (λ session. IsFresh (progress_of session)) }
    {
        Ok(Session {
            checker: SessionChecker::new(alloc)?,
            turn: Turn::Idle,
            assumed: Vec::new(alloc),
            told: Vec::new(alloc),
            times: Times::Never,
            more: 0,
            broken: false,
        })
    }

    /// Takes a line of this kind. Returns what is said of the query that it ends, if it ends one.
    ///
    /// # Errors
    ///
    /// The line ends the session, or there is no memory for it. After an error the session is of no
    /// use.
    pub(crate) fn take(&mut self, kind: LineKind, lists: &Lists) -> Result<Option<Report>, Stop>
        ensures { IfOk result (λ report. Takes kind (content_of lists.now) (progress_of self.old)
            report (progress_of self.new)) }
    {
        match kind {
            LineKind::Clause => self.give(lists.id, &lists.lits),
            LineKind::Query => self.ask(&lists.lits),
            LineKind::Lemma => self.derive(lists.id, &lists.lits, &lists.ids),
            LineKind::Deletion => self.delete(&lists.ids),
            LineKind::Weakening => self.weaken(&lists.ids),
            LineKind::Answer(status) => self.answer(status),
            LineKind::Model => self.model(&lists.lits),
            LineKind::Core => self.core(&lists.lits, &lists.ids),
            LineKind::Several(count) => self.announce(count),
            LineKind::Trail => Ok(None),
            LineKind::Values => self.hear_values(&lists.lits),
            LineKind::Failed => self.hear_core(&lists.lits),
        }
    }

    /// Ends the last query. Returns a report that it has no conclusion, if it was answered and has
    /// no report yet.
    ///
    /// # Errors
    ///
    /// `Misplaced` if it has no answer. Then nothing is changed.
    pub(crate) fn close(&mut self) -> Result<Option<Report>, Stop>
        ensures closes { IfOk result (λ report. Closes (pending_of self.old) report) }
        ensures idle { OnOk result (pending_of self.new ≡ settled) }
        ensures more { OnOk result (self.new.more ≡ 0) }
        ensures checker { self.new.checker ≡ self.old.checker }
        ensures broken { self.new.broken ≡ self.old.broken }
        ensures unanswered { OnErr result (IsUnanswered (pending_of self.old)) }
    {
        match self.turn {
            Turn::Idle => {
                self.more = 0;
                Ok(None)
            }
            Turn::Asked => Err(Stop::Line(LineCause::Misplaced)),
            Turn::Answered(status) => {
                self.turn = Turn::Idle;
                self.more = 0;
                Ok(Some(Report {
                    status,
                    reason: Some(Reason::NoConclusion),
                }))
            }
        }
    }

    fn give(&mut self, id: u64, clause: &[Lit]) -> Result<Option<Report>, Stop>
        ensures { IfOk result (λ report. Gives id clause.now (progress_of self.old) report
            (progress_of self.new)) }
    {
        let report = self.close()?;
        match self.checker.give(id, clause) {
            Ok(()) => Ok(report),
            Err(fault) => Err(stop_of(fault)),
        }
    }

    fn ask(&mut self, assumed: &[Lit]) -> Result<Option<Report>, Stop>
        ensures { IfOk result (λ report. Asks assumed.now (progress_of self.old) report
            (progress_of self.new)) }
    {
        let report = self.close()?;
        self.assumed.clear();
        self.assumed.extend_from_slice(assumed)?;
        self.turn = Turn::Asked;
        Ok(report)
    }

    /// A lemma that does not follow is not stored, and the session goes on.
    fn derive(&mut self, id: u64, lemma: &[Lit], hints: &[u64]) -> Result<Option<Report>, Stop>
        ensures { IfOk result (λ report. Derives id lemma.now hints.now
            (progress_of self.old) report (progress_of self.new)) }
    {
        match self.checker.derive(id, lemma, hints) {
            Ok(()) => Ok(None),
            Err(SessionFault::Refused(cause)) if !is_of_ids(cause) => {
                self.broken = true;
                Ok(None)
            }
            Err(fault) => Err(stop_of(fault)),
        }
    }

    fn delete(&mut self, ids: &[u64]) -> Result<Option<Report>, Stop>
        ensures { IfOk result (λ report.
            Deletes ids.now (progress_of self.old) report (progress_of self.new)) }
    {
        let report = self.weaken(ids)?;
        self.checker.delete(ids);
        Ok(report)
    }

    /// All ids must name clauses, which stay.
    fn weaken(&mut self, ids: &[u64]) -> Result<Option<Report>, Stop>
        ensures silent { IfOk result (λ report. report ≡ None) }
        ensures kept { self.new ≡ self.old }
    {
        for id in ids {
            if self.checker.clause(*id).is_none() {
                return Err(Stop::Line(LineCause::Refused(SessionCause::UnknownId)));
            }
        }
        Ok(None)
    }

    fn answer(&mut self, status: Status) -> Result<Option<Report>, Stop>
        ensures { IfOk result (λ report.
            Answers status (progress_of self.old) report (progress_of self.new)) }
    {
        let Turn::Asked = self.turn else {
            return Err(Stop::Line(LineCause::Misplaced));
        };
        self.told.clear();
        self.times = Times::Never;
        match status {
            Status::Satisfiable | Status::Unsatisfiable => {
                self.turn = Turn::Answered(status);
                Ok(None)
            }
            Status::Unknown => {
                self.turn = Turn::Idle;
                Ok(Some(Report {
                    status,
                    reason: None,
                }))
            }
        }
    }
}

/// Returns whether an id of the line is the cause.
fn is_of_ids(cause: SessionCause) -> bool {
    matches!(cause, SessionCause::IdTaken | SessionCause::UnknownId)
}

/// Returns why a line ends the session.
fn stop_of(fault: SessionFault) -> Stop {
    match fault {
        SessionFault::Refused(cause) => Stop::Line(LineCause::Refused(cause)),
        SessionFault::OutOfMemory => Stop::OutOfMemory,
    }
}
