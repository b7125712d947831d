//! What the application was told of the last query, and the conclusions of its answer.
ghost use Rattle.std.specs.Prelude.{◌≡◌, ◌++◌, None, Option, IfErr, IfOk, IsOk, OnOk};
ghost use Rattle.session_checker.specs.Causes.{IsCause};
ghost use Rattle.session_checker.specs.Refusals.{Refusal};
ghost use Rattle.session_check.specs.Interactions.{FailsAsTold, once_more};
ghost use Rattle.session_check.specs.Progress.{IsOwnReason, IsReason};
ghost use Rattle.refutation_rules.specs.Sessions.{Fails, Satisfies};
ghost use Rattle.session_text.specs.declared.line.Status.TheVariants as statuses;

use crate::fault::{LineCause, Stop};
use crate::report::{Reason, Report};
use crate::session::{Session, Times, Turn};
use sat_formula::Lit;
use session_checker::SessionFault;
use session_text::Status;

impl Session {
    ghost use Rattle.session_check.specs.Progress.{Announces, Cores, Hears, IsCoreReason, IsToldReason, Models, progress_of};
    ghost use Rattle.session_checker.specs.Held.{given_by, named_by};
    ghost use Rattle.session_checker.specs.Refusals.{core_cause, model_cause};

    /// The application is told values of the last query.
    pub(super) fn hear_values(&mut self, values: &[Lit]) -> Result<Option<Report>, Stop>
        ensures { IfOk result (λ report. Hears statuses.Satisfiable values.now
            (progress_of self.old) report (progress_of self.new)) }
    {
        match self.turn {
            Turn::Answered(Status::Satisfiable) => self.hear(values),
            _ => Err(Stop::Line(LineCause::Report)),
        }
    }

    /// The application is told which assumptions of the last query fail together.
    pub(super) fn hear_core(&mut self, core: &[Lit]) -> Result<Option<Report>, Stop>
        ensures { IfOk result (λ report. Hears statuses.Unsatisfiable core.now
            (progress_of self.old) report (progress_of self.new)) }
    {
        match self.turn {
            Turn::Answered(Status::Unsatisfiable) => self.hear(core),
            _ => Err(Stop::Line(LineCause::Report)),
        }
    }

    fn hear(&mut self, lits: &[Lit]) -> Result<Option<Report>, Stop>
        ensures silent { IfOk result (λ report. report ≡ None) }
        ensures told { OnOk result (self.new.told.items ≡ self.old.told.items ++ lits.now) }
        ensures times { OnOk result (self.new.times ≡ once_more self.old.times) }
        ensures assumed { self.new.assumed ≡ self.old.assumed }
        ensures turn { self.new.turn ≡ self.old.turn }
        ensures checker { self.new.checker ≡ self.old.checker }
        ensures broken { self.new.broken ≡ self.old.broken }
        ensures more { self.new.more ≡ self.old.more }
    {
        self.told.extend_from_slice(lits)?;
        self.times = self.times.more();
        Ok(None)
    }

    pub(super) fn model(&mut self, model: &[Lit]) -> Result<Option<Report>, Stop>
        ensures { IfOk result (λ report.
            Models model.now (progress_of self.old) report (progress_of self.new)) }
    {
        let Turn::Answered(Status::Satisfiable) = self.turn else {
            return Err(Stop::Line(LineCause::Misplaced));
        };
        let reason = self.model_reason(model)?;
        self.turn = Turn::Idle;
        Ok(Some(Report {
            status: Status::Satisfiable,
            reason,
        }))
    }

    /// Returns why a model does not show the answer and all values that were told, if it does not.
    fn model_reason(&mut self, model: &[Lit]) -> Result<Option<Reason>, Stop>
        ensures exact { IfOk result (IsToldReason
            (model_cause (given_by self.old.checker) self.old.assumed.items
            (self.old.told.items ++ model.now))
            (model_cause (given_by self.old.checker) self.old.assumed.items model.now)) }
        ensures shown { IfOk result (λ reason. reason ≡ None
            → Satisfies (given_by self.old.checker) self.old.assumed.items
            (self.old.told.items ++ model.now)) }
        ensures given { given_by self.new.checker ≡ given_by self.old.checker }
        ensures named { named_by self.new.checker ≡ named_by self.old.checker }
        ensures broken { self.new.broken ≡ self.old.broken }
        ensures more { self.new.more ≡ self.old.more }
    {
        self.told.extend_from_slice(model)?;
        match self.checker.satisfies(&self.assumed, &self.told) {
            Ok(()) => Ok(None),
            Err(SessionFault::Refused(_)) => {
                own_reason(self.checker.satisfies(&self.assumed, model))
            }
            Err(SessionFault::OutOfMemory) => Err(Stop::OutOfMemory),
        }
    }

    /// This many cores of the last query follow, and the first of them counts.
    pub(super) fn announce(&mut self, count: u64) -> Result<Option<Report>, Stop>
        ensures { IfOk result (λ report. Announces count (progress_of self.old) report
            (progress_of self.new)) }
    {
        let Turn::Answered(Status::Unsatisfiable) = self.turn else {
            return Err(Stop::Line(LineCause::Misplaced));
        };
        self.more = count.saturating_sub(1);
        Ok(None)
    }

    pub(super) fn core(&mut self, core: &[Lit], hints: &[u64]) -> Result<Option<Report>, Stop>
        ensures { IfOk result (λ report.
            Cores core.now hints.now (progress_of self.old) report (progress_of self.new)) }
    {
        match self.turn {
            Turn::Answered(Status::Unsatisfiable) => {
                let reason = self.core_reason(core, hints)?;
                self.turn = Turn::Idle;
                Ok(Some(Report {
                    status: Status::Unsatisfiable,
                    reason,
                }))
            }
            Turn::Idle if self.more > 0 => {
                self.more -= 1;
                Ok(None)
            }
            _ => Err(Stop::Line(LineCause::Misplaced)),
        }
    }

    /// Returns why a core does not show the answer and the core that was told, if it does not.
    fn core_reason(&mut self, core: &[Lit], hints: &[u64]) -> Result<Option<Reason>, Stop>
        ensures exact { IfOk result (IsCoreReason self.old.broken self.old.times
            (core_cause (named_by self.old.checker) self.old.assumed.items self.old.told.items
            hints.now)
            (core_cause (named_by self.old.checker) self.old.assumed.items core.now hints.now)) }
        ensures shown { IfOk result (λ reason. reason ≡ None
            → FailsAsTold self.old.times (given_by self.old.checker) self.old.assumed.items
            self.old.told.items) }
        ensures given { given_by self.new.checker ≡ given_by self.old.checker }
        ensures named { named_by self.new.checker ≡ named_by self.old.checker }
        ensures broken { self.new.broken ≡ self.old.broken }
        ensures more { self.new.more ≡ self.old.more }
    {
        if self.broken {
            return Ok(Some(Reason::Lemma));
        }
        match self.times {
            Times::Never => reason_of(self.checker.fails(&self.assumed, core, hints)),
            Times::Once => self.told_core_reason(core, hints),
            Times::Again => Ok(Some(Reason::SeveralTold)),
        }
    }

    /// Returns why the hints of a core do not show that the told one fails, if they do not.
    fn told_core_reason(&mut self, core: &[Lit], hints: &[u64]) -> Result<Option<Reason>, Stop>
        ensures exact { IfOk result (IsToldReason
            (core_cause (named_by self.old.checker) self.old.assumed.items self.old.told.items
            hints.now)
            (core_cause (named_by self.old.checker) self.old.assumed.items core.now hints.now)) }
        ensures shown { IfOk result (λ reason. reason ≡ None
            → Fails (given_by self.old.checker) self.old.assumed.items self.old.told.items) }
        ensures given { given_by self.new.checker ≡ given_by self.old.checker }
        ensures named { named_by self.new.checker ≡ named_by self.old.checker }
        ensures broken { self.new.broken ≡ self.old.broken }
        ensures more { self.new.more ≡ self.old.more }
    {
        match self.checker.fails(&self.assumed, &self.told, hints) {
            Ok(()) => Ok(None),
            Err(SessionFault::Refused(_)) => {
                own_reason(self.checker.fails(&self.assumed, core, hints))
            }
            Err(SessionFault::OutOfMemory) => Err(Stop::OutOfMemory),
        }
    }
}

/// Returns why an answer is not shown, if it is not.
fn reason_of(outcome: Result<(), SessionFault>) -> Result<Option<Reason>, Stop>
    ensures shown { IfOk result (λ reason. reason ≡ None → IsOk outcome) }
    ensures exact { (cause : Option Refusal) → OnOk outcome (cause ≡ None)
        → IfErr outcome (λ fault. IsCause fault cause) → IfOk result (IsReason cause) }
{
    match outcome {
        Ok(()) => Ok(None),
        Err(SessionFault::Refused(cause)) => Ok(Some(Reason::Refused(cause))),
        Err(SessionFault::OutOfMemory) => Err(Stop::OutOfMemory),
    }
}

/// Returns why an answer is not shown of which what was told is not shown: its own conclusion is
/// rejected, or it shows less.
fn own_reason(outcome: Result<(), SessionFault>) -> Result<Option<Reason>, Stop>
    ensures { (cause : Option Refusal) → OnOk outcome (cause ≡ None)
        → IfErr outcome (λ fault. IsCause fault cause) → IfOk result (IsOwnReason cause) }
{
    match outcome {
        Ok(()) => Ok(Some(Reason::Told)),
        Err(SessionFault::Refused(own)) => Ok(Some(Reason::Refused(own))),
        Err(SessionFault::OutOfMemory) => Err(Stop::OutOfMemory),
    }
}
