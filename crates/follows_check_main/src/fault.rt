//! What is said of a run that has no verdict, and of one that shows less than was asked.
use answer_text::AnswerFault;
use command::FaultPlace;
use follows_check::{ProofFormat, QuestionFault, RunFault, Verdict};
use sat_formula::DimacsFault;
use std::io;
use std::io::Eprint;
use verdicts::Unshown;

pub(crate) fn unread_formula(fault: io::Error) -> QuestionFault {
    QuestionFault::Formula(DimacsFault::of_error(fault))
}

pub(crate) fn unread_claims(fault: io::Error) -> QuestionFault {
    QuestionFault::Claims(DimacsFault::of_error(fault))
}

pub(crate) fn unread_answer(fault: io::Error) -> RunFault {
    RunFault::Answer(AnswerFault::of_error(fault))
}

/// In which file the fault is, where these claims are read.
pub(crate) fn place_of<'a>(
    fault: &Unshown<RunFault>,
    format: ProofFormat,
    claims: &'a str,
) -> FaultPlace<'a> {
    match fault {
        Unshown::Fault(RunFault::Question(fault)) => place_in_question(fault, claims),
        Unshown::Fault(RunFault::Proof(_)) if format == ProofFormat::Lpr => FaultPlace::LratProof,
        Unshown::Fault(RunFault::Proof(_)) => FaultPlace::DratProof,
        Unshown::Fault(RunFault::Answer(_)) => FaultPlace::Answer,
        Unshown::Fault(RunFault::Cut(_)) => FaultPlace::Formula(None),
        Unshown::Write(_) => FaultPlace::Elsewhere,
    }
}

/// In which file the fault is of a formula for the solver, which is written to this one.
pub(crate) fn place_of_question<'a>(
    fault: &Unshown<QuestionFault>,
    claims: &'a str,
    file: &'a str,
) -> FaultPlace<'a> {
    match fault {
        Unshown::Fault(fault) => place_in_question(fault, claims),
        Unshown::Write(_) => FaultPlace::Output(Some(file)),
    }
}

fn place_in_question<'a>(fault: &QuestionFault, claims: &'a str) -> FaultPlace<'a> {
    match fault {
        QuestionFault::Formula(fault) => FaultPlace::in_formula(fault),
        QuestionFault::Claims(fault) => FaultPlace::in_wanted(claims, fault),
        QuestionFault::FewClaims | QuestionFault::NoClaim | QuestionFault::ManyVariables => {
            FaultPlace::Wanted(claims, None)
        }
        QuestionFault::OutOfMemory => FaultPlace::Elsewhere,
    }
}

/// Says on standard error which claim fails, or why an answer shows nothing.
pub(crate) fn say_verdict<R: Eprint>(rt: &R, verdict: Verdict) {
    let _ = match verdict {
        Verdict::Follows | Verdict::Open => Ok(()),
        Verdict::NotFollows { claim, line } => {
            eprintln!(rt; "claims: line {line}: claim {claim} fails")
        }
        Verdict::Unmet { clause, line } => {
            eprintln!(rt; "formula: line {line}: clause {clause} has no literal of the answer")
        }
        Verdict::NoneFails => eprintln!(rt; "claims: the answer fails none"),
    };
}
