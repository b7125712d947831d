//! Why a run comes to no verdict.
use answer_text::AnswerFault;
use circuit_clauses::ClausesFault;
use circuit_names::PairFault;
use circuit_text::AigerFault;
use drat_check::RunFault;
use std::io;
use stimulus_text::StimulusFault;
use thiserror::Error;

/// What a run returns in place of a verdict.
#[derive(Debug, Drop, Error)]
pub enum CircuitFault {
    /// The circuit, or the first one of two, was not read.
    #[error("circuit: {0}")]
    Unread(AigerFault),
    /// The second circuit, or the invariant, was not read.
    #[error("second circuit: {0}")]
    OtherUnread(AigerFault),
    /// A circuit has latches, bad state properties or invariant constraints.
    #[error("a circuit with latches, bad state properties or invariant constraints")]
    Sequential,
    /// The inputs and outputs of two circuits can't be paired by their names.
    #[error("names: {0}")]
    Unpaired(PairFault),
    /// There is no formula of the circuits.
    #[error("{0}")]
    NoFormula(ClausesFault),
    /// The answer was not read whole, or is not that the formula is satisfiable.
    #[error("answer: {0}")]
    Answer(AnswerFault),
    /// There is no verdict on the proof.
    #[error("{0}")]
    Proof(RunFault),
    /// There is no verdict on the proof that the invariant is true at first.
    #[error("initial states: {0}")]
    InitialProof(RunFault),
    /// There is no verdict on the proof that the invariant stays true.
    #[error("step: {0}")]
    StepProof(RunFault),
    /// There is no verdict on the proof that the invariant excludes bad outputs.
    #[error("bad states: {0}")]
    BadProof(RunFault),
    /// The formula could not be written.
    #[error("error writing: {0}")]
    Formula(io::Error),
    /// The verdict's line could not be written.
    #[error("error writing: {0}")]
    Write(io::Error),
}

/// What a run of a stimulus returns in place of a verdict.
#[derive(Debug, Drop, Error)]
pub enum ReachFault {
    /// The machine was not read.
    #[error("circuit: {0}")]
    Unread(AigerFault),
    /// The stimulus was not read whole, or does not fit the machine.
    #[error("stimulus: {0}")]
    Stimulus(StimulusFault),
    /// The machine was not run.
    #[error("{0}")]
    NotRun(ClausesFault),
    /// The verdict's line could not be written.
    #[error("error writing: {0}")]
    Write(io::Error),
}
