//! Why the checker rejects or fails.
ghost use Rattle.std.specs.Prelude.{◌≡◌};
ghost use Rattle.checker_parts.specs.declared.error.StepFault.TheVariants.{OutOfMemory};

use proof_bytes::MalformedStep;
use sat_formula::{DimacsFault, DimacsKind};
use std::alloc::AllocError;
use std::io;
use thiserror::Error;

/// Why a step or an input clause is rejected.
#[derive(Clone, Copy, Debug, PartialEq, Eq, Error)]
pub enum CheckCause {
    #[error("variable is not a sampling variable")]
    NotSampling,
    #[error("clause is a tautology")]
    Tautology,
    #[error("no clause found for hash")]
    NoClauseForHash,
    #[error("AT check failed")]
    AtCheckFailed,
    #[error("delete of unit or empty clause")]
    DeleteUnitOrEmpty,
    #[error("delete of unknown clause")]
    DeleteUnknown,
    #[error("delete of redundant clause which is irredundant")]
    DeleteRedundantIsIrredundant,
    #[error("delete of irredundant clause which is redundant")]
    DeleteIrredundantIsRedundant,
    #[error("deleted clause is not satisfied")]
    NotSatisfied,
    #[error("deleted clause is not subsumed by previous clause")]
    NotSubsumed,
    #[error("deleted variable corresponds to a user variable")]
    DeletedVarNamed,
    #[error("deleted variable still has clauses")]
    DeletedVarHasClauses,
    #[error("cannot sample hidden variable")]
    SampleHidden,
    #[error("user name out of range or used for two different variables")]
    UserNameTaken,
    #[error("user name added to variable which is still hidden")]
    StillHidden,
    #[error("change of user name for in use variable")]
    NameInUse,
    #[error("no user name to remove")]
    NoNameToRemove,
    #[error("model assignment conflicts with unit clause")]
    ModelAgainstUnit,
    #[error("model contains conflicting assignment")]
    ModelAgainstItself,
    #[error("model does not contain assumption")]
    ModelMissesAssumption,
    #[error("model does not satisfy clause")]
    ModelMissesClause,
    #[error("failed core contains non-assumed variables")]
    NotAssumed,
    #[error("unknown variable")]
    UnknownVar,
    #[error("hash width out of range")]
    HashBits,
    #[error("failed core contains hidden variable")]
    CoreVarHidden,
    #[error("model after unsatisfiability")]
    ModelAfterUnsat,
    #[error("no clause id left")]
    IdsExhausted,
    #[error("clause count exhausted")]
    CountExhausted,
    #[error("no step number left")]
    StepsExhausted,
}

/// Why a call of the checker failed.
#[derive(Debug, Drop, Error)]
pub enum CheckerError {
    /// The proof's text ended before the step `End`.
    #[error("step {step}: Unexpected end of proof file")]
    ProofIncomplete {
        step: u64,
    },
    /// A read of the proof failed.
    #[error("step {step}: Error reading proof file: {cause}")]
    IoError {
        step: u64,
        cause: io::Error,
    },
    /// The text's first malformed field.
    #[error("step {step}: Could not parse proof step: {cause}")]
    ParseError {
        step: u64,
        cause: MalformedStep,
    },
    /// A step was rejected. `debug_step` shows a rejected proof step. It is empty for input
    /// clauses, for the steps `UserVarName` and `Assumptions`, for a closing conflict, for a step
    /// without a number, and if there was no memory for it.
    #[error("step {step}: Checking proof failed: {msg}")]
    CheckFailed {
        step: u64,
        msg: CheckCause,
        debug_step: String,
    },
    /// A processor returned an error: the checker has failed.
    #[error("Error in proof processor: {cause}")]
    ProofProcessorError {
        cause: anyhow::Error,
    },
    /// An allocation failed: the checker has failed, except after a failed registration.
    #[error("out of memory")]
    OutOfMemory,
    /// The checker had failed before the call, which did nothing.
    #[error("checker has failed")]
    Failed,
}

/// Why a step is not accepted. It is small, since every step returns it; the error is made of it
/// where the call ends.
#[derive(Clone, Copy, Debug, PartialEq, Eq)]
pub enum StepFault {
    /// The step is rejected.
    Refused(CheckCause),
    /// A processor or a transcript returned an error.
    Processor,
    /// An allocation failed.
    OutOfMemory,
}

impl From<AllocError> for StepFault {
    ghost from_gives = { λ _ fault. fault ≡ OutOfMemory };

    fn from(_refused: AllocError) -> StepFault {
        StepFault::OutOfMemory
    }
}

/// Why a DIMACS text was not added whole. The clauses that ended before stay.
#[derive(Debug, Drop, Error)]
pub enum DimacsError {
    /// A read failed.
    #[error("error reading formula: {0}")]
    Read(io::Error),
    /// The text's first fault, and its line.
    #[error("line {line}: {kind}")]
    Malformed { line: u64, kind: DimacsKind },
    /// The checker's own error, or that the reader was out of memory.
    #[error("{0}")]
    Checker(CheckerError),
}

impl From<DimacsFault> for DimacsError {
    ghost use Rattle.checker_parts.specs.TextErrors.{of_text};

    ghost from_gives = { λ fault error. error ≡ of_text fault };

    fn from(fault: DimacsFault) -> DimacsError {
        match fault {
            DimacsFault::Read(cause) => DimacsError::Read(cause),
            DimacsFault::Malformed { line, kind } => DimacsError::Malformed { line, kind },
            DimacsFault::OutOfMemory => DimacsError::Checker(CheckerError::OutOfMemory),
        }
    }
}
