//! Why a run has no verdict.
ghost use Rattle.std.specs.Prelude.{◌≡◌};
ghost use Rattle.drat_check.specs.declared.fault.ProofFault.TheVariants.{OutOfMemory, Refused, Unread, UnreadLine};

use drat_elaborate::ElaborateFault;
use drat_text::DratFault;
use lrat_checker::LineFault;
use lrat_text::LratTextFault;
use sat_formula::DimacsFault;
use std::alloc::AllocError;
use std::io;
use thiserror::Error;

/// Why a proof has no verdict.
#[derive(Debug, Drop, Error)]
pub enum ProofFault {
    /// The proof could not be read up to a conflict.
    #[error("proof: {0}")]
    Unread(DratFault),
    /// The lines of an LPR proof could not be read up to a conflict.
    #[error("proof: {0}")]
    UnreadLine(LratTextFault),
    /// A step that the conflict needs is wrong, or the proof is too large.
    #[error("proof: {0}")]
    Refused(ElaborateFault),
    /// The checker of LRAT proofs rejected a line of the elaborator: a defect of the elaborator.
    #[error("internal: line {line} refused: {fault}")]
    Internal { line: u64, fault: LineFault },
    /// The elaborated lines end before the empty clause: a defect of the elaborator.
    #[error("internal: no empty clause in the lines")]
    Unfinished,
    /// There was no memory in the checker, for the formula or for an elaborated line.
    #[error("proof: out of memory")]
    OutOfMemory,
}

/// Why a run has no verdict.
#[derive(Debug, Drop, Error)]
pub enum RunFault {
    /// The formula was not read whole.
    #[error("formula: {0}")]
    Formula(DimacsFault),
    /// There is no verdict on the proof.
    #[error("{0}")]
    Proof(ProofFault),
    /// The lines of the LRAT proof could not be written.
    #[error("error writing: {0}")]
    Lrat(io::Error),
    /// The steps of the trimmed proof could not be written.
    #[error("error writing: {0}")]
    Trim(io::Error),
    /// The used clauses could not be written.
    #[error("error writing: {0}")]
    Core(io::Error),
}

impl From<DratFault> for ProofFault {
    ghost from_gives = { λ fault result. result ≡ Unread fault };

    fn from(fault: DratFault) -> ProofFault {
        ProofFault::Unread(fault)
    }
}

impl From<LratTextFault> for ProofFault {
    ghost from_gives = { λ fault result. result ≡ UnreadLine fault };

    fn from(fault: LratTextFault) -> ProofFault {
        ProofFault::UnreadLine(fault)
    }
}

impl From<ElaborateFault> for ProofFault {
    ghost from_gives = { λ fault result. result ≡ Refused fault };

    fn from(fault: ElaborateFault) -> ProofFault {
        ProofFault::Refused(fault)
    }
}

impl From<AllocError> for ProofFault {
    ghost from_gives = { λ _ result. result ≡ OutOfMemory };

    fn from(_e: AllocError) -> ProofFault {
        ProofFault::OutOfMemory
    }
}
