//! Why lines of hints are rejected.
ghost use Rattle.std.specs.Prelude.{◌≡◌};
ghost use Rattle.hint_checker.specs.Checked.{in_line};
ghost use Rattle.hint_checker.specs.Given.{of_bytes, of_text, of_untaken};
ghost use Rattle.hint_checker.specs.declared.fault.LineFault.TheVariants as lines;

use lrat_binary::UntakenLine;
use lrat_text::LratTextFault;
use std::alloc::AllocError;
use std::io;
use thiserror::Error;

/// Why a checker of hints rejects a text. Lines count from 1 in each text.
#[derive(Clone, Copy, Debug, PartialEq, Eq, Error)]
pub enum HintFault {
    /// The line is no line of hints. With line 0: an earlier text was rejected.
    #[error("line {line}: malformed line")]
    Malformed { line: u64 },
    /// An id that is not greater than all before it.
    #[error("line {line}: id is not greater than those before")]
    IdNotGreater { line: u64 },
    /// A hint that names no clause.
    #[error("line {line}: no clause has the id of a hint")]
    UnknownId { line: u64 },
    /// A hint before the last whose clause is not unit.
    #[error("line {line}: clause of a hint is not unit")]
    NotUnit { line: u64 },
    /// No hint, or a last one whose clause is not falsified.
    #[error("line {line}: hints end without a conflict")]
    NoConflict { line: u64 },
    /// There was no memory for what the lines say.
    #[error("out of memory")]
    OutOfMemory,
}

/// Why a checker of hints rejects the text of a reader.
#[derive(Debug, Drop, Error)]
pub enum HintTextFault {
    /// A read failed, or the text is longer than any that is read.
    #[error("error reading hints: {0}")]
    Read(io::Error),
    /// A line was rejected, or there was not enough memory.
    #[error("{0}")]
    Refused(HintFault),
}

impl From<LratTextFault> for HintTextFault {
    ghost from_gives = { λ fault r. r ≡ of_text fault };

    fn from(fault: LratTextFault) -> HintTextFault {
        match fault {
            LratTextFault::Read(cause) => HintTextFault::Read(cause),
            LratTextFault::Wrong { at, .. } => {
                HintTextFault::Refused(HintFault::Malformed { line: at.0 })
            }
            LratTextFault::OutOfMemory => HintTextFault::Refused(HintFault::OutOfMemory),
        }
    }
}

impl From<UntakenLine<LineFault>> for HintTextFault {
    ghost from_gives = { λ untaken r. r ≡ of_untaken untaken };

    fn from(untaken: UntakenLine<LineFault>) -> HintTextFault {
        match untaken {
            UntakenLine::Proof(fault) => HintTextFault::from(fault),
            UntakenLine::Sink { line, fault } => HintTextFault::Refused(fault.in_line(line)),
        }
    }
}

impl HintTextFault {
    /// Returns the fault of a text in memory. No read of it fails, so an error of one is that there
    /// was no memory.
    pub(crate) fn of_bytes(self) -> HintFault
        ensures { result ≡ of_bytes self }
    {
        match self {
            HintTextFault::Refused(fault) => fault,
            HintTextFault::Read(_) => HintFault::OutOfMemory,
        }
    }
}

/// Why a line is rejected, before it is known which line it is.
#[derive(Clone, Copy, Debug, PartialEq, Eq)]
pub enum LineFault {
    /// The line is no line of hints, or an earlier one was rejected.
    Malformed,
    /// Its id is not greater than all before it.
    IdNotGreater,
    /// A hint names no clause.
    UnknownId,
    /// A hint before the last has a clause that is not unit.
    NotUnit,
    /// There is no hint, or the last has a clause that is not falsified.
    NoConflict,
    /// There was no memory for what the line says.
    OutOfMemory,
}

impl LineFault {
    /// Returns the fault of the line of that number.
    pub fn in_line(self, line: u64) -> HintFault
        ensures { result ≡ in_line self line }
    {
        match self {
            LineFault::Malformed => HintFault::Malformed { line },
            LineFault::IdNotGreater => HintFault::IdNotGreater { line },
            LineFault::UnknownId => HintFault::UnknownId { line },
            LineFault::NotUnit => HintFault::NotUnit { line },
            LineFault::NoConflict => HintFault::NoConflict { line },
            LineFault::OutOfMemory => HintFault::OutOfMemory,
        }
    }
}

impl From<AllocError> for LineFault {
    ghost from_gives = { λ _ fault. fault ≡ lines.OutOfMemory };

    fn from(_e: AllocError) -> LineFault {
        LineFault::OutOfMemory
    }
}
