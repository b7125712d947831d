//! Why receipts were not read.
ghost use Rattle.std.specs.Prelude.{◌≡◌};
ghost use Rattle.receipts.specs.declared.fault.ReceiptFault.TheVariants.{OutOfMemory};

use std::alloc::{AllocError, AllocFailed};
use std::io;
use thiserror::Error;

/// Why receipts were not read.
#[derive(Debug, Drop, Error)]
pub enum ReceiptFault {
    /// A read failed.
    #[error("{0}")]
    Read(io::Error),
    /// The line of this number, from 1, does not begin as a receipt of any kind.
    #[error("line {line}: no receipt of a known kind")]
    UnknownKind { line: u64 },
    /// The line of this number, from 1, begins as a receipt and is none.
    #[error("line {line}: malformed receipt")]
    Malformed { line: u64 },
    #[error("out of memory")]
    OutOfMemory,
}

impl From<AllocError> for ReceiptFault {
    ghost from_gives = { λ _ result. result ≡ OutOfMemory };

    fn from(_e: AllocError) -> ReceiptFault {
        ReceiptFault::OutOfMemory
    }
}

impl<T: Drop> From<AllocFailed<T>> for ReceiptFault {
    ghost from_gives = { λ _ result. result ≡ OutOfMemory };

    fn from(_e: AllocFailed<T>) -> ReceiptFault {
        ReceiptFault::OutOfMemory
    }
}
