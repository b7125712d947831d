//! Why a run has no verdict.
use receipts::ReceiptFault;
use sat_formula::DimacsFault;
use thiserror::Error;

/// Why a run has no verdict.
#[derive(Debug, Drop, Error)]
pub enum RunFault {
    /// The receipts were not read whole.
    #[error("receipts: {0}")]
    Receipts(ReceiptFault),
    /// The formula was not read whole.
    #[error("formula: {0}")]
    Formula(DimacsFault),
    /// The cubes were not read whole.
    #[error("cubes: {0}")]
    Cubes(DimacsFault),
    /// There was no memory for what the receipts show or for the texts of the parts.
    #[error("out of memory")]
    OutOfMemory,
}
