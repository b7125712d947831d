//! What the check of a line works with.
use crate::met::MetIds;
use clause_table::Values;
use std::alloc::Global;

/// The assignment, and the ids whose candidates passed.
#[derive(Drop)]
pub(crate) struct Work {
    pub(crate) values: Values,
    pub(crate) met_ids: MetIds,
}

impl Work {
    /// Returns an empty assignment, and no ids. Allocates no memory.
    pub(crate) fn new(alloc: Global) -> Work {
        Work {
            values: Values::new(alloc),
            met_ids: MetIds::new(alloc),
        }
    }
}
