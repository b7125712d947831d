//! The check that lists what it uses.
ghost use Rattle.std.specs.Prelude.{◌≡◌, []};

use crate::clauses::Clause;
use crate::clauses::units::{UnitClause, UnitId, Units};
use crate::rup::status::{ClauseStatus, clause_status};
use crate::rup::trace::list_units;
use crate::rup::trail::{Trail, assume_false, overwrite, undo};
use crate::rup::walker::Walker;
use sat_formula::lit::Lit;
use std::alloc::{AllocError, Global};

/// What a traced check overwrites and lists.
#[derive(Drop)]
pub struct Propagation {
    pub trail: Trail,
    /// The ids listed so far.
    pub trace: Vec<u64>,
}

impl Propagation {
    /// Returns an empty trail and trace. Allocates no memory.
    pub fn new(alloc: Global) -> Propagation
        ensures trail { result.trail.items ≡ [] }
        ensures trace { result.trace.items ≡ [] }
    {
        Propagation {
            trail: Vec::new(alloc),
            trace: Vec::new(alloc),
        }
    }
}

/// Lists the stored unit that makes a literal of the clause true; or else those that make literals
/// false, and each clause that is falsified or makes a literal true.
impl Walker for Propagation {
    ghost use Rattle.clause_store.specs.Trace.{clause_trace, ids_after};

    ghost written = { λ run. run.trail.items };

    ghost ids = { λ run. run.trace.items };

    ghost after = { ids_after };

    ghost check_ids = { clause_trace };

    #[inline]
    fn trail_len(&self) -> usize {
        self.trail.len()
    }

    fn assume(&mut self, units: &mut Units, lits: &[Lit]) -> Result<bool, AllocError> {
        if let Some(id) = units.true_unit_id(lits) {
            self.trace.push(id)?;
            return Ok(true);
        }
        assume_false(units, &mut self.trail, lits)?;
        Ok(false)
    }

    fn visit(
        &mut self,
        units: &mut Units,
        clause: &Clause,
        buffer: &[Lit],
    ) -> Result<bool, AllocError> {
        let lits = clause.lits.slice(buffer);
        let status = clause_status(units, lits);
        list_units(units, &mut self.trail, &mut self.trace, lits)?;
        match status {
            ClauseStatus::Falsified => {
                self.trace.push(clause.id)?;
                Ok(true)
            }
            ClauseStatus::Unit(lit) => {
                let unit = UnitClause {
                    id: UnitId::TracePos(self.trace.len()),
                    value: lit.is_positive(),
                };
                self.trace.push(clause.id)?;
                overwrite(units, &mut self.trail, lit, unit)?;
                Ok(false)
            }
            ClauseStatus::Idle => Ok(false),
        }
    }

    fn undo(&mut self, units: &mut Units) {
        undo(units, &mut self.trail);
    }
}
