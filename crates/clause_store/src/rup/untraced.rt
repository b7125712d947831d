//! The check that is not traced: it writes values alone, and only those of free variables.
ghost use Rattle.std.specs.Prelude.{◌≡◌, ◌+◌, ◌<◌, None, length, OnOk};
ghost use Rattle.sat_rules.specs.Clauses.{var_of};
ghost use Rattle.clause_store.specs.Trail.{IsTrailFor, IsUndoable, freed, undone};
ghost use Rattle.clause_store.specs.Units.{IsGiven, unit_at};

use crate::clauses::Clause;
use crate::clauses::units::Units;
use crate::rup::status::{ClauseStatus, clause_status};
use crate::rup::walker::Walker;
use sat_formula::lit::Lit;
use std::alloc::AllocError;

/// The literals whose variables were given a value, the oldest first.
pub type FreeTrail = Vec<Lit>;

/// Gives a free variable a value, by which its literal is listed.
#[inline]
fn give(units: &mut Units, trail: &mut FreeTrail, lit: Lit, value: bool) -> Result<(), AllocError>
    requires known { var_of lit < length units.old }
    requires free { unit_at units.old (var_of lit) ≡ None }
    requires trail { IsTrailFor units.old (freed trail.old.items) }
    ensures ok { OnOk result (IsGiven units.old (var_of lit) value units.new) }
    ensures longer { OnOk result (length trail.new.items ≡ length trail.old.items + 1) }
    ensures undoable { IsUndoable units.old (freed trail.old.items)
        units.new (freed trail.new.items) }
{
    trail.push(lit)?;
    units.give(lit.index(), value);
    Ok(())
}

/// Takes the values of the literals' variables away, in any order.
fn free_all(units: &mut Units, lits: &[Lit])
    requires { IsTrailFor units.old (freed lits.now) }
    ensures { units.new ≡ undone units.old (freed lits.now) }
{
    for lit in lits {
        units.free(lit.index());
    }
}

/// Lists nothing.
impl Walker for FreeTrail {
    ghost use Rattle.std.specs.Prelude.{[], Some};
    ghost use Rattle.clause_store.specs.Trail.{freed};

    ghost written = { λ trail. freed trail.items };

    ghost ids = { λ trail. [] };

    ghost after = { λ ids us cs. Some ids };

    ghost check_ids = { λ us c cs. [] };

    #[inline]
    fn trail_len(&self) -> usize {
        self.len()
    }

    fn assume(&mut self, units: &mut Units, lits: &[Lit]) -> Result<bool, AllocError> {
        for lit in lits {
            match units.known_lit_value(*lit) {
                Some(true) => return Ok(true),
                Some(false) => {}
                None => give(units, self, *lit, lit.is_negative())?,
            }
        }
        Ok(false)
    }

    #[inline(always)]
    fn visit(
        &mut self,
        units: &mut Units,
        clause: &Clause,
        buffer: &[Lit],
    ) -> Result<bool, AllocError> {
        let lits = clause.lits.slice(buffer);
        match clause_status(units, lits) {
            ClauseStatus::Falsified => Ok(true),
            ClauseStatus::Unit(lit) => {
                give(units, self, lit, lit.is_positive())?;
                Ok(false)
            }
            ClauseStatus::Idle => Ok(false),
        }
    }

    fn undo(&mut self, units: &mut Units) {
        free_all(units, self.as_slice());
        self.clear();
    }
}
