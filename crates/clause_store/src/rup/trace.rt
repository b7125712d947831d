//! The trace of a check: the ids of what it uses.
ghost use Rattle.std.specs.Prelude.{◌≡◌, ◌<◌, ◌∷◌, ℕ, List, Some, false, length, OnOk};
ghost use Rattle.sat_rules.specs.Clauses.{var_of};
ghost use Rattle.clause_store.specs.Idle.{Lengthens};
ghost use Rattle.clause_store.specs.Rup.{true_lits};
ghost use Rattle.clause_store.specs.Trace.{KeepsStored, looked, unlisted_lits};
ghost use Rattle.clause_store.specs.Trail.{IsTrailFor, IsUndoable};
ghost use Rattle.clause_store.specs.Units as values;
ghost use Rattle.clause_store.specs.Units.{AreKnown};

use crate::clauses::units::{UnitClause, UnitId, Units};
use crate::rup::trail::{Trail, overwrite};
use sat_formula::lit::Lit;
use std::alloc::AllocError;

/// Lists each stored unit that makes a literal false, up to a literal that is true.
///
/// A unit that is listed gets another id, so that it is listed once.
///
/// # Errors
///
/// `AllocError` if memory runs out; the stored units are unchanged.
pub fn list_units(
    units: &mut Units,
    trail: &mut Trail,
    trace: &mut Vec<u64>,
    lits: &[Lit],
) -> Result<(), AllocError>
    requires known { AreKnown units.old lits.now }
    requires trail { IsTrailFor units.old trail.old.items }
    ensures listed { OnOk result (looked trace.old.items units.old lits.now
        ≡ (trace.new.items, unlisted_lits units.new)) }
    ensures kept { KeepsStored units.old units.new }
    ensures true_lits { true_lits units.new ≡ true_lits units.old }
    ensures lengthens { OnOk result (Lengthens
        trace.old.items units.old (length trail.old.items)
        trace.new.items units.new (length trail.new.items)) }
    ensures undoable { IsUndoable units.old trail.old.items units.new trail.new.items }
{
    for lit in lits {
        match units.lit_value(*lit) {
            Some(true) => return Ok(()),
            Some(false) => list_unit(units, trail, trace, *lit)?,
            None => {}
        }
    }
    Ok(())
}

/// Lists the unit that makes the literal false, if it is a stored one.
fn list_unit(
    units: &mut Units,
    trail: &mut Trail,
    trace: &mut Vec<u64>,
    lit: Lit,
) -> Result<(), AllocError>
    requires known { var_of lit < length units.old }
    requires is_false { values.lit_value units.old lit ≡ Some false }
    requires trail { IsTrailFor units.old trail.old.items }
    // Whatever literals follow it.
    ensures listed { OnOk result ((rest : List ℕ)
        → looked trace.old.items units.old (lit ∷ rest) ≡ looked trace.new.items units.new rest) }
    ensures kept { KeepsStored units.old units.new }
    ensures true_lits { true_lits units.new ≡ true_lits units.old }
    ensures lengthens { OnOk result (Lengthens
        trace.old.items units.old (length trail.old.items)
        trace.new.items units.new (length trail.new.items)) }
    ensures undoable { IsUndoable units.old trail.old.items units.new trail.new.items }
{
    if let Some(id) = units.stored_id(lit.index()) {
        let renamed = UnitClause {
            id: UnitId::TracePos(trace.len()),
            value: lit.is_negative(),
        };
        trace.push(id)?;
        overwrite(units, trail, lit, renamed)?;
    }
    Ok(())
}
