//! Values that hold during a check only: what they overwrite is kept, and put back afterwards.
ghost use Rattle.std.specs.Prelude.{◌≡◌, ◌+◌, ◌<◌, [], Some, false, length, OnOk, OnErr, slice_set};
ghost use Rattle.sat_rules.specs.Clauses.{is_tautology, var_of};
ghost use Rattle.checker_rules.specs.Hints.{unlisted_at};
ghost use Rattle.checker_rules.specs.State.{some_true_unit, start_set};
ghost use Rattle.clause_store.specs.Rup.{true_lits};
ghost use Rattle.clause_store.specs.StateOf.{stored_units};
ghost use Rattle.clause_store.specs.Trace.{AreStored, KeepsStored, unlisted_lits};
ghost use Rattle.clause_store.specs.Trail.{IsTrailFor, IsUndoable, undone};
ghost use Rattle.clause_store.specs.Units.{AreKnown};

use crate::clauses::units::{Overwritten, UnitClause, UnitId, Units};
use sat_formula::lit::Lit;
use std::alloc::AllocError;

/// The overwritten values of the literals' variables, the oldest first.
pub type Trail = Vec<Overwritten>;

/// Assigns a value to the literal's variable, and records the old one on the trail.
///
/// # Errors
///
/// `AllocError` if memory runs out; the units are unchanged.
pub fn overwrite(
    units: &mut Units,
    trail: &mut Trail,
    lit: Lit,
    unit: UnitClause,
) -> Result<(), AllocError>
    requires known { var_of lit < length units.old }
    requires trail { IsTrailFor units.old trail.old.items }
    ensures ok { OnOk result (units.new ≡ slice_set units.old (var_of lit) (Some unit)) }
    ensures longer { OnOk result (length trail.new.items ≡ length trail.old.items + 1) }
    ensures err { OnErr result (units.new ≡ units.old) }
    ensures undoable { IsUndoable units.old trail.old.items units.new trail.new.items }
{
    trail.push(units.kept(lit))?;
    units.set(lit.index(), Some(unit));
    Ok(())
}

/// Assigns false to every literal.
///
/// # Errors
///
/// `AllocError` if memory runs out; the stored units are unchanged.
pub fn assume_false(units: &mut Units, trail: &mut Trail, lits: &[Lit]) -> Result<(), AllocError>
    requires known { AreKnown units.old lits.now }
    requires stored { AreStored units.old }
    requires free { some_true_unit (stored_units units.old) lits.now ≡ false }
    requires no_tautology { is_tautology lits.now ≡ false }
    requires trail { IsTrailFor units.old trail.old.items }
    ensures ok { OnOk result (true_lits units.new ≡ start_set (stored_units units.old) lits.now) }
    ensures unlisted { OnOk result (unlisted_lits units.new
        ≡ unlisted_at (stored_units units.old) lits.now) }
    ensures kept { KeepsStored units.old units.new }
    ensures undoable { IsUndoable units.old trail.old.items units.new trail.new.items }
{
    for lit in lits {
        let unit = UnitClause {
            id: UnitId::InClause,
            value: lit.is_negative(),
        };
        overwrite(units, trail, *lit, unit)?;
    }
    Ok(())
}

/// Puts the overwritten values back.
pub fn undo(units: &mut Units, trail: &mut Trail)
    requires { IsTrailFor units.old trail.old.items }
    ensures units { units.new ≡ undone units.old trail.old.items }
    ensures trail { trail.new.items ≡ [] }
{
    while let Some(old) = trail.pop() {
        units.put_back(old);
    }
}
