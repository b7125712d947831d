//! What a walk over the named clauses does at each of them.
use crate::clauses::Clause;
use crate::clauses::units::Units;
use sat_formula::lit::Lit;
use std::alloc::AllocError;

/// Takes literals as false and visits clauses one after the other. Keeps which values it overwrote,
/// and may list what it used.
pub trait Walker {
    ghost use Rattle.std.specs.Prelude.{◌≡◌, ◌∷◌, [], ℕ, IfOk, List, Option, false, length};
    ghost use Rattle.sat_rules.specs.Clauses.{is_tautology};
    ghost use Rattle.checker_rules.specs.State.{Stored, StoredUnit, some_true_unit, start_set};
    ghost use Rattle.clause_store.specs.declared.clauses.units.UnitClause.{UnitClause};
    ghost use Rattle.clause_store.specs.Idle.{Lengthens};
    ghost use Rattle.clause_store.specs.Lits.{IsWithin, lits_of};
    ghost use Rattle.clause_store.specs.Rup.{Walks, lits_in, true_lits};
    ghost use Rattle.clause_store.specs.StateOf.{stored_units};
    ghost use Rattle.clause_store.specs.Trace.{AreStored, Listing, Lists, Opens};
    ghost use Rattle.clause_store.specs.Trail.{IsTrailFor, IsUndoable, undone};
    ghost use Rattle.clause_store.specs.Units.{AreKnown};
    ghost use Rattle.clause_store.specs.View.{stored_of};

    /// The overwritten values of the literals' variables, the oldest first.
    ghost written: { Self → List (ℕ × Option UnitClause) };

    /// The ids listed so far.
    ghost ids: { Self → List ℕ };

    /// Which ids it has listed after a walk that meets a falsified clause.
    ghost after: { Listing };

    /// Which ids it has listed after a check that passes, by the stored units, the literals of the
    /// clause and the named clauses.
    ghost check_ids: { List (Option StoredUnit) → List ℕ → List Stored → List ℕ };

    /// Returns how many values it overwrote.
    fn trail_len(&self) -> usize
        ensures { result ≡ length (written self.now) };

    /// Takes the literals as false, unless one of them is true already. Returns whether one is.
    ///
    /// # Errors
    ///
    /// `AllocError` if memory runs out.
    fn assume(&mut self, units: &mut Units, lits: &[Lit]) -> Result<bool, AllocError>
        requires known { AreKnown units.old lits.now }
        requires stored { AreStored units.old }
        requires no_tautology { is_tautology lits.now ≡ false }
        requires trail { IsTrailFor units.old (written self.old) }
        requires ids { ids self.old ≡ [] }
        ensures met { IfOk result (λ met.
            met ≡ some_true_unit (stored_units units.old) lits.now) }
        ensures ok { IfOk result (λ met. met ≡ false
            → true_lits units.new ≡ start_set (stored_units units.old) lits.now) }
        ensures opens { IfOk result (Opens after (ids self.new) units.new
            (check_ids (stored_units units.old) lits.now)) }
        ensures undoable { IsUndoable units.old (written self.old) units.new (written self.new) };

    /// Assigns true to the only unassigned literal of a clause whose other literals are false.
    /// Returns whether the clause is falsified.
    ///
    /// # Errors
    ///
    /// `AllocError` if memory runs out.
    fn visit(
        &mut self,
        units: &mut Units,
        clause: &Clause,
        buffer: &[Lit],
    ) -> Result<bool, AllocError>
        requires within { IsWithin clause.now.lits buffer.now }
        requires known { AreKnown units.old (lits_of clause.now.lits buffer.now) }
        requires trail { IsTrailFor units.old (written self.old) }
        ensures ok { IfOk result (Walks units.old (lits_in buffer.now (clause.now ∷ []))
            units.new) }
        ensures listed { IfOk result (Lists after (ids self.old) units.old
            (stored_of buffer.now clause.now ∷ []) (ids self.new) units.new) }
        ensures lengthens { IfOk result (λ falsified. falsified ≡ false
            → Lengthens (ids self.old) units.old (length (written self.old))
            (ids self.new) units.new (length (written self.new))) }
        ensures undoable { IsUndoable units.old (written self.old) units.new (written self.new) };

    /// Puts the overwritten values back.
    fn undo(&mut self, units: &mut Units)
        requires { IsTrailFor units.old (written self.old) }
        ensures units { units.new ≡ undone units.old (written self.old) }
        ensures trail { written self.new ≡ [] }
        ensures ids { ids self.new ≡ ids self.old };
}
