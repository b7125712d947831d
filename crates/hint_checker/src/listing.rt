//! The clauses of a checker of hints.
ghost use Rattle.std.specs.Prelude.{◌≡◌, ◌+◌, ◌-◌, ◌^◌, ℕ, Bool, Option, None, length, min, IfErr, IfOk, OnOk};
ghost use Rattle.sat_rules.specs.HintLines.{HintCause, adds_clause, after_line, drop_ids, hints_cause, line_cause, listing, next_cause, unit_among};
ghost use Rattle.sat_rules.specs.Named.{drop_id, put_id};
ghost use Rattle.hint_checker.specs.Checked.{IsCause, cause_of};
ghost use Rattle.hint_checker.specs.Held.{IsSmall, held_by};
ghost use Rattle.clause_table.specs.Values.{among};
ghost use Rattle.std.specs.Option.{option_map};

use crate::fault::LineFault;
use clause_table::{Left, NamedClauses, Values};
use sat_formula::{CnfFormula, Lit};
use std::alloc::{AllocError, Global};

/// The clauses under their ids, and what was added.
#[derive(Drop)]
pub(crate) struct Listing {
    clauses: NamedClauses,
    /// The greatest id so far, or 0.
    greatest: u64,
    added_empty: bool,
    /// How many literals were stored so far.
    stored: u64,
}

impl Listing {
    /// Returns the clauses of a formula under 1, 2 and so on.
    pub(crate) fn new(alloc: Global, formula: &CnfFormula) -> Result<Listing, AllocError>
        ensures held { IfOk result (λ made. held_by made ≡ listing formula.now) }
        ensures small { IfOk result (λ made. IsSmall made) }
    {
        let mut held = Listing {
            clauses: NamedClauses::new(alloc, formula.len())?,
            greatest: 0,
            added_empty: false,
            stored: 0,
        };
        for clause in formula {
            let id = held.greatest + 1;
            held.put(id, clause)?;
        }
        Ok(held)
    }

    /// Puts a clause under an id.
    fn put(&mut self, id: u64, clause: &[Lit]) -> Result<(), AllocError>
        ensures put { OnOk result (held_by self.new
            ≡ record (held_by self.old) {
              machine = put_id id clause.now
                  (held_by self.old).machine;
            }) }
        ensures stored { OnOk result (self.new.stored
            ≡ min (self.old.stored + length clause.now) (2 ^ 64 - 1)) }
        ensures small { IsSmall self.old → OnOk result (IsSmall self.new) }
    {
        self.clauses.put(id, clause)?;
        self.greatest = id;
        self.stored = self.stored.saturating_add(clause.len() as u64);
        Ok(())
    }

    /// Returns whether a line added the empty clause.
    pub(crate) fn added_empty(&self) -> bool
        ensures { result ≡ (held_by self.now).added_empty }
    {
        self.added_empty
    }

    /// Adds a clause that follows by its hints.
    pub(crate) fn add(
        &mut self,
        values: &mut Values,
        id: u64,
        clause: &[Lit],
        hints: &[u64],
    ) -> Result<(), LineFault>
        ensures ok { OnOk result (line_cause (held_by self.old)
            (adds_clause id clause.now hints.now) ≡ None) }
        ensures added { OnOk result (held_by self.new
            ≡ after_line (held_by self.old) (adds_clause id clause.now hints.now)) }
        ensures err { IfErr result (λ fault. IsCause fault
            (option_map cause_of (line_cause (held_by self.old)
            (adds_clause id clause.now hints.now)))) }
        ensures stored { OnOk result (self.new.stored
            ≡ min (self.old.stored + length clause.now) (2 ^ 64 - 1)) }
        ensures small { IsSmall self.old → OnOk result (IsSmall self.new) }
    {
        if id <= self.greatest {
            return Err(LineFault::IdNotGreater);
        }
        values.allow(self.stored.saturating_add(clause.len() as u64));
        values.negate_alone(clause)?;
        self.try_hints(values, hints)?;
        self.put(id, clause)?;
        self.added_empty |= clause.is_empty();
        Ok(())
    }

    /// Tries the hints in turn: all but the last are unit, and the last is falsified.
    fn try_hints(&self, values: &mut Values, hints: &[u64]) -> Result<(), LineFault>
        ensures ok { OnOk result (hints_cause (held_by self.now).machine.named
            (among values.old) hints.now ≡ None) }
        ensures err { IfErr result (λ fault. IsCause fault
            (option_map cause_of (hints_cause (held_by self.now).machine.named
            (among values.old) hints.now))) }
    {
        let (last, others) = hints.split_last().ok_or(LineFault::NoConflict)?;
        for id in others {
            self.follow(values, *id)?;
        }
        let clause = self.clauses.get(*last).ok_or(LineFault::UnknownId)?;
        if !values.are_false(clause) {
            return Err(LineFault::NoConflict);
        }
        Ok(())
    }

    /// Makes the literal true on which the clause of a hint is unit.
    fn follow(&self, values: &mut Values, id: u64) -> Result<(), LineFault>
        ensures ok { OnOk result ((rest : (ℕ → Bool) → Option HintCause)
            → next_cause (among values.old) ((held_by self.now).machine.named id) rest
            ≡ rest (among values.new)) }
        ensures err { IfErr result (λ fault. (rest : (ℕ → Bool) → Option HintCause)
            → IsCause fault (option_map cause_of
            (next_cause (among values.old) ((held_by self.now).machine.named id) rest))) }
    {
        let clause = self.clauses.get(id).ok_or(LineFault::UnknownId)?;
        let unit = unit(values, clause).ok_or(LineFault::NotUnit)?;
        values.set(unit)?;
        Ok(())
    }

    /// Removes the clauses of these ids, if they are there.
    pub(crate) fn remove(&mut self, ids: &[u64])
        ensures removed { held_by self.new ≡ record (held_by self.old)
            { machine = drop_ids ids.now (held_by self.old).machine } }
        ensures small { IsSmall self.new }
    {
        for id in ids {
            self.remove_one(*id);
        }
        self.collect_garbage();
    }

    fn remove_one(&mut self, id: u64)
        ensures { held_by self.new ≡ record (held_by self.old)
            { machine = drop_id id (held_by self.old).machine } }
    {
        self.clauses.remove(id);
    }

    /// Reclaims memory; the stored clauses are unchanged.
    fn collect_garbage(&mut self)
        ensures same { held_by self.new ≡ held_by self.old }
        ensures small { IsSmall self.new }
    {
        self.clauses.collect_garbage();
    }
}

/// Returns the literal on which a clause is unit: it has no value, and all others are false.
fn unit(values: &Values, clause: &[Lit]) -> Option<Lit>
    ensures { result ≡ unit_among (among values.now) clause.now clause.now }
{
    let Left::One(lit) = values.left(clause) else {
        return None;
    };
    if values.is_true(lit) {
        return None;
    }
    Some(lit)
}
