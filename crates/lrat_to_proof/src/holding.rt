//! The clauses so far.
ghost use Rattle.std.specs.Prelude.{◌≡◌, ◌==◌, ◌||◌, ℕ, true, IfOk, IfSome, IsTrue, OnOk, if◌then◌else◌, is_some, nat_eq};
ghost use Rattle.std.specs.HashSet.{contains};
ghost use Rattle.std.specs.Option.{ForSome, option_copied, option_map};
ghost use Rattle.sat_rules.specs.Clauses.{is_canonical};
ghost use Rattle.clause_table.specs.Named.{clause_of};
ghost use Rattle.lrat_to_proof.specs.Converting.{deletion};
ghost use Rattle.lrat_to_proof.specs.Holding.{drop_entry, formula_holding, hold, is_refuting, with_unit};

use checker_parts::sorted_lits::copy_canonical;
use clause_table::NamedClauses;
use sat_formula::{CnfFormula, Lit};
use std::alloc::{AllocError, Global};
use std::collections::HashSet;

/// The clauses by their ids, the literals that are units, and whether the empty clause or two
/// opposite units were derived.
#[derive(Drop)]
pub(crate) struct Holding {
    clauses: NamedClauses,
    /// The ids of those that lines added.
    derived: HashSet<u64>,
    /// By their codes.
    units: HashSet<usize>,
    refuted: bool,
    ghost canonical: { (id : ℕ) → ForSome (clause_of clauses id) (λ c. IsTrue (is_canonical c)) },
}

impl Holding {
    ghost use Rattle.lrat_to_proof.specs.Standing.{entry_of, holding_of, is_derived, units_of};

    /// Returns the clauses of a formula under 1, 2 and so on.
    pub(crate) fn new(alloc: Global, formula: &CnfFormula) -> Result<Holding, AllocError>
        ensures { IfOk result (λ made. holding_of made ≡ formula_holding formula.now) }
    {
        let mut made = Holding {
            clauses: NamedClauses::new(alloc, formula.len())?,
            derived: HashSet::new(alloc),
            units: HashSet::new(alloc),
            refuted: false,
        };
        let mut lits = Vec::new(alloc);
        let mut id = 0u64;
        for clause in formula {
            id += 1;
            copy_canonical(&mut lits, clause)?;
            made.put(id, false, &lits)?;
        }
        Ok(made)
    }

    /// Returns whether the empty clause or two opposite units were derived.
    pub(crate) fn is_refuted(&self) -> bool
        ensures { result ≡ (holding_of self.now).refuted }
    {
        self.refuted
    }

    /// Returns the clause of an id, if it is there.
    pub(crate) fn get(&self, id: u64) -> Option<&[Lit]>
        ensures entry { option_map (entry_of (is_derived self.now id)) (option_copied result)
            ≡ (holding_of self.now).entries id }
        ensures canonical { IfSome result (λ clause. IsTrue (is_canonical clause.now)) }
    {
        self.clauses.get(id)
    }

    /// Returns the clause of an id, where a line added it.
    pub(crate) fn derived(&self, id: u64) -> Option<&[Lit]>
        ensures deletion { deletion (option_map (entry_of true) (option_copied result))
            ≡ deletion ((holding_of self.now).entries id) }
        ensures canonical { IfSome result (λ clause. IsTrue (is_canonical clause.now)) }
    {
        if !self.derived.contains(&id) {
            return None;
        }
        self.clauses.get(id)
    }

    /// Returns whether the id names a clause.
    pub(crate) fn contains(&self, id: u64) -> bool
        ensures { result ≡ is_some ((holding_of self.now).entries id) }
    {
        self.get(id).is_some()
    }

    /// Stores a canonical list under an id, and whether a line added it. After an error the clauses
    /// are unspecified.
    pub(crate) fn put(&mut self, id: u64, derived: bool, lits: &[Lit]) -> Result<(), AllocError>
        requires { IsTrue (is_canonical lits.now) }
        ensures { OnOk result (holding_of self.new
            ≡ hold id (entry_of derived lits.now) (holding_of self.old)) }
    {
        self.note_unit(lits)?;
        self.clauses.put(id, lits)?;
        mark(&mut self.derived, id, derived)?;
        Ok(())
    }

    /// Records what a canonical list says if it has less than two literals.
    fn note_unit(&mut self, lits: &[Lit]) -> Result<(), AllocError>
        ensures units { OnOk result (units_of self.new ≡ with_unit lits.now (units_of self.old)) }
        ensures refuted { OnOk result (self.new.refuted
            ≡ (self.old.refuted || is_refuting lits.now (units_of self.old))) }
        ensures clauses { self.new.clauses ≡ self.old.clauses }
        ensures derived { self.new.derived ≡ self.old.derived }
    {
        let Some((lit, others)) = lits.split_first() else {
            self.refuted = true;
            return Ok(());
        };
        if others.is_empty() {
            let opposite = !*lit;
            self.refuted |= self.units.contains(&opposite.code());
            self.units.insert(lit.code())?;
        }
        Ok(())
    }

    /// Removes the clause of an id, if it is there.
    pub(crate) fn remove(&mut self, id: u64)
        ensures { holding_of self.new ≡ drop_entry id (holding_of self.old) }
    {
        self.derived.remove(&id);
        self.clauses.remove(id);
        self.clauses.collect_garbage();
    }
}

/// Puts an id into a set, or takes it out.
fn mark(ids: &mut HashSet<u64>, id: u64, is_in: bool) -> Result<(), AllocError>
    ensures { OnOk result ((k : ℕ) → contains nat_eq ids.new k
        ≡ (if k == id then is_in else contains nat_eq ids.old k)) }
{
    if !is_in {
        ids.remove(&id);
        return Ok(());
    }
    ids.insert(id)?;
    Ok(())
}
