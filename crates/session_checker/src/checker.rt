//! The checker of a session.
ghost use Rattle.std.specs.Prelude.{◌≡◌, ◌∷◌, ◌++◌, ◌==◌, ℕ, [], None, Some, is_some, if◌then◌else◌, IfErr, IfOk, OnErr, OnOk};
ghost use Rattle.std.specs.Option.{option_copied};
ghost use Rattle.sat_rules.specs.Clauses.{has};
ghost use Rattle.refutation_rules.specs.Sessions.{Fails, Satisfies};
ghost use Rattle.clause_table.specs.Named.{clause_of};
ghost use Rattle.clause_table.specs.Values.{among};
ghost use Rattle.session_checker.specs.Causes.{IsCause};
ghost use Rattle.session_checker.specs.Refusals.{core_cause, id_cause, hints_cause, lemma_cause, model_cause};
ghost use Rattle.session_checker.specs.Rules.{AllFollow, listed};
ghost use Rattle.sat_rules.specs.Named.{negated_set};
ghost use Rattle.lrat_rules.specs.Propagation.{propagate};

use crate::assuming::{are_opposite, are_true, set_alone};
use crate::fault::{SessionCause, SessionFault};
use crate::given::GivenClauses;
use crate::numbered::store;
use crate::propagation::refute;
use clause_table::{NamedClauses, Values};
use sat_formula::Lit;
use std::alloc::{AllocError, Global};

/// Checks the answers of a session, each over the clauses that were given before it.
///
/// A call that returns an error leaves the session as it was, and later calls go on from there.
#[derive(Drop)]
pub struct SessionChecker {
    given: GivenClauses,
    named: NamedClauses,
    values: Values,
    /// How many literals were stored so far.
    lits_stored: u64,
    ghost sound: { AllFollow given.clauses (clause_of named) },
}

impl SessionChecker {
    ghost use Rattle.session_checker.specs.Held.{HoldsLittle, given_by, named_by};

    /// Returns a session without clauses.
    ///
    /// # Errors
    ///
    /// `AllocError` if there is no memory.
    pub fn new(alloc: Global) -> Result<SessionChecker, AllocError>
        ensures given { IfOk result (λ checker. given_by checker ≡ []) }
        ensures named { IfOk result (λ checker. (k : ℕ) → named_by checker k ≡ None) }
        ensures tight { IfOk result (λ checker. HoldsLittle checker) }
    {
        Ok(SessionChecker {
            given: GivenClauses::new(alloc)?,
            named: NamedClauses::new(alloc, 0)?,
            values: Values::new(alloc),
            lits_stored: 0,
        })
    }

    /// Returns the literals of the clause or lemma that an id names, if it names one.
    pub fn clause(&self, id: u64) -> Option<&[Lit]>
        ensures { option_copied result ≡ named_by self.now id }
    {
        self.named.get(id)
    }

    /// Returns whether the id names a clause.
    fn is_taken(&self, id: u64) -> bool
        ensures { result ≡ is_some (named_by self.now id) }
    {
        self.clause(id).is_some()
    }

    /// Adds a clause of the application, under an id that names none.
    ///
    /// # Errors
    ///
    /// `IdTaken`, or there is no memory for the clause.
    pub fn give(&mut self, id: u64, clause: &[Lit]) -> Result<(), SessionFault>
        ensures ok { OnOk result (id_cause (named_by self.old) id ≡ None) }
        ensures refused { IfErr result (λ fault.
            IsCause fault (id_cause (named_by self.old) id)) }
        ensures given { OnOk result (given_by self.new ≡ given_by self.old ++ clause.now ∷ []) }
        ensures named { OnOk result ((k : ℕ) → named_by self.new k
            ≡ (if k == id then Some clause.now else named_by self.old k)) }
        ensures kept_given { OnErr result (given_by self.new ≡ given_by self.old) }
        ensures kept { OnErr result ((k : ℕ) → named_by self.new k ≡ named_by self.old k) }
        ensures tight { HoldsLittle self.old → HoldsLittle self.new }
    {
        if self.is_taken(id) {
            return Err(SessionFault::Refused(SessionCause::IdTaken));
        }
        store(&mut self.named, id, clause)?;
        match self.given.add(clause) {
            Ok(()) => {
                self.lits_stored = self.lits_stored.saturating_add(clause.len() as u64);
                Ok(())
            }
            Err(_) => {
                self.named.remove(id);
                self.named.collect_garbage();
                Err(SessionFault::OutOfMemory)
            }
        }
    }

    /// Adds a lemma, which follows by propagation along the hints, under an id that names no
    /// clause.
    ///
    /// # Errors
    ///
    /// `IdTaken`; `UnknownId`, `NotUnit` or `NoConflict` of the hints; or there is no memory.
    pub fn derive(&mut self, id: u64, lemma: &[Lit], hints: &[u64]) -> Result<(), SessionFault>
        ensures ok { OnOk result
            (lemma_cause (named_by self.old) id lemma.now hints.now ≡ None) }
        ensures refused { IfErr result (λ fault.
            IsCause fault (lemma_cause (named_by self.old) id lemma.now hints.now)) }
        ensures given { given_by self.new ≡ given_by self.old }
        ensures named { OnOk result ((k : ℕ) → named_by self.new k
            ≡ (if k == id then Some lemma.now else named_by self.old k)) }
        ensures kept { OnErr result ((k : ℕ) → named_by self.new k ≡ named_by self.old k) }
        ensures tight { HoldsLittle self.old → HoldsLittle self.new }
    {
        if self.is_taken(id) {
            return Err(SessionFault::Refused(SessionCause::IdTaken));
        }
        self.judge(lemma, hints)?;
        store(&mut self.named, id, lemma)?;
        self.lits_stored = self.lits_stored.saturating_add(lemma.len() as u64);
        Ok(())
    }

    /// Checks that a lemma follows along the hints.
    fn judge(&mut self, lemma: &[Lit], hints: &[u64]) -> Result<(), SessionFault>
        ensures ok { let end = propagate (named_by self.old) (negated_set lemma.now) hints.now in
            OnOk result (hints_cause end ≡ None) }
        ensures err { let end = propagate (named_by self.old) (negated_set lemma.now) hints.now in
            IfErr result (λ fault. IsCause fault (hints_cause end)) }
        ensures named { self.new.named ≡ self.old.named }
        ensures given { self.new.given ≡ self.old.given }
    {
        self.make_room(lemma);
        self.values.negate_alone(lemma)?;
        refute(&self.named, &mut self.values, hints)
    }

    /// Deletes the clauses of these ids; ids that name none are ignored. Models still have to
    /// satisfy a clause of the application that was deleted.
    pub fn delete(&mut self, ids: &[u64])
        ensures given { given_by self.new ≡ given_by self.old }
        ensures named { (k : ℕ) → named_by self.new k
            ≡ (if has k ids.now then None else named_by self.old k) }
        ensures tight { HoldsLittle self.new }
    {
        for id in ids {
            self.named.remove(*id);
        }
        self.named.collect_garbage();
    }

    /// Checks the answer that the literals of the core, which were assumed, fail together: with all
    /// of them true the hints lead to a conflict, or two of them are opposite.
    ///
    /// # Errors
    ///
    /// `NotAssumed`; `UnknownId`, `NotUnit` or `NoConflict` of the hints; or there is no memory.
    pub fn fails(
        &mut self,
        assumed: &[Lit],
        core: &[Lit],
        hints: &[u64],
    ) -> Result<(), SessionFault>
        ensures fails { OnOk result (Fails (given_by self.old) assumed.now core.now) }
        ensures ok { OnOk result
            (core_cause (named_by self.old) assumed.now core.now hints.now ≡ None) }
        ensures refused { IfErr result (λ fault.
            IsCause fault (core_cause (named_by self.old) assumed.now core.now hints.now)) }
        ensures given { given_by self.new ≡ given_by self.old }
        ensures named { named_by self.new ≡ named_by self.old }
        ensures tight { HoldsLittle self.old → HoldsLittle self.new }
    {
        self.assume(assumed)?;
        if !are_true(&self.values, core) {
            return Err(SessionFault::Refused(SessionCause::NotAssumed));
        }
        self.assume(core)?;
        if are_opposite(&self.values, core) {
            return Ok(());
        }
        refute(&self.named, &mut self.values, hints)
    }

    /// Checks the answer that the literals of the model, the assumptions among them, can be true
    /// together. The model has a literal of each clause of the application, and need not be total.
    ///
    /// # Errors
    ///
    /// `BothSigns`, `MissesAssumption`, `MissesClause`, or there is no memory.
    pub fn satisfies(&mut self, assumed: &[Lit], model: &[Lit]) -> Result<(), SessionFault>
        ensures satisfies { OnOk result (Satisfies (given_by self.old) assumed.now model.now) }
        ensures ok { OnOk result (model_cause (given_by self.old) assumed.now model.now ≡ None) }
        ensures refused { IfErr result (λ fault.
            IsCause fault (model_cause (given_by self.old) assumed.now model.now)) }
        ensures given { given_by self.new ≡ given_by self.old }
        ensures named { named_by self.new ≡ named_by self.old }
        ensures tight { HoldsLittle self.old → HoldsLittle self.new }
    {
        self.assume(model)?;
        if are_opposite(&self.values, model) {
            return Err(SessionFault::Refused(SessionCause::BothSigns));
        }
        if !are_true(&self.values, assumed) {
            return Err(SessionFault::Refused(SessionCause::MissesAssumption));
        }
        let unmet = self.given.unmet(&self.values)?;
        match unmet {
            Some(number) => Err(SessionFault::Refused(SessionCause::MissesClause(number))),
            None => Ok(()),
        }
    }

    /// Makes these literals true and all others unassigned.
    fn assume(&mut self, lits: &[Lit]) -> Result<(), AllocError>
        ensures values { OnOk result (among self.new.values ≡ listed lits.now) }
        ensures named { self.new.named ≡ self.old.named }
        ensures given { self.new.given ≡ self.old.given }
    {
        self.make_room(lits);
        set_alone(&mut self.values, lits)
    }

    /// Raises the limit of the values to these literals in addition to the stored ones.
    fn make_room(&mut self, lits: &[Lit])
        ensures values { self.new.values ≡ self.old.values }
        ensures named { self.new.named ≡ self.old.named }
        ensures given { self.new.given ≡ self.old.given }
    {
        let lits = self.lits_stored.saturating_add(lits.len() as u64);
        self.values.allow(lits);
    }
}
