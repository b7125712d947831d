//! A session behind a pointer, and its calls.
ghost use Rattle.std.specs.Prelude.{◌≡◌, ◌∷◌, ◌++◌, ◌==◌, ℕ, List, [], None, Some, is_some, if◌then◌else◌, IfErr, OnErr, OnOk};
ghost use Rattle.std.specs.Option.{option_map};
ghost use Rattle.sat_rules.specs.Clauses.{has};
ghost use Rattle.handles.specs.Numbers.{lits_of};
ghost use Rattle.refutation_rules.specs.Sessions.{Fails, Satisfies};
ghost use Rattle.handles.specs.SessionCauses.{IsFault, begin_cause, delete_cause, derive_cause, fails_cause, give_cause, satisfies_cause};

use crate::lits::read_lits;
use crate::session_fault::HandleFault;
use crate::session_slot::Slot;
use session_checker::SessionChecker;
use std::alloc::Global;

/// A session of queries, for a caller that keeps it in memory of its own. If all its bytes are 0,
/// there is no session: it is begun by `begin`.
///
/// A call that returns an error leaves the session as it was.
#[repr(C)]
pub struct Session {
    slot: Slot,
    held: bool,
    ghost agrees: { held ≡ is_some slot.state },
}

impl Session {
    ghost use Rattle.handles.specs.SessionHeld.{given_to, named_to, state_of};

    /// Begins a session without clauses.
    ///
    /// # Errors
    ///
    /// `Begun` if there is a session, or there is no memory.
    pub fn begin(&mut self, alloc: Global) -> Result<(), HandleFault>
        ensures ok { OnOk result (begin_cause (state_of self.old) ≡ None) }
        ensures refused { IfErr result (λ fault. IsFault fault (begin_cause (state_of self.old))) }
        ensures given { OnOk result (given_to self.new ≡ Some []) }
        ensures named { OnOk result ((k : ℕ) → named_to self.new k ≡ None) }
        ensures kept { OnErr result (state_of self.new ≡ state_of self.old) }
    {
        if self.held {
            return Err(HandleFault::Begun);
        }
        let checker = Box::new(alloc, SessionChecker::new(alloc)?)?;
        self.slot.put(checker);
        self.held = true;
        Ok(())
    }

    /// Ends the session, if there is one, and frees its memory.
    pub fn end(&mut self, alloc: Global)
        ensures { state_of self.new ≡ None }
    {
        if self.held {
            drop(self.slot.take(alloc));
            self.held = false;
        }
    }

    /// Adds a clause of the application, under an id that names none.
    ///
    /// # Errors
    ///
    /// `NoSession`, `NoLit`, `IdTaken`, or there is no memory.
    pub fn give(&mut self, alloc: Global, id: u64, clause: &[i32]) -> Result<(), HandleFault>
        ensures ok { OnOk result (give_cause (state_of self.old) id clause.now ≡ None) }
        ensures refused { IfErr result (λ fault.
            IsFault fault (give_cause (state_of self.old) id clause.now)) }
        ensures given { OnOk result (given_to self.new
            ≡ option_map (λ cs. cs ++ lits_of clause.now ∷ []) (given_to self.old)) }
        ensures named { OnOk result ((k : ℕ) → named_to self.new k
            ≡ (if k == id then Some (lits_of clause.now) else named_to self.old k)) }
        ensures kept_given { OnErr result (given_to self.new ≡ given_to self.old) }
        ensures kept { OnErr result ((k : ℕ) → named_to self.new k ≡ named_to self.old k) }
    {
        if !self.held {
            return Err(HandleFault::NoSession);
        }
        let clause = read_lits(alloc, clause)?;
        let mut checker = self.slot.take(alloc);
        let outcome = checker.give(id, &clause);
        self.slot.put(checker);
        Ok(outcome?)
    }

    /// Adds a lemma, which follows by propagation along the hints, under an id that names no
    /// clause.
    ///
    /// # Errors
    ///
    /// `NoSession`, `NoLit`, `IdTaken`; `UnknownId`, `NotUnit` or `NoConflict` of the hints; or
    /// there is no memory.
    pub fn derive(
        &mut self,
        alloc: Global,
        id: u64,
        lemma: &[i32],
        hints: &[u64],
    ) -> Result<(), HandleFault>
        ensures ok { OnOk result
            (derive_cause (state_of self.old) id lemma.now hints.now ≡ None) }
        ensures refused { IfErr result (λ fault.
            IsFault fault (derive_cause (state_of self.old) id lemma.now hints.now)) }
        ensures given { given_to self.new ≡ given_to self.old }
        ensures named { OnOk result ((k : ℕ) → named_to self.new k
            ≡ (if k == id then Some (lits_of lemma.now) else named_to self.old k)) }
        ensures kept { OnErr result ((k : ℕ) → named_to self.new k ≡ named_to self.old k) }
    {
        if !self.held {
            return Err(HandleFault::NoSession);
        }
        let lemma = read_lits(alloc, lemma)?;
        let mut checker = self.slot.take(alloc);
        let outcome = checker.derive(id, &lemma, hints);
        self.slot.put(checker);
        Ok(outcome?)
    }

    /// Deletes the clauses of these ids; ids that name none are ignored. Models still have to
    /// satisfy a clause of the application that was deleted.
    ///
    /// # Errors
    ///
    /// `NoSession`.
    pub fn delete(&mut self, alloc: Global, ids: &[u64]) -> Result<(), HandleFault>
        ensures ok { OnOk result (delete_cause (state_of self.old) ≡ None) }
        ensures refused { IfErr result (λ fault. IsFault fault (delete_cause (state_of self.old))) }
        ensures given { given_to self.new ≡ given_to self.old }
        ensures named { (k : ℕ) → named_to self.new k
            ≡ (if has k ids.now then None else named_to self.old k) }
    {
        if !self.held {
            return Err(HandleFault::NoSession);
        }
        let mut checker = self.slot.take(alloc);
        checker.delete(ids);
        self.slot.put(checker);
        Ok(())
    }

    /// Checks the answer that the literals of the core, which were assumed, fail together: with all
    /// of them true the hints lead to a conflict, or two of them are opposite.
    ///
    /// # Errors
    ///
    /// `NoSession`, `NoLit`, `NotAssumed`; `UnknownId`, `NotUnit` or `NoConflict` of the hints; or
    /// there is no memory.
    pub fn fails(
        &mut self,
        alloc: Global,
        assumed: &[i32],
        core: &[i32],
        hints: &[u64],
    ) -> Result<(), HandleFault>
        ensures fails { OnOk result ((cs : List (List ℕ)) → given_to self.old ≡ Some cs
            → Fails cs (lits_of assumed.now) (lits_of core.now)) }
        ensures ok { OnOk result
            (fails_cause (state_of self.old) assumed.now core.now hints.now ≡ None) }
        ensures refused { IfErr result (λ fault.
            IsFault fault (fails_cause (state_of self.old) assumed.now core.now hints.now)) }
        ensures given { given_to self.new ≡ given_to self.old }
        ensures named { named_to self.new ≡ named_to self.old }
    {
        if !self.held {
            return Err(HandleFault::NoSession);
        }
        let assumed = read_lits(alloc, assumed)?;
        let core = read_lits(alloc, core)?;
        let mut checker = self.slot.take(alloc);
        let outcome = checker.fails(&assumed, &core, hints);
        self.slot.put(checker);
        Ok(outcome?)
    }

    /// Checks the answer that the literals of the model, the assumptions among them, can be true
    /// together. The model has a literal of each clause of the application, and need not be total.
    ///
    /// # Errors
    ///
    /// `NoSession`, `NoLit`, `BothSigns`, `MissesAssumption`, `MissesClause`, or there is no
    /// memory.
    pub fn satisfies(
        &mut self,
        alloc: Global,
        assumed: &[i32],
        model: &[i32],
    ) -> Result<(), HandleFault>
        ensures satisfies { OnOk result ((cs : List (List ℕ)) → given_to self.old ≡ Some cs
            → Satisfies cs (lits_of assumed.now) (lits_of model.now)) }
        ensures ok { OnOk result
            (satisfies_cause (state_of self.old) assumed.now model.now ≡ None) }
        ensures refused { IfErr result (λ fault.
            IsFault fault (satisfies_cause (state_of self.old) assumed.now model.now)) }
        ensures given { given_to self.new ≡ given_to self.old }
        ensures named { named_to self.new ≡ named_to self.old }
    {
        if !self.held {
            return Err(HandleFault::NoSession);
        }
        let assumed = read_lits(alloc, assumed)?;
        let model = read_lits(alloc, model)?;
        let mut checker = self.slot.take(alloc);
        let outcome = checker.satisfies(&assumed, &model);
        self.slot.put(checker);
        Ok(outcome?)
    }
}
