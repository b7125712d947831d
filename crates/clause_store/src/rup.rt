//! The propagation check.
pub mod check;
mod idle;
mod propagation;
mod status;
mod trace;
mod trail;
mod untraced;
mod walk;
mod walker;

ghost use Rattle.std.specs.Prelude.{◌≡◌, [], false, length, true, IfOk};
ghost use Rattle.sat_rules.specs.Clauses.{is_tautology};
ghost use Rattle.clause_store.specs.Buckets.{AreWithin};
ghost use Rattle.clause_store.specs.Rup.{AreAllKnown, check_answer, clause_answer, named_buckets};
ghost use Rattle.clause_store.specs.StateOf.{stored_units};
ghost use Rattle.clause_store.specs.Trace.{AreStored, clause_trace, last_trace, named_clauses};
ghost use Rattle.clause_store.specs.Trail.{freed};
ghost use Rattle.clause_store.specs.Units.{AreKnown};

use crate::clauses::buckets::Buckets;
use crate::clauses::units::Units;
pub use crate::rup::check::check_clause_with_hashes;
use crate::rup::idle::IdleBuckets;
use crate::rup::propagation::Propagation;
use crate::rup::untraced::FreeTrail;
use crate::rup::walk::check_with;
use proof_bytes::hash::ClauseHash;
use sat_formula::lit::Lit;
use std::alloc::{AllocError, Global};
use std::mem::swap;

/// What the check of a clause found.
#[derive(Clone, Copy, PartialEq, Eq, Debug)]
pub enum Answer {
    /// The clause follows.
    Passed,
    /// A hash has no stored clause.
    NoClauseForHash,
    /// The named clauses do not show that it follows.
    Failed,
}

/// What a check uses, kept from one to the next for its memory.
#[derive(Drop)]
pub struct RupCheck {
    propagation: Propagation,
    free: FreeTrail,
    idle: IdleBuckets,
    /// The ids of what the last check used that was traced and passed.
    pub trace_ids: Vec<u64>,
    ghost at_rest: { propagation.trail.items ≡ [] },
    ghost none_given: { freed free.items ≡ [] },
}

impl RupCheck {
    /// Returns a check without lists. Allocates no memory.
    pub fn new(alloc: Global) -> RupCheck
        ensures { result.trace_ids.items ≡ [] }
    {
        RupCheck {
            propagation: Propagation::new(alloc),
            free: Vec::new(alloc),
            idle: IdleBuckets::new(alloc),
            trace_ids: Vec::new(alloc),
        }
    }
}

/// Returns whether a clause follows by unit propagation from the clauses that the hashes name, in
/// the order named.
///
/// A clause with a literal that is true already passes, whatever the hashes are. Only a traced
/// check that passes changes `trace_ids`.
///
/// # Errors
///
/// `AllocError` if memory runs out; `trace_ids` are unspecified then.
pub fn check_clause(
    rup: &mut RupCheck,
    units: &mut Units,
    buckets: &Buckets,
    buffer: &[Lit],
    lits: &[Lit],
    hashes: &[ClauseHash],
    traced: bool,
) -> Result<Answer, AllocError>
    requires within { AreWithin buffer.now buckets.now }
    requires known { AreKnown units.old lits.now }
    requires all_known { AreAllKnown units.old buffer.now buckets.now }
    requires stored { AreStored units.old }
    requires no_tautology { is_tautology lits.now ≡ false }
    ensures answer { let named = named_buckets buffer.now buckets.now hashes.now in
        IfOk result (λ a. check_answer a ≡ clause_answer (stored_units units.old) lits.now named) }
    ensures units { units.new ≡ units.old }
    ensures trace_ids { let named = named_clauses buffer.now buckets.now hashes.now in
        let ids = clause_trace (stored_units units.old) lits.now named in
        IfOk result (λ a.
        rup.new.trace_ids.items ≡ last_trace traced a ids rup.old.trace_ids.items) }
{
    if !traced {
        return check_with(
            units,
            &mut rup.free,
            &mut rup.idle,
            buckets,
            buffer,
            lits,
            hashes,
        );
    }
    rup.propagation.trace.clear();
    let answer = check_with(
        units,
        &mut rup.propagation,
        &mut rup.idle,
        buckets,
        buffer,
        lits,
        hashes,
    );
    if let Ok(Answer::Passed) = answer {
        swap(&mut rup.propagation.trace, &mut rup.trace_ids);
    }
    answer
}
