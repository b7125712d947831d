//! The hashes of hints.
ghost use Rattle.std.specs.Prelude.{◌≡◌, ◌<◌, ◌≤◌, [], ◌∷◌, List, Ok, OnOk, IfErr, map};
ghost use Rattle.clause_store.specs.StateOf.{hash_of};
ghost use Rattle.lrat_rules.specs.Lines as rules;
ghost use Rattle.lrat_text.specs.Grammar.{hint_of};
ghost use Rattle.lrat_to_proof.specs.Converting.{gather};
ghost use Rattle.lrat_to_proof.specs.Faults.{IsCause};
ghost use Rattle.lrat_to_proof.specs.Standing.{holding_of};

use crate::clause::is_named;
use crate::fault::{LineCause, Stop};
use crate::holding::Holding;
use clause_store::hash::ClauseHasher;
use lrat_text::Hint;
use proof_bytes::ClauseHash;

/// Leaves the hashes of the clauses that the hints name in `hashes`, except those that a checker
/// stores under none.
pub(crate) fn gather(
    hasher: &ClauseHasher,
    held: &Holding,
    hints: &[Hint],
    hashes: &mut Vec<ClauseHash>,
) -> Result<(), Stop>
    requires some_bits { 0 < hasher.now.hash_bits }
    requires bits { hasher.now.hash_bits ≤ 64 }
    ensures ok { OnOk result (gather (hash_of hasher.now) (holding_of held.now) []
        (map hint_of hints.now) ≡ Ok hashes.new.items) }
    ensures err { IfErr result (λ stop. IsCause stop (gather (hash_of hasher.now)
        (holding_of held.now) [] (map hint_of hints.now))) }
{
    hashes.clear();
    for hint in hints {
        push_hash(hasher, held, *hint, hashes)?;
    }
    Ok(())
}

/// The hash of one hint more.
fn push_hash(
    hasher: &ClauseHasher,
    held: &Holding,
    hint: Hint,
    hashes: &mut Vec<ClauseHash>,
) -> Result<(), Stop>
    requires some_bits { 0 < hasher.now.hash_bits }
    requires bits { hasher.now.hash_bits ≤ 64 }
    ensures ok { OnOk result ((rest : List rules.Hint)
        → gather (hash_of hasher.now) (holding_of held.now) hashes.old.items (hint_of hint ∷ rest)
        ≡ gather (hash_of hasher.now) (holding_of held.now) hashes.new.items rest) }
    ensures err { IfErr result (λ stop. (rest : List rules.Hint) → IsCause stop
        (gather (hash_of hasher.now) (holding_of held.now) hashes.old.items
        (hint_of hint ∷ rest))) }
{
    let Hint::Along(id) = hint else {
        return Err(Stop::Refused(LineCause::RatGroup));
    };
    let Some(clause) = held.get(id) else {
        return Err(Stop::Refused(LineCause::UnknownId));
    };
    if is_named(clause) {
        hashes.push(hasher.clause_hash(clause))?;
    }
    Ok(())
}
