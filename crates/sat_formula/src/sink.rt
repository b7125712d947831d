//! What takes the clauses of a text, one after the other.
ghost use Rattle.std.specs.Prelude.{◌≡◌, ◌+◌, ◌++◌, ◌∷◌, [], length};

use crate::counts::{Counts, LyingHeader};
use crate::fault::DimacsFault;
use crate::lit::Lit;

/// Takes the clauses of a text, in their order.
pub trait ClauseSink {
    ghost use Rattle.std.specs.Prelude.{◌≡◌, ℕ, List};
    ghost use Rattle.sat_formula.specs.TakenClauses.{Takes};

    /// Why a clause is not taken.
    type Fault: Drop;

    /// What holds of the sink before any clause, the clauses that it took from there on, the lines
    /// on which they end, and the sink after them.
    ghost has_taken: { Self → List (List ℕ) → List ℕ → Self → Type 0 };

    /// What holds of the sink before any clause, the clauses of which it took all but the last, the
    /// fault of the last, and the sink after it.
    ghost has_refused: { Self → List (List ℕ) → Self.Fault → Self → Type 0 };

    /// Takes a clause, which has this number and ends on this line. Both count from 1.
    ///
    /// # Errors
    ///
    /// Any fault of the sink. No clause is given after it.
    fn take(&mut self, clause: &[Lit], number: u64, line: u64) -> Result<(), Self::Fault>
        ensures { (first : Self) → (clauses : List (List ℕ)) → (lines : List ℕ)
            → has_taken first clauses lines self.old
            → number ≡ length clauses + 1 → number ≡ length lines + 1
            → Takes result
            (has_taken first (clauses ++ clause.now ∷ []) (lines ++ line ∷ []) self.new)
            (λ fault. has_refused first (clauses ++ clause.now ∷ []) fault self.new) };
}

/// What is known of a text that was read to its end, beside its clauses.
#[derive(Clone, Copy)]
pub struct Summary {
    /// The counts of the header, if the text has one.
    pub header: Option<Counts>,
    /// The variables and the clauses that were taken.
    pub counts: Counts,
    /// The header, if it disagrees with them.
    pub lie: Option<LyingHeader>,
}

/// Why not all clauses of a text were taken.
#[derive(Drop)]
pub enum UntakenClause<E> {
    /// The fault of the text, a failed read or out of memory.
    Text(DimacsFault),
    /// The sink's fault at a clause.
    Sink(E),
}
