//! A checker as what takes the clauses of a text.
use crate::checker::CheckerOf;
use checker_parts::error::CheckerError;
use checker_parts::processor::{ProofProcessor, ProofTranscriptProcessor};
use sat_formula::{ClauseSink, Lit};

/// A checker adds each clause that it takes.
#[tactic(auto, unfolding(crate::specs::Shown::state, crate::specs::Shown::listeners))]
impl<P: ProofProcessor, T: ProofTranscriptProcessor> ClauseSink for CheckerOf<P, T> {
    ghost use Rattle.varisat_checker.specs.Added.{HasAdded, HasRejected};
    ghost use Rattle.varisat_checker.specs.Shown.{listeners, state};

    type Fault = CheckerError;

    ghost has_taken = { λ first clauses lines checker. HasAdded P.ProofProcessor
        T.ProofTranscriptProcessor (state first) clauses (state checker) (listeners first)
        (listeners checker) };

    ghost has_refused = { λ first clauses fault checker. HasRejected P.ProofProcessor
        T.ProofTranscriptProcessor (state first) clauses fault (state checker) (listeners first)
        (listeners checker) };

    fn take(&mut self, clause: &[Lit], number: u64, line: u64) -> Result<(), CheckerError> {
        self.add_clause(clause)
    }
}
