//! The loop over the clauses of a text.
ghost use Rattle.std.specs.Prelude.{[], IfErr, IfOk, List, ℕ};
ghost use Rattle.std.specs.Option.{option_map};
ghost use Rattle.sat_formula.specs.Lines.{outcome_of};
ghost use Rattle.sat_formula.specs.Whole.{FailsAfter};
ghost use Rattle.sat_formula.specs.Lies.{IsLie};
ghost use Rattle.sat_formula.specs.TakenClauses.{IsCut, TakesSome, TakesWhole};

use crate::counts::Counts;
use crate::dimacs::DimacsReader;
use crate::fault::DimacsFault;
use crate::sink::{ClauseSink, Summary, UntakenClause};
use std::alloc::{AllocError, Global};
use std::io::Read;

/// Reads a whole formula as DIMACS text, and gives each clause to the sink as it ends. Returns the
/// header of the text and the counts of its clauses.
///
/// # Errors
///
/// The first fault of the text, a failed read or out of memory; or that of the sink, after which
/// nothing is read. The clauses before it were taken.
pub fn read_clauses<F: Read + Drop, S: ClauseSink>(
    alloc: Global,
    cnf: F,
    sink: &mut S,
) -> Result<Summary, UntakenClause<S::Fault>>
    requires fresh { S.has_taken sink.old [] [] sink.old }
    ensures whole { IfOk result (TakesWhole (F.remaining cnf)
        (λ clauses lines. S.has_taken sink.old clauses lines sink.new)) }
    ensures lie { IfOk result (λ summary. IsLie (F.remaining cnf) summary.lie) }
    ensures some { IfErr result (TakesSome (F.remaining cnf)
        (λ clauses lines. S.has_taken sink.old clauses lines sink.new)
        (λ clauses fault. S.has_refused sink.old clauses fault sink.new)) }
{
    let mut reader = DimacsReader::new(alloc, cnf);
    let mut clause = Vec::new(alloc);
    'clauses: loop {
        match reader.next_clause(&mut clause) {
            Ok(true) => {}
            Ok(false) => break,
            Err(fault) => return Err(UntakenClause::Text(fault)),
        }
        if let Err(fault) = sink.take(&clause, reader.clause_count(), reader.clause_line()) {
            return Err(UntakenClause::Sink(fault));
        }
    }
    Ok(Summary {
        header: reader.header(),
        counts: Counts {
            variables: reader.var_count() as u64,
            clauses: reader.clause_count(),
        },
        lie: reader.lying_header(),
    })
}

/// Reads a whole formula as DIMACS text into a sink that takes each clause for which it has memory.
/// Returns what `read_clauses` does.
///
/// # Errors
///
/// The first fault of the text, a failed read or out of memory, of the sink as well. The clauses
/// before it were taken.
pub fn read_into<F: Read + Drop, S: ClauseSink<Fault = AllocError>>(
    alloc: Global,
    cnf: F,
    sink: &mut S,
) -> Result<Summary, DimacsFault>
    requires fresh { S.has_taken sink.old [] [] sink.old }
    ensures whole { IfOk result (TakesWhole (F.remaining cnf)
        (λ clauses lines. S.has_taken sink.old clauses lines sink.new)) }
    ensures lie { IfOk result (λ summary. IsLie (F.remaining cnf) summary.lie) }
    ensures fault { IfErr result (λ fault. (clauses : List (List ℕ))
        × FailsAfter (option_map outcome_of (F.remaining cnf)) clauses fault) }
    ensures some { IfErr result (λ fault. IsCut fault (TakesSome (F.remaining cnf)
        (λ clauses lines. S.has_taken sink.old clauses lines sink.new)
        (λ clauses e. S.has_refused sink.old clauses e sink.new))) }
{
    match read_clauses(alloc, cnf, sink) {
        Ok(summary) => Ok(summary),
        Err(UntakenClause::Text(fault)) => Err(fault),
        Err(UntakenClause::Sink(AllocError)) => Err(DimacsFault::OutOfMemory),
    }
}
