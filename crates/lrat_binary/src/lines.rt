//! The loop over the lines of a proof.
ghost use Rattle.std.specs.Prelude.{[], List, Option, ℕ};
ghost use Rattle.lrat_binary.specs.Proofs.{IsFresh, form_now};
ghost use Rattle.lrat_binary.specs.TakenLines.{IsToldForm, TakesLines};
ghost use Rattle.lrat_binary.specs.declared.ids.LratForm.{LratForm};

use crate::ids::Ids;
use crate::proof::{LratReader, open_proof};
use crate::sink::{LineSink, UntakenLine};
use std::alloc::Global;
use std::io::Read;

/// Gives each line of a proof to the sink, up to one after which no further line is needed.
///
/// # Errors
///
/// The first fault of the proof, a failed read or out of memory; or that of the sink, after which
/// nothing is read. The lines before it were taken.
pub fn take_lines<R: Read, S: LineSink>(
    reader: &mut LratReader<R>,
    sink: &mut S,
) -> Result<(), UntakenLine<S::Fault>>
    requires fresh { S.has_taken sink.old [] sink.old }
    ensures { (known : Option (List ℕ))
        → IsFresh R.remaining known (form_now reader.old) reader.old
        → TakesLines (form_now reader.old) known S.is_done (S.has_taken sink.old)
        (S.has_refused sink.old) sink.new result }
{
    'lines: while !sink.is_done() {
        match reader.next_line() {
            Ok(Some(line)) => {
                if let Err(fault) = sink.take(line) {
                    let line = reader.line();
                    return Err(UntakenLine::Sink { line, fault });
                }
            }
            Ok(None) => return Ok(()),
            Err(fault) => return Err(UntakenLine::Proof(fault)),
        }
    }
    Ok(())
}

/// Opens a proof after a formula of this many clauses, as `open_proof` does, and gives each line to
/// the sink, as `take_lines` does. Nothing is read if no line is needed.
///
/// # Errors
///
/// As for `take_lines`.
pub fn take_proof<R: Read + Drop, S: LineSink>(
    alloc: Global,
    proof: R,
    ids: Option<Ids>,
    clauses: u64,
    sink: &mut S,
) -> Result<(), UntakenLine<S::Fault>>
    requires fresh { S.has_taken sink.old [] sink.old }
    ensures { (form : LratForm) × IsToldForm ids clauses (R.remaining proof) form
        × TakesLines form (R.remaining proof) S.is_done (S.has_taken sink.old)
        (S.has_refused sink.old) sink.new result }
{
    if sink.is_done() {
        return Ok(());
    }
    match open_proof(alloc, proof, ids, clauses) {
        Ok(mut reader) => take_lines(&mut reader, sink),
        Err(fault) => Err(UntakenLine::Proof(fault)),
    }
}
