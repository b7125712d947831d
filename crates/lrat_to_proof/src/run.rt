//! Conversions of a whole proof.
ghost use Rattle.std.specs.Prelude.{ℕ, List, Option};
ghost use Rattle.lrat_to_proof.specs.Converting.{Converted};
ghost use Rattle.lrat_to_proof.specs.Runs.{ConvertsLines, IsProofRun, IsRun, RunTellsLie, proof_says};
ghost use Rattle.lrat_to_proof.specs.Standing.{HasConverted};
ghost use Rattle.lrat_to_proof.specs.Widths.{bits_of};

use crate::conversion::Conversion;
use crate::converter::Converter;
use crate::fault::ConvertFault;
use crate::sink::LineConverter;
use crate::width::HashWidth;
use lrat_binary::{Ids, UntakenLine, take_proof};
use sat_formula::{CnfFormula, LyingHeader, read_formula};
use std::alloc::Global;
use std::io::{Read, Write};

/// Writes the lines of an LRAT proof over a formula as proof bytes of version 2, up to the first
/// line that adds the empty clause or the opposite of a unit. What follows that line is not read.
/// Returns whether there was such a line.
///
/// The proof is text or binary, as detected from its first bytes. The encoding of ids in binary
/// lines is detected from them too, unless `ids` gives it. Lines are read and written one by one.
/// Whether the added clauses follow is not judged: the checker that reads the bytes does that.
///
/// # Errors
///
/// `Unread` and `Refused` for the first line that can't be read or converted, `Read` and `Write`
/// for a failed read or write, `OutOfMemory`. A beginning of the proof's bytes is written then, all
/// of it if only the last flush failed.
pub fn convert_proof<P: Read + Drop, W: Write>(
    alloc: Global,
    formula: &CnfFormula,
    proof: P,
    ids: Option<Ids>,
    width: HashWidth,
    out: &mut W,
) -> Result<Conversion, ConvertFault>
    ensures run { IsProofRun ids (P.remaining proof) (bits_of width) formula.now
        (W.contents out.old) (W.contents out.new) result }
{
    let mut converter = Converter::new(alloc, formula, width, out)?;
    let clauses = formula.len() as u64;
    convert_lines(alloc, &mut converter, proof, ids, clauses, out)?;
    converter.end(out)?;
    Ok(Conversion::of(converter.is_done()))
}

/// Reads a formula in DIMACS CNF, and converts an LRAT proof as `convert_proof` does.
///
/// The proof is read only after the whole formula. `lie` gets the mismatch of the formula's header,
/// if there is one.
///
/// # Errors
///
/// `Formula` if the formula can't be read, with nothing written and `lie` `None`; else as for
/// `convert_proof`.
pub fn convert<F: Read + Drop, P: Read + Drop, W: Write>(
    alloc: Global,
    cnf: F,
    proof: P,
    ids: Option<Ids>,
    width: HashWidth,
    out: &mut W,
    lie: &mut Option<LyingHeader>,
) -> Result<Conversion, ConvertFault>
    ensures run { IsRun ids (F.remaining cnf) (P.remaining proof) (bits_of width)
        (W.contents out.old) (W.contents out.new) result }
    ensures lie { RunTellsLie (F.remaining cnf) result lie.new }
{
    match read_formula(alloc, cnf, lie) {
        Ok(formula) => convert_proof(alloc, &formula, proof, ids, width, out),
        Err(fault) => Err(ConvertFault::Formula(fault)),
    }
}

/// Converts the lines of a proof after a formula of this many clauses. Nothing is read if no line
/// is needed.
fn convert_lines<P: Read + Drop, W: Write>(
    alloc: Global,
    converter: &mut Converter,
    proof: P,
    ids: Option<Ids>,
    clauses: u64,
    out: &mut W,
) -> Result<(), ConvertFault>
    ensures { (width : ℕ) (start : Option (List ℕ)) (c : Converted)
        → HasConverted width start (W.contents out.old) c converter.old
        → ConvertsLines (proof_says ids clauses) (P.remaining proof) width c start
        (W.contents out.new) converter.new result }
{
    let mut sink = LineConverter { converter, out };
    match take_proof(alloc, proof, ids, clauses, &mut sink) {
        Ok(()) => Ok(()),
        Err(UntakenLine::Proof(fault)) => Err(ConvertFault::unread(fault)),
        Err(UntakenLine::Sink { line, fault }) => Err(fault.in_line(line)),
    }
}
