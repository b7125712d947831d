//! Reads a proof and writes its pieces.
use crate::fault::CutFailure;
use crate::files::PieceFiles;
use crate::formula::FormulaBytes;
use crate::piece::{Limits, Piece};
use command::WrittenFiles;
use drat_cut::{Additions, Cutter, ProofSteps, Taken};
use log::Log;
use sat_formula::DimacsReader;
use std::alloc::Global;
use std::io::{Read, Write};

/// Cuts a proof. Returns whether it leads to a conflict. Progress is reported to `told`.
///
/// # Errors
///
/// The first fault of a file that is read or written, or out of memory.
pub fn cut<F: Read + Drop, P: Read + Drop, L: Log>(
    told: &L,
    alloc: Global,
    cnf: F,
    proof: P,
    additions: Additions,
    limits: Limits,
    files: &PieceFiles<'_>,
) -> Result<bool, CutFailure> {
    let mut cutter = Cutter::new(alloc, additions);
    read_formula(alloc, cnf, &mut cutter)?;
    files.write_live(1, &cutter)?;
    let mut steps = cutter.steps(proof)?;
    let mut piece = Piece::new(limits, cutter.live_count());
    // The pieces are fewer: each has a step.
    for number in 1..u64::MAX {
        if !write_piece(told, number, &mut piece, &mut cutter, &mut steps, files)? {
            break;
        }
        piece = piece.next(cutter.live_count());
    }
    Ok(cutter.has_conflict())
}

/// Reads the formula, to its end, into the cutter.
fn read_formula<F: Read + Drop>(
    alloc: Global,
    cnf: F,
    cutter: &mut Cutter,
) -> Result<(), CutFailure> {
    let mut reader = DimacsReader::new(alloc, FormulaBytes::new(cnf));
    let mut clause = Vec::new(alloc);
    // The clauses are fewer: the reader counts its bytes in 64 bits.
    for _ in 0..u64::MAX {
        if !reader.next_clause(&mut clause)? {
            break;
        }
        cutter.add_formula_clause(&clause)?;
    }
    Ok(())
}

/// Writes a piece. The clauses after it are written before its steps; then it is reported. Returns
/// whether another piece follows.
fn write_piece<P: Read + Drop, L: Log>(
    told: &L,
    number: u64,
    piece: &mut Piece,
    cutter: &mut Cutter,
    steps: &mut ProofSteps<P>,
    files: &PieceFiles<'_>,
) -> Result<bool, CutFailure> {
    let name = files.name(number, "drat")?;
    let mut written = WrittenFiles::new(files.host);
    let mut out = files.create(&mut written, name.as_str())?;
    let goes_on = write_steps(piece, cutter, steps, &mut out)?;
    if goes_on {
        files.write_live(number.saturating_add(1), cutter)?;
    }
    files.finish(name.as_str(), out, &written)?;
    files.say(told, number, piece.lemmas, cutter.live_count())?;
    Ok(goes_on)
}

/// Writes the steps of a piece, the first of which was read before. Returns whether a step of the
/// next piece was read.
fn write_steps<P: Read + Drop, W: Write>(
    piece: &mut Piece,
    cutter: &mut Cutter,
    steps: &mut ProofSteps<P>,
    out: &mut W,
) -> Result<bool, CutFailure> {
    // The steps are fewer: each has a byte.
    for _ in 0..u64::MAX {
        if let Some(step) = steps.step() {
            let taken = cutter.take(&step)?;
            piece.take(taken, cutter.live_count());
            if taken != Taken::Nothing {
                cutter.write_step(&step, out)?;
            }
        }
        if !steps.advance()? {
            break;
        }
        let deletes = steps.step().is_some_and(|step| step.deletes);
        if piece.is_done(cutter.live_count(), deletes) && !cutter.has_conflict() {
            return Ok(true);
        }
    }
    Ok(false)
}
