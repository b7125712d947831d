//! Runs over one piece of a proof: its lines derive the target clauses from a formula.
ghost use Rattle.std.specs.Prelude.{◌≡◌, ◌≢◌, ℕ, List, Some, Ok, IfErr, IfOk, IsNone, IsSome};
ghost use Rattle.std.specs.Io.KnownBytes.{Keeps};
ghost use Rattle.sat_formula.specs.Refuted.{IsRefuted};
ghost use Rattle.drat_check.specs.Outputs.{bytes_in};
ghost use Rattle.verdicts.specs.Texts.{CarriesText};
ghost use Rattle.drat_check.specs.PieceCores.{WritesCore, WritesPieceCore};
ghost use Rattle.drat_check.specs.Pieces.{IsAfterFormulas, IsPieceRun, IsReadPieceRun, TellsPieceLies, WritesPiece, WritesRead};
ghost use Rattle.verdicts.specs.declared.piece.PieceVerdict.TheVariants.{Refuted, Carried, NotCarried};

use crate::counts::{RunCounts, count_core};
use crate::fault::{ProofFault, RunFault};
use crate::outputs::{flush, write_lines};
use crate::piece_core::show_core;
use crate::piece_fault::PieceFault;
use crate::proof::{elaborate, read_proof};
use crate::reader::ProofFormat;
use crate::stored::stored_ids;
use drat_elaborate::Elaborator;
use log::Log;
use sat_formula::{CnfFormula, LyingHeader, read_formula};
use sat_output::LineForm;
use std::alloc::Global;
use std::cell::Cell;
use std::io::{Read, Write};
use verdicts::{MissingClause, PieceVerdict};

/// What a run over a piece writes, counts and reports in addition to its verdict.
#[derive(Drop)]
pub struct PieceOutputs<L, C> {
    /// The lines of the LRAT proof, where there is a writer for them and none for the core.
    pub lrat: Option<L>,
    /// How these lines are written.
    pub form: LineForm,
    /// Clauses of the formula, written as a formula, that are enough for the verdict.
    pub core: Option<C>,
    /// What was counted so far. No contract constrains it.
    pub counts: Cell<RunCounts>,
    /// The first target clause that is not stored, if the verdict is `NotCarried`; else it is
    /// unchanged. No contract says which one it is.
    pub missing: Option<MissingClause>,
    /// The mismatch of the formula's header, if there is one.
    pub lie: Option<LyingHeader>,
    /// The mismatch of the target clauses' header, if there is one.
    pub wanted_lie: Option<LyingHeader>,
}

/// Reads a formula and the target clauses of a piece of a proof, both in DIMACS CNF, checks the
/// piece, writes the outputs, and returns the verdict.
///
/// The verdict is `Carried` if the piece leads to no conflict and each target clause is live after
/// it: then some assignment satisfies all of them, if one satisfies the formula. A clause with the
/// same literals in another order is added as it is in the target, by a line of its own.
///
/// With a writer for the core the lines are checked over the clauses of the formula that they use,
/// as over a formula of its own, which is then written. So the verdict holds for the core too, and
/// the piece before this one need not derive other clauses. No lines are written then.
///
/// # Errors
///
/// `Run` or `Wanted` with the first input that can't be read, the step that is rejected or the
/// write that failed, or `Lost`.
pub fn run_piece<
    R: Log,
    F: Read + Drop,
    G: Read + Drop,
    P: Read + Drop,
    L: Write + Drop,
    C: Write + Drop,
>(
    rt: &R,
    alloc: Global,
    cnf: F,
    holds: G,
    piece: P,
    format: ProofFormat,
    outputs: &mut PieceOutputs<L, C>,
) -> Result<PieceVerdict, PieceFault>
    ensures run { IsPieceRun (F.remaining cnf) (G.remaining holds) result }
    ensures lines { IsNone outputs.old.core
        → WritesPiece outputs.old.form (F.remaining cnf) (G.remaining holds)
        (bytes_in L.contents outputs.old.lrat) (bytes_in L.contents outputs.new.lrat) result }
    ensures apart { IsSome outputs.old.core → outputs.new.lrat ≡ outputs.old.lrat }
    ensures form { outputs.new.form ≡ outputs.old.form }
    ensures core { WritesPieceCore (F.remaining cnf) (G.remaining holds)
        (bytes_in C.contents outputs.old.core) (bytes_in C.contents outputs.new.core) result }
    ensures carries { (text other : List ℕ) → F.remaining cnf ≡ Some text
        → G.remaining holds ≡ Some other → result ≡ Ok Carried → CarriesText text other }
    ensures refutes { (text : List ℕ) → F.remaining cnf ≡ Some text
        → result ≡ Ok Refuted → IsRefuted text }
    ensures lies { TellsPieceLies (F.remaining cnf) (G.remaining holds) outputs.old.wanted_lie result
        outputs.new.lie outputs.new.wanted_lie }
    ensures kept { result ≢ Ok NotCarried → outputs.new.missing ≡ outputs.old.missing }
{
    let formula = match read_formula(alloc, cnf, &mut outputs.lie) {
        Ok(formula) => formula,
        Err(fault) => return Err(PieceFault::Run(RunFault::Formula(fault))),
    };
    let wanted = match read_formula(alloc, holds, &mut outputs.wanted_lie) {
        Ok(wanted) => wanted,
        Err(fault) => return Err(PieceFault::Wanted(fault)),
    };
    judge_piece(
        rt,
        alloc,
        &formula,
        &wanted,
        piece,
        format,
        &mut Elaborator::new(alloc),
        outputs,
    )
}

/// Returns what a piece shows, once the outputs are written. The lines are checked over the clauses
/// of the formula that they use if there is a writer for these, else over the formula, and then the
/// lines are written.
fn judge_piece<R: Log, P: Read + Drop, L: Write + Drop, C: Write + Drop>(
    rt: &R,
    alloc: Global,
    formula: &CnfFormula,
    wanted: &CnfFormula,
    piece: P,
    format: ProofFormat,
    elaborator: &mut Elaborator,
    outputs: &mut PieceOutputs<L, C>,
) -> Result<PieceVerdict, PieceFault>
    ensures run { IsReadPieceRun formula.now wanted.now result }
    ensures lines { IsNone outputs.old.core → WritesRead outputs.old.form formula.now wanted.now
        (bytes_in L.contents outputs.old.lrat) (bytes_in L.contents outputs.new.lrat) result }
    ensures apart { IsSome outputs.old.core → outputs.new.lrat ≡ outputs.old.lrat }
    ensures core { WritesCore formula.now wanted.now
        (bytes_in C.contents outputs.old.core) (bytes_in C.contents outputs.new.core) result }
    ensures form { outputs.new.form ≡ outputs.old.form }
    ensures lie { outputs.new.lie ≡ outputs.old.lie }
    ensures wanted_lie { outputs.new.wanted_lie ≡ outputs.old.wanted_lie }
    ensures kept { result ≢ Ok NotCarried → outputs.new.missing ≡ outputs.old.missing }
{
    if let Err(fault) = read_proof(alloc, formula, piece, format, &outputs.counts, elaborator) {
        return Err(PieceFault::Run(RunFault::Proof(fault)));
    }
    let missing = match first_missing(alloc, elaborator, wanted) {
        Ok(missing) => missing,
        Err(fault) => return Err(PieceFault::Run(RunFault::Proof(fault))),
    };
    if missing.is_some() {
        outputs.missing = missing;
        return Ok(PieceVerdict::NotCarried);
    }
    if let Err(fault) = elaborate(rt, elaborator) {
        return Err(PieceFault::Run(RunFault::Proof(fault)));
    }
    count_core(&outputs.counts, formula, elaborator);
    let form = outputs.form;
    let PieceOutputs {
        lrat,
        core,
        counts,
        ..
    } = outputs;
    match core {
        Some(core) => show_core(alloc, formula, wanted, elaborator, core, counts),
        None => show_piece(alloc, formula, wanted, elaborator, lrat, form, counts),
    }
}

/// Makes the clauses targets after the last step, if there is no conflict. Returns the first one
/// that is not live.
fn first_missing(
    alloc: Global,
    elaborator: &mut Elaborator,
    wanted: &CnfFormula,
) -> Result<Option<MissingClause>, ProofFault> {
    if elaborator.is_refuted() {
        return Ok(None);
    }
    elaborator.end_piece();
    let mut number: u64 = 0;
    for clause in wanted {
        number = number.saturating_add(1);
        if !elaborator.want(clause)? {
            let lits = clause.to_vec(alloc)?;
            return Ok(Some(MissingClause { number, lits }));
        }
    }
    Ok(None)
}

/// Passes the elaborated lines to a checker that stores the formula. Returns the verdict, which
/// that checker decides.
pub(crate) fn show_piece<L: Write + Drop>(
    alloc: Global,
    formula: &CnfFormula,
    wanted: &CnfFormula,
    elaborator: &mut Elaborator,
    lrat: &mut Option<L>,
    form: LineForm,
    counts: &Cell<RunCounts>,
) -> Result<PieceVerdict, PieceFault>
    ensures run { IsReadPieceRun formula.now wanted.now result }
    ensures decided { IfOk result (λ verdict. verdict ≢ NotCarried) }
    ensures lines { WritesRead form formula.now wanted.now
        (bytes_in L.contents lrat.old) (bytes_in L.contents lrat.new) result }
{
    let mut no_steps: Option<L> = None;
    let mut checker = match write_lines(
        alloc,
        formula,
        elaborator,
        lrat,
        form,
        &mut no_steps,
        counts,
    ) {
        Ok(checker) => checker,
        Err(fault) => return Err(PieceFault::Run(fault)),
    };
    if checker.refuted() {
        return end_lines(lrat, PieceVerdict::Refuted);
    }
    let ids = match stored_ids(alloc, &mut checker, elaborator, wanted, lrat, form, counts) {
        Ok(ids) => ids,
        Err(fault) => return Err(fault),
    };
    if !checker.holds(wanted, &ids) {
        return Err(PieceFault::Lost);
    }
    end_lines(lrat, PieceVerdict::Carried)
}

/// Flushes the writer of lines, and returns the verdict.
fn end_lines<L: Write>(
    lrat: &mut Option<L>,
    verdict: PieceVerdict,
) -> Result<PieceVerdict, PieceFault>
    ensures verdict { IfOk result (λ answer. answer ≡ verdict) }
    ensures kept { Keeps (bytes_in L.contents lrat.old) (bytes_in L.contents lrat.new) }
    ensures fault { IfErr result IsAfterFormulas }
{
    match flush(lrat) {
        Ok(()) => Ok(verdict),
        Err(fault) => Err(PieceFault::Run(RunFault::Lrat(fault))),
    }
}
