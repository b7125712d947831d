//! What a run writes in addition to its verdict: the lines that the checker accepted, as LRAT and
//! as DRAT, and the clauses of the formula that they use.
ghost use Rattle.std.specs.Prelude.{◌≡◌, ◌∷◌, [], IfOk, None, OnErr, OnOk};
ghost use Rattle.std.specs.Io.KnownBytes.{Appends, Keeps};
ghost use Rattle.lrat_text.specs.NextLine.{view};
ghost use Rattle.sat_output.specs.FormulaTexts.{formula_text};
ghost use Rattle.sat_output.specs.LineForms.{lines_in};
ghost use Rattle.whole_writes.specs.Beginnings.{AppendsBeginning};
ghost use Rattle.drat_check.specs.Outputs.{BeganCore, BeganLines, HasWritten, IsLineFault, IsPartOf, WroteCore, WroteProof, bytes_in};
ghost use Rattle.verdicts.specs.Texts.{IsUnsatisfiable};

use crate::counts::{RunCounts, count_line};
use crate::fault::{ProofFault, RunFault};
use crate::proof::line_fault;
use crate::trimmed::{begun_by, steps_of, write_steps};
use drat_elaborate::Elaborator;
use lrat_checker::LratChecker;
use lrat_text::LratLine;
use sat_formula::CnfFormula;
use sat_output::{LineForm, number_after, write_formula, write_lrat_line};
use std::alloc::{AllocError, Global};
use std::cell::Cell;
use std::io;
use std::io::{Sink, Write};

/// What a run writes in addition to its verdict, each if there is a writer for it, and what it
/// counts.
#[derive(Drop)]
pub struct Outputs<L, C> {
    /// The lines of the LRAT proof.
    pub lrat: Option<L>,
    /// How these lines are written.
    pub form: LineForm,
    /// The same as steps of DRAT, without ids and hints.
    pub trim: Option<L>,
    /// The clauses of the formula that they use.
    pub core: Option<C>,
    /// What was counted so far. No contract constrains it.
    pub counts: Cell<RunCounts>,
}

impl Outputs<Sink, Sink> {
    /// Returns those of a run that is asked for its verdict alone: none.
    pub fn none() -> Outputs<Sink, Sink>
        ensures lrat { result.lrat ≡ None }
        ensures trim { result.trim ≡ None }
        ensures core { result.core ≡ None }
    {
        Outputs {
            lrat: None,
            form: LineForm::Text,
            trim: None,
            core: None,
            counts: Cell::default(),
        }
    }
}

/// Passes the elaborated lines to a checker that stores the formula, up to the empty clause, and
/// writes each accepted line, as LRAT and as DRAT.
///
/// # Errors
///
/// `Proof` if a line is rejected, there is none for the empty clause, or memory runs out; `Lrat` or
/// `Trim` if a write failed.
pub(crate) fn write_proof<L: Write, C>(
    alloc: Global,
    formula: &CnfFormula,
    elaborator: &mut Elaborator,
    outputs: &mut Outputs<L, C>,
) -> Result<(), RunFault>
    ensures shown { OnOk result (IsUnsatisfiable formula.now) }
    ensures whole { OnOk result (WroteProof outputs.old.form formula.now
        (bytes_in L.contents outputs.old.lrat) (bytes_in L.contents outputs.new.lrat)
        (bytes_in L.contents outputs.old.trim) (bytes_in L.contents outputs.new.trim)) }
    ensures beginning { OnErr result (BeganLines outputs.old.form formula.now
        (bytes_in L.contents outputs.old.lrat) (bytes_in L.contents outputs.new.lrat)
        (bytes_in L.contents outputs.old.trim) (bytes_in L.contents outputs.new.trim)) }
    ensures fault { IsLineFault result }
    ensures form { outputs.new.form ≡ outputs.old.form }
    ensures core { outputs.new.core ≡ outputs.old.core }
{
    let form = outputs.form;
    let Outputs {
        lrat,
        trim,
        counts,
        ..
    } = outputs;
    let checker = match write_lines(alloc, formula, elaborator, lrat, form, trim, counts) {
        Ok(checker) => checker,
        Err(fault) => return Err(fault),
    };
    if !checker.refuted() {
        return Err(RunFault::Proof(ProofFault::Unfinished));
    }
    end_lines(lrat, trim)
}

/// Passes the elaborated lines to a checker that stores the formula, up to the empty clause or the
/// last one, writes each accepted line, as LRAT and as DRAT, and returns the checker.
///
/// # Errors
///
/// `Proof` if a line is rejected or memory runs out; `Lrat` or `Trim` if a write failed.
pub(crate) fn write_lines<L: Write>(
    alloc: Global,
    formula: &CnfFormula,
    elaborator: &mut Elaborator,
    lrat: &mut Option<L>,
    form: LineForm,
    trim: &mut Option<L>,
    counts: &Cell<RunCounts>,
) -> Result<LratChecker, RunFault>
    ensures whole { IfOk result (λ checker. HasWritten form formula.now
        (bytes_in L.contents lrat.old) (bytes_in L.contents lrat.new)
        (bytes_in L.contents trim.old) (bytes_in L.contents trim.new) checker) }
    ensures beginning { OnErr result (BeganLines form formula.now
        (bytes_in L.contents lrat.old) (bytes_in L.contents lrat.new)
        (bytes_in L.contents trim.old) (bytes_in L.contents trim.new)) }
    ensures fault { IsLineFault result }
{
    let mut checker = match LratChecker::new(alloc, formula) {
        Ok(checker) => checker,
        Err(fault) => return Err(RunFault::Proof(ProofFault::from(fault))),
    };
    let mut last = formula.len() as u64;
    let mut has_begun = false;
    'lines: for line in 1..u64::MAX {
        if checker.refuted() {
            return Ok(checker);
        }
        match elaborator.next_line() {
            Ok(Some(entry)) => {
                let steps = match steps_of(alloc, trim, has_begun, &checker, entry) {
                    Ok(steps) => steps,
                    Err(fault) => return Err(RunFault::Trim(io::Error::from(fault))),
                };
                if let Err(fault) = checker.check_line(entry) {
                    return Err(RunFault::Proof(line_fault(line, fault)));
                }
                if let Err(fault) = write_accepted(alloc, lrat, form, last, entry) {
                    return Err(RunFault::Lrat(fault));
                }
                if let Err(fault) = write_steps(trim, &steps) {
                    return Err(RunFault::Trim(fault));
                }
                last = number_after(last, entry);
                has_begun = begun_by(has_begun, entry);
                count_line(counts, entry);
            }
            Ok(None) => return Ok(checker),
            Err(fault) => return Err(RunFault::Proof(ProofFault::from(fault))),
        }
    }
    Err(RunFault::Proof(ProofFault::Unfinished))
}

/// Writes a line, if there is a writer for lines.
pub(crate) fn write_accepted<L: Write>(
    alloc: Global,
    lrat: &mut Option<L>,
    form: LineForm,
    last: u64,
    line: LratLine<'_>,
) -> io::Result<()>
    ensures whole { OnOk result (Appends (bytes_in L.contents lrat.old)
        (bytes_in L.contents lrat.new) (lines_in form last (view line.entry ∷ []))) }
    ensures beginning { OnErr result (AppendsBeginning (bytes_in L.contents lrat.old)
        (bytes_in L.contents lrat.new) (lines_in form last (view line.entry ∷ []))) }
{
    match lrat {
        Some(out) => write_lrat_line(alloc, out, form, last, line),
        None => Ok(()),
    }
}

/// Flushes the writers of lines and of steps.
fn end_lines<L: Write>(lrat: &mut Option<L>, trim: &mut Option<L>) -> Result<(), RunFault>
    ensures lrat { Keeps (bytes_in L.contents lrat.old) (bytes_in L.contents lrat.new) }
    ensures trim { Keeps (bytes_in L.contents trim.old) (bytes_in L.contents trim.new) }
    ensures fault { IsLineFault result }
{
    if let Err(fault) = flush(lrat) {
        return Err(RunFault::Lrat(fault));
    }
    match flush(trim) {
        Ok(()) => Ok(()),
        Err(fault) => Err(RunFault::Trim(fault)),
    }
}

/// Flushes a writer, if there is one.
pub(crate) fn flush<W: Write>(out: &mut Option<W>) -> io::Result<()>
    ensures { Keeps (bytes_in W.contents out.old) (bytes_in W.contents out.new) }
{
    match out {
        Some(out) => out.flush(),
        None => Ok(()),
    }
}

/// Writes the clauses of the formula that the elaborated lines use, if there is a writer for them.
pub(crate) fn write_core<C: Write>(
    alloc: Global,
    formula: &CnfFormula,
    elaborator: &Elaborator,
    core: &mut Option<C>,
) -> io::Result<()>
    ensures whole { OnOk result (WroteCore formula.now
        (bytes_in C.contents core.old) (bytes_in C.contents core.new)) }
    ensures beginning { OnErr result (BeganCore formula.now
        (bytes_in C.contents core.old) (bytes_in C.contents core.new)) }
{
    match core {
        Some(out) => write_used(alloc, formula, elaborator, out),
        None => Ok(()),
    }
}

/// Writes the clauses of the formula that the elaborated lines use.
fn write_used<C: Write>(
    alloc: Global,
    formula: &CnfFormula,
    elaborator: &Elaborator,
    out: &mut C,
) -> io::Result<()>
    ensures whole { OnOk result (WroteCore formula.now
        (C.contents out.old) (C.contents out.new)) }
    ensures beginning { OnErr result (BeganCore formula.now
        (C.contents out.old) (C.contents out.new)) }
{
    let used = used_clauses(alloc, formula, elaborator)?;
    write_clauses(alloc, &used, out)
}

/// Writes a formula, and flushes the writer.
pub(crate) fn write_clauses<C: Write>(
    alloc: Global,
    formula: &CnfFormula,
    out: &mut C,
) -> io::Result<()>
    ensures whole { OnOk result (Appends (C.contents out.old) (C.contents out.new)
        (formula_text formula.now)) }
    ensures beginning { OnErr result (AppendsBeginning (C.contents out.old) (C.contents out.new)
        (formula_text formula.now)) }
{
    match write_formula(alloc, out, formula) {
        Ok(()) => out.flush(),
        Err(fault) => Err(fault),
    }
}

/// Returns the clauses of the formula that the elaborated lines use, in their order.
pub(crate) fn used_clauses(
    alloc: Global,
    formula: &CnfFormula,
    elaborator: &Elaborator,
) -> Result<CnfFormula, AllocError>
    ensures { IfOk result (λ used. IsPartOf used formula.now) }
{
    let mut used = CnfFormula::new(alloc);
    let mut index: usize = 0;
    for clause in formula {
        if elaborator.is_used(index) {
            used.add_clause(clause)?;
        }
        index = index.saturating_add(1);
    }
    Ok(used)
}
