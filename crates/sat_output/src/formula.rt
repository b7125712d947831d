//! Formulas as DIMACS text.
ghost use Rattle.std.specs.Prelude.{◌≡◌, ◌++◌, ◌∷◌, [], IfOk, OnErr, OnOk};
ghost use Rattle.std.specs.Io.KnownBytes.{Appends};
ghost use Rattle.sat_output.specs.FormulaTexts.{clause_text, clauses_text, formula_text, header_text};
ghost use Rattle.whole_writes.specs.Beginnings.{AppendsBeginning};

use crate::step::push_addition;
use sat_formula::{CnfFormula, Lit};
use std::alloc::{AllocError, Global};
use std::io;
use std::io::Write;
use whole_writes::append_whole;
use written_numbers::words::{push_decimal, push_number};

/// Writes a formula as DIMACS text: a header with its numbers of variables and of clauses, and a
/// line for each clause. A buffered writer may keep some of it back.
///
/// # Errors
///
/// That of the writer, or out of memory. A beginning of the text is written then.
pub fn write_formula<W: Write>(alloc: Global, out: &mut W, formula: &CnfFormula) -> io::Result<()>
    ensures whole { OnOk result (Appends (W.contents out.old) (W.contents out.new)
        (formula_text formula.now)) }
    ensures beginning { OnErr result (AppendsBeginning (W.contents out.old) (W.contents out.new)
        (formula_text formula.now)) }
{
    let text = header(alloc, formula)?;
    append_whole(out, &text)?;
    write_clauses(alloc, out, formula)
}

/// Writes the clauses' lines.
fn write_clauses<W: Write>(alloc: Global, out: &mut W, formula: &CnfFormula) -> io::Result<()>
    ensures whole { OnOk result (Appends (W.contents out.old) (W.contents out.new)
        (clauses_text formula.now)) }
    ensures beginning { OnErr result (AppendsBeginning (W.contents out.old) (W.contents out.new)
        (clauses_text formula.now)) }
{
    for clause in formula {
        write_clause(alloc, out, clause)?;
    }
    Ok(())
}

/// Writes a clause's line.
fn write_clause<W: Write>(alloc: Global, out: &mut W, clause: &[Lit]) -> io::Result<()>
    ensures whole { OnOk result (Appends (W.contents out.old) (W.contents out.new)
        (clause_text clause.now ++ 10 ∷ [])) }
    ensures beginning { OnErr result (AppendsBeginning (W.contents out.old) (W.contents out.new)
        (clause_text clause.now ++ 10 ∷ [])) }
{
    let text = clause_line(alloc, clause)?;
    append_whole(out, &text)
}

/// Returns the header's text, with its LF.
fn header(alloc: Global, formula: &CnfFormula) -> Result<Vec<u8>, AllocError>
    ensures { IfOk result (λ text. text.items ≡ header_text formula.now ++ 10 ∷ []) }
{
    let mut text = Vec::from_slice(alloc, b"p cnf ")?;
    push_number(&mut text, formula.var_count() as u64)?;
    push_decimal(&mut text, formula.len() as u64)?;
    text.push(b'\n')?;
    Ok(text)
}

/// Returns a clause's text, with its LF.
fn clause_line(alloc: Global, clause: &[Lit]) -> Result<Vec<u8>, AllocError>
    ensures { IfOk result (λ text. text.items ≡ clause_text clause.now ++ 10 ∷ []) }
{
    let mut text = Vec::new(alloc);
    push_addition(&mut text, clause)?;
    Ok(text)
}
