//! Words of a line: literals, variables, hashes and bytes.
//!
//! A function that returns a `Result` fails if its text has not this form, or there is no memory.
use proof_bytes::ClauseHash;
use sat_formula::{CnfFormula, Lit, Var};
use std::alloc::Global;
use std::test::Fail;

/// Returns the first word, and the text after it.
pub fn first_word(text: &str) -> (&str, &str) {
    match text.split_once(' ') {
        Some(parts) => parts,
        None => (text, ""),
    }
}

/// Returns the literals and the hashes of a line, which a colon divides.
pub fn by_hashes(text: &str) -> (&str, &str) {
    match text.split_once(':') {
        Some(parts) => parts,
        None => (text, ""),
    }
}

/// Returns the literals of these DIMACS numbers.
pub fn lits(alloc: Global, numbers: &str) -> Result<Vec<Lit>, Fail> {
    let mut lits = Vec::new(alloc);
    for number in numbers.split_whitespace() {
        lits.push(lit(number)?)?;
    }
    Ok(lits)
}

/// Returns the literal of a DIMACS number.
fn lit(number: &str) -> Result<Lit, Fail> {
    Ok(Lit::from_dimacs(number.parse::<i64>()?).ok_or("no literal")?)
}

/// Returns literals, each with the hash after its colon.
pub fn hashed_lits(alloc: Global, pairs: &str) -> Result<Vec<(Lit, ClauseHash)>, Fail> {
    let mut hashed = Vec::new(alloc);
    for pair in pairs.split_whitespace() {
        let (number, name) = pair.split_once(':').ok_or("a unit without hash")?;
        hashed.push((lit(number)?, hash(name)?))?;
    }
    Ok(hashed)
}

/// Returns the variable of this DIMACS number.
pub fn var(number: &str) -> Result<Var, Fail> {
    Ok(Var::from_dimacs(number.parse::<i64>()?).ok_or("no variable")?)
}

/// Returns the variable of this DIMACS number, or `None` for a dash.
pub fn optional_var(number: &str) -> Result<Option<Var>, Fail> {
    match number {
        "-" => Ok(None),
        _ => Ok(Some(var(number)?)),
    }
}

/// Returns the hashes of these names.
pub fn hashes(alloc: Global, names: &str) -> Result<Vec<ClauseHash>, Fail> {
    let mut hashes = Vec::new(alloc);
    for name in names.split_whitespace() {
        hashes.push(hash(name)?)?;
    }
    Ok(hashes)
}

/// Returns the hash of this name: a capital letter of the table, or the hash as a hexadecimal
/// number.
pub fn hash(name: &str) -> Result<ClauseHash, Fail> {
    Ok(match name {
        // Of [1 2], [1 -2], [-1 2] and [-1 -2].
        "A" => 0xC4AF_7593_0295_082A,
        "B" => 0x66E7_FF54_8263_8C41,
        "C" => 0x66D7_FE5A_834B_8C15,
        "D" => 0xC49F_749D_03BD_087E,
        // Of [-2 3] and [-3 4].
        "Y" => 0xEE39_864A_815D_9C3D,
        "Z" => 0x665B_8A4E_80B7_8CED,
        _ => u64::from_str_radix(name, 16)?,
    })
}

/// Returns the bytes of hexadecimal numbers.
pub fn bytes(alloc: Global, numbers: &str) -> Result<Vec<u8>, Fail> {
    let mut bytes = Vec::new(alloc);
    for number in numbers.split_whitespace() {
        bytes.push(u8::from_str_radix(number, 16)?)?;
    }
    Ok(bytes)
}

/// Returns the text with line feeds in place of bars.
pub fn lines_at_bars(alloc: Global, text: &str) -> Result<String, Fail> {
    Ok(text.replace(alloc, '|', "\n")?)
}

/// Returns the formula of these clauses, each of which ends with a bar.
pub fn formula(alloc: Global, clauses: &str) -> Result<CnfFormula, Fail> {
    let mut formula = CnfFormula::new(alloc);
    for clause in lines_at_bars(alloc, clauses)?.lines() {
        formula.add_clause(&lits(alloc, clause)?)?;
    }
    Ok(formula)
}
