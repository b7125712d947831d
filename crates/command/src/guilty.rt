//! The word or the header at which a formula is at fault.
use crate::system::System;
use sat_formula::bytes::is_blank;
use sat_formula::{DimacsFault, DimacsKind, Lit};
use std::io::{BufRead, BufReader};
use std::str;

/// At most this many bytes of it are shown.
const SHOWN: usize = 60;

/// The line on which the text of a formula is at fault, and what is wrong there.
#[derive(Clone, Copy)]
pub struct FaultLine {
    pub line: u64,
    pub kind: DimacsKind,
}

impl FaultLine {
    /// Returns the line of a fault, or `None` if it is no fault of the text.
    pub fn of(fault: &DimacsFault) -> Option<FaultLine> {
        match fault {
            DimacsFault::Malformed { line, kind } => Some(FaultLine {
                line: *line,
                kind: *kind,
            }),
            DimacsFault::Read(_) | DimacsFault::OutOfMemory => None,
        }
    }

    /// Prints to standard error the wrong word or header. A regular file is opened again for it.
    pub(crate) fn say<S: System>(self, rt: &S, name: &str) {
        let Some(line) = self.line_of(rt, name) else {
            return;
        };
        if let Some(part) = guilty_part(line.as_slice(), self.kind) {
            let (shown, rest) = match part.split_at_checked(SHOWN) {
                Some((shown, [_, ..])) => (shown, ".."),
                _ => (part, ""),
            };
            let (kind, shown) = (self.kind, shown.escape_ascii());
            let _ = eprintln!(rt; "{kind}: {shown}{rest}");
        }
    }

    /// Returns the line, read again from the file.
    fn line_of<S: System>(self, rt: &S, name: &str) -> Option<Vec<u8>> {
        let mut text = BufReader::new(rt.alloc(), rt.open_again(name)?).ok()?;
        for _ in 1..self.line {
            text.skip_until(b'\n').ok()?;
        }
        let mut line = Vec::new(rt.alloc());
        text.read_until(b'\n', &mut line).ok()?;
        Some(line)
    }
}

/// Returns the wrong part of a line: the whole of a header, or the first word that is no number or
/// too large.
fn guilty_part(line: &[u8], kind: DimacsKind) -> Option<&[u8]> {
    match kind {
        DimacsKind::BadNumber | DimacsKind::VarTooLarge => line
            .split(|byte| is_blank(*byte) || *byte == b'\n')
            .find(|word| !word.is_empty() && !is_number(word)),
        DimacsKind::BadHeader | DimacsKind::LateHeader => Some(line.trim_ascii()),
        DimacsKind::UnterminatedClause => None,
    }
}

/// Returns whether a word is a number that a clause may have.
fn is_number(word: &[u8]) -> bool {
    let digits = word.strip_prefix(b"-").unwrap_or(word);
    let number = match str::from_utf8(word) {
        Ok(word) => word.parse::<i64>().ok(),
        Err(_) => None,
    };
    let is_literal = number.and_then(Lit::from_dimacs).is_some();
    digits.iter().all(|byte| byte.is_ascii_digit())
        && (is_literal || word == digits && number == Some(0))
}
