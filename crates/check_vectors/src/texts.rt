//! Proofs and formulas' texts as lines of text.
//!
//! - `proof BYTES`: a proof, bytes in hexadecimal;
//! - `long COUNT BYTES`: a proof that adds the empty clause this many times before these bytes;
//! - `dimacs TEXT`: a formula's text, in which a bar stands for the end of a line;
//! - `failing READ KIND TEXT`: such a text by one byte a read, of which the read of this number,
//!   counted from 1, fails. 0: none does.
use crate::cuts::{Cuts, Reads};
use crate::words::{bytes, first_word, lines_at_bars};
use std::alloc::Global;
use std::io::ErrorKind;
use std::test::Fail;

/// A proof or a formula's text, and how it is read.
#[derive(Drop)]
pub struct Text {
    pub is_proof: bool,
    bytes: Vec<u8>,
    reads: Reads,
}

impl Text {
    /// Returns the text of a line, read with this many bytes a read unless the line says that a
    /// read fails.
    ///
    /// # Errors
    ///
    /// If the line is no such text, or there is no memory.
    pub fn of(alloc: Global, line: &str, size: usize) -> Result<Text, Fail> {
        let (reads, text) = reads_of(line, size)?;
        let (name, rest) = first_word(text);
        let bytes = match name {
            "proof" => bytes(alloc, rest)?,
            "long" => long_proof(alloc, rest)?,
            "dimacs" => lines_at_bars(alloc, rest)?.as_bytes().to_vec(alloc)?,
            _ => return Err("neither a proof nor a text".into()),
        };
        Ok(Text {
            is_proof: name != "dimacs",
            bytes,
            reads,
        })
    }

    /// Returns a reader of the text.
    pub fn cuts(&self) -> Cuts<'_> {
        Cuts::new(&self.bytes, self.reads)
    }
}

/// Returns how the text of a line is read, and the text.
fn reads_of(line: &str, size: usize) -> Result<(Reads, &str), Fail> {
    let ("failing", rest) = first_word(line) else {
        let reads = Reads {
            size,
            failing: 0,
            kind: ErrorKind::Other,
        };
        return Ok((reads, line));
    };
    let (number, rest) = first_word(rest);
    let (kind, text) = first_word(rest);
    let reads = Reads {
        size: 1,
        failing: number.parse::<u32>()?,
        kind: kind_of_fault(kind)?,
    };
    Ok((reads, text))
}

/// Returns the kind of a read's fault, by its name.
fn kind_of_fault(name: &str) -> Result<ErrorKind, Fail> {
    match name {
        "UnexpectedEof" => Ok(ErrorKind::UnexpectedEof),
        "Interrupted" => Ok(ErrorKind::Interrupted),
        "PermissionDenied" => Ok(ErrorKind::PermissionDenied),
        "Other" => Ok(ErrorKind::Other),
        _ => Err("no such kind".into()),
    }
}

/// Returns the bytes of a proof of the line `long`.
fn long_proof(alloc: Global, line: &str) -> Result<Vec<u8>, Fail> {
    let (count, last) = first_word(line);
    let mut proof = Vec::new(alloc);
    for _ in 0..count.parse::<u32>()? {
        proof.extend_from_slice(b"\x05\x00".as_slice())?;
    }
    proof.extend_from_slice(&bytes(alloc, last)?)?;
    Ok(proof)
}
