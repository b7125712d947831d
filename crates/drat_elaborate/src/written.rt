//! The clauses as they were written, in bytes.
use crate::byte_stack::{MORE, MOST_PIECES, PIECE, piece};
use crate::clauses::narrow;
use crate::fault::ElaborateFault;
use crate::local::LocalLit;
use std::alloc::{AllocError, Global};

/// For each clause the number of its literals and their codes. The lowest piece of each number is
/// first, and all but the highest are marked with `MORE`.
#[derive(Drop)]
pub(crate) struct Written {
    bytes: Vec<u8>,
}

impl Written {
    pub(crate) fn new(alloc: Global) -> Written {
        Written {
            bytes: Vec::new(alloc),
        }
    }

    /// Stores the literals of a clause. Returns the position where they begin.
    pub(crate) fn push(&mut self, lits: &[LocalLit]) -> Result<u32, ElaborateFault> {
        let place = narrow(self.bytes.len())?;
        self.push_number(narrow(lits.len())?)?;
        for lit in lits {
            self.push_number(lit.code())?;
        }
        Ok(place)
    }

    /// Appends a number.
    #[inline(always)]
    fn push_number(&mut self, number: u32) -> Result<(), AllocError> {
        let mut rest = number;
        for _ in 1..MOST_PIECES {
            if rest < MORE as u32 {
                break;
            }
            self.bytes.push(piece(rest) | MORE)?;
            rest >>= PIECE;
        }
        self.bytes.push(piece(rest))?;
        Ok(())
    }

    /// Reads the literals at a position into a list.
    pub(crate) fn read(&self, place: u32, lits: &mut Vec<LocalLit>) -> Result<(), AllocError> {
        lits.clear();
        let (count, mut rest) = take_number(self.bytes.get(place as usize..).unwrap_or(&[]));
        for _ in 0..count {
            let (code, after) = take_number(rest);
            lits.push(LocalLit::from_code(code))?;
            rest = after;
        }
        Ok(())
    }
}

/// Returns the first number of some bytes, and the bytes after it.
#[inline(always)]
fn take_number(bytes: &[u8]) -> (u32, &[u8]) {
    match bytes {
        [low, rest @ ..] if low & MORE == 0 => (*low as u32, rest),
        [low, next, rest @ ..] if next & MORE == 0 => {
            let number = (low & !MORE) as u32 | (*next as u32).wrapping_shl(PIECE);
            (number, rest)
        }
        _ => take_long(bytes),
    }
}

/// Returns the first number of some bytes, whatever its length, and the bytes after it.
fn take_long(bytes: &[u8]) -> (u32, &[u8]) {
    let mut number = 0u32;
    let mut rest = bytes;
    for piece in 0..MOST_PIECES {
        let [byte, after @ ..] = rest else {
            break;
        };
        number |= ((byte & !MORE) as u32).wrapping_shl(piece.wrapping_mul(PIECE));
        rest = after;
        if byte & MORE == 0 {
            break;
        }
    }
    (number, rest)
}
