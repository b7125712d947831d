//! Numbers on a stack of bytes: small ones take one.
use std::alloc::{AllocError, Global};

/// A number is in pieces of seven bits.
pub(crate) const PIECE: u32 = 7;

/// The bit of a piece after which another one follows.
pub(crate) const MORE: u8 = 1 << 7;

/// A number of 32 bits has at most this many pieces.
pub(crate) const MOST_PIECES: u32 = 5;

/// Numbers, the last of which is taken first. The highest piece of each is on top, and all but the
/// lowest are marked with `MORE`.
#[derive(Drop)]
pub(crate) struct ByteStack {
    bytes: Vec<u8>,
}

impl ByteStack {
    pub(crate) fn new(alloc: Global) -> ByteStack {
        ByteStack {
            bytes: Vec::new(alloc),
        }
    }

    pub(crate) fn is_empty(&self) -> bool {
        self.bytes.is_empty()
    }

    /// Pushes a number. After an error the stack is unspecified.
    #[inline(always)]
    pub(crate) fn push(&mut self, number: u32) -> Result<(), AllocError> {
        self.bytes.push(piece(number))?;
        let mut rest = number >> PIECE;
        for _ in 1..MOST_PIECES {
            if rest == 0 {
                break;
            }
            self.bytes.push(piece(rest) | MORE)?;
            rest >>= PIECE;
        }
        Ok(())
    }

    /// Pops a number, and returns it; 0 if there is none.
    #[inline(always)]
    pub(crate) fn pop(&mut self) -> u32 {
        let mut number = 0u32;
        for _ in 0..MOST_PIECES {
            let byte = self.bytes.pop().unwrap_or(0);
            number = number.wrapping_shl(PIECE) | (byte & !MORE) as u32;
            if byte & MORE == 0 {
                break;
            }
        }
        number
    }
}

/// Returns the lowest seven bits.
#[inline(always)]
pub(crate) fn piece(number: u32) -> u8 {
    (number & 0x7f) as u8
}
