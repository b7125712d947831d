//! The size classes of blocks in the arena.

/// Clauses of this many literals or more are long.
pub(crate) const LONG: usize = 96;

/// Up to this many words size classes differ by two words, above by an eighth.
const FEW_WORDS: usize = 64;

/// The size of a clause's block, which is that of clauses of nearly its length too.
#[derive(Clone, Copy)]
pub(crate) struct Room {
    words: usize,
}

impl Room {
    /// Returns the size of the block of a clause of this many literals, with the words before them.
    #[inline(always)]
    pub(crate) fn of(len: usize) -> Room {
        let words = len.saturating_add(if len < LONG { 2 } else { 4 });
        let below = if words <= FEW_WORDS {
            1
        } else {
            1usize
                .wrapping_shl(log(words).wrapping_sub(3))
                .wrapping_sub(1)
        };
        Room {
            words: words.saturating_add(below) & !below,
        }
    }

    /// Returns how many words the block has.
    pub(crate) fn words(self) -> usize {
        self.words
    }

    /// Returns the index of the size class, the smallest first.
    #[inline(always)]
    pub(crate) fn class(self) -> usize {
        if self.words <= FEW_WORDS {
            return self.words / 2;
        }
        let log = log(self.words);
        let eighths = self.words.wrapping_shr(log.wrapping_sub(3)) % 8;
        (log as usize)
            .wrapping_sub(2)
            .wrapping_mul(8)
            .wrapping_add(eighths)
    }
}

/// Returns the position of the highest bit.
#[inline(always)]
fn log(number: usize) -> u32 {
    63u32.saturating_sub(number.leading_zeros())
}
