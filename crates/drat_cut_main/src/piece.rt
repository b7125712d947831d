//! The length of a piece.
use command::Call;
use drat_cut::Taken;

/// The points at which pieces may end.
#[derive(Clone, Copy)]
pub struct Limits {
    /// After at least this many lemmas, less those that the piece before had above its number.
    lemmas: u64,
    /// With at most this many live clauses; `None` is twice as many as the piece has lemmas.
    live: Option<u64>,
}

impl Limits {
    /// Returns the limits that a call asks for, or `None` if a number is not one from 1 on.
    pub fn of_call(call: &Call<'_>) -> Option<Limits> {
        let lemmas = match call.value("--lemmas") {
            None => 20_000,
            Some(word) => number_of(word)?,
        };
        let live = match call.value("--live") {
            None => None,
            Some(word) => Some(number_of(word)?),
        };
        Some(Limits { lemmas, live })
    }
}

/// Returns the number of a word, if it is one from 1 on.
fn number_of(word: &str) -> Option<u64> {
    word.parse::<u64>().ok().filter(|number| *number > 0)
}

/// The piece that is being written.
#[derive(Clone, Copy)]
pub struct Piece {
    limits: Limits,
    /// How many lemmas it has at least.
    least: u64,
    /// How many lemmas it has.
    pub lemmas: u64,
    /// The most clauses that lived in it at once.
    most: u64,
    /// Whether the last step was a deletion.
    deleted: bool,
}

impl Piece {
    /// Returns the first piece, which begins with this many live clauses.
    pub fn new(limits: Limits, live: usize) -> Piece {
        Piece {
            limits,
            least: limits.lemmas,
            lemmas: 0,
            most: live as u64,
            deleted: false,
        }
    }

    /// Returns the piece behind this one, with this many live clauses between them. What this one
    /// has too much the next one has less, down to half, so that the pieces are as many as expected
    /// although they end only where deletions do.
    pub fn next(self, live: usize) -> Piece {
        let surplus = self.lemmas.saturating_sub(self.least);
        let lemmas = self.limits.lemmas;
        Piece {
            least: lemmas.saturating_sub(surplus.min(lemmas / 2)),
            ..Piece::new(self.limits, live)
        }
    }

    /// Returns whether the proof is cut before the next step: deletions have just ended, a fifth of
    /// the most that lived is gone or the piece has become long, and few clauses live, so that the
    /// written clauses stay few compared with the proof.
    pub fn is_done(&self, live: usize, deletes_next: bool) -> bool {
        let least = self.least;
        if !self.deleted || deletes_next || self.lemmas < least {
            return false;
        }
        let live = live as u64;
        let is_low = live / 4 < self.most / 5;
        let is_long = self.lemmas / 3 >= least;
        (is_low || is_long) && live <= self.limits.live.unwrap_or(self.lemmas.saturating_mul(2))
    }

    /// Notes that a step was taken, after which this many clauses live.
    pub fn take(&mut self, taken: Taken, live: usize) {
        match taken {
            Taken::Nothing => return,
            Taken::Deletion => self.deleted = true,
            Taken::Lemma => {
                self.deleted = false;
                self.lemmas = self.lemmas.saturating_add(1);
            }
        }
        self.most = self.most.max(live as u64);
    }
}
