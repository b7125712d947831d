//! Verdicts on a piece of a proof, and their lines.
ghost use Rattle.std.specs.Prelude.{◌≡◌};
ghost use Rattle.verdicts.specs.Pieces.{piece_line, shows_wanted};

use crate::shown::Shown;
use crate::status::Claims;
use crate::verdict::Verdict;
use std::io;
use std::io::Write;
use whole_writes::write_whole;

/// What a piece of a proof, whose lines were all accepted, has shown of its formula.
#[derive(Clone, Copy, Debug, PartialEq, Eq)]
pub enum PieceVerdict {
    /// No assignment satisfies the formula: the piece derives the empty clause.
    Refuted,
    /// If some assignment satisfies the formula, some assignment, perhaps another one, satisfies
    /// the target clauses.
    Carried,
    /// A target clause is missing at the end of the piece.
    NotCarried,
}

impl PieceVerdict {
    /// Returns the bytes of its line, with the line feed.
    pub fn line(self) -> &'static [u8]
        ensures { result.now ≡ piece_line self }
    {
        match self {
            PieceVerdict::Refuted => Verdict::Verified.line(),
            PieceVerdict::Carried => b"s VERIFIED PIECE\n",
            PieceVerdict::NotCarried => Verdict::NotVerified.line(),
        }
    }
}

/// A piece claims its target clauses.
impl Claims for PieceVerdict {
    ghost claimed = { shows_wanted };

    fn claims(&self) -> bool {
        matches!(self, PieceVerdict::Refuted | PieceVerdict::Carried)
    }
}

impl Shown for PieceVerdict {
    ghost line = { piece_line };

    fn write_line<W: Write>(&self, out: &mut W) -> io::Result<()> {
        write_whole(out, self.line())
    }
}
