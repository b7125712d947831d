//! Verdicts and their lines.
ghost use Rattle.std.specs.Prelude.{◌≡◌};
ghost use Rattle.model_check.specs.Verdicts.{shown_line, shows_sat};

use std::io;
use std::io::Write;
use verdicts::{Claims, Shown};
use whole_writes::write_whole;

/// Whether the literals of an answer satisfy a formula.
#[derive(Clone, Copy, Debug, PartialEq, Eq)]
pub enum Verdict {
    /// One of them is in each clause.
    Verified,
    /// None of them is in this clause, the first such one, which ends on this line; both count from
    /// 1.
    NotVerified { clause: u64, line: u64 },
}

impl Verdict {
    /// Returns the bytes of its line, with the line feed.
    pub fn line(self) -> &'static [u8]
        ensures { result.now ≡ shown_line self }
    {
        match self {
            Verdict::Verified => b"s VERIFIED SAT\n",
            Verdict::NotVerified { .. } => b"s NOT VERIFIED\n",
        }
    }
}

/// An answer is asked for literals that satisfy the formula.
impl Claims for Verdict {
    ghost claimed = { shows_sat };

    fn claims(&self) -> bool {
        matches!(self, Verdict::Verified)
    }
}

impl Shown for Verdict {
    ghost line = { shown_line };

    fn write_line<W: Write>(&self, out: &mut W) -> io::Result<()> {
        write_whole(out, self.line())
    }
}
