//! Verdicts and their lines.
ghost use Rattle.std.specs.Prelude.{◌≡◌};
ghost use Rattle.verdicts.specs.Verdicts.{shown_line, shows_unsat, verdict_of};

use crate::shown::Shown;
use crate::status::Claims;
use std::io;
use std::io::Write;
use whole_writes::write_whole;

/// What a proof whose lines were all accepted has shown of its formula.
#[derive(Clone, Copy, Debug, PartialEq, Eq)]
pub enum Verdict {
    /// No assignment satisfies the formula: the proof derives the empty clause.
    Verified,
    /// The proof does not derive the empty clause. The formula may be satisfiable or not.
    NotVerified,
}

impl Verdict {
    /// Returns the verdict by whether the formula was refuted.
    pub fn of(refuted: bool) -> Verdict
        ensures { result ≡ verdict_of refuted }
    {
        if refuted {
            Verdict::Verified
        } else {
            Verdict::NotVerified
        }
    }

    /// Returns the bytes of its line, with the line feed.
    pub fn line(self) -> &'static [u8]
        ensures { result.now ≡ shown_line self }
    {
        match self {
            Verdict::Verified => b"s VERIFIED UNSAT\n",
            Verdict::NotVerified => b"s NOT VERIFIED\n",
        }
    }
}

/// A proof is asked for the empty clause.
impl Claims for Verdict {
    ghost claimed = { shows_unsat };

    fn claims(&self) -> bool {
        matches!(self, Verdict::Verified)
    }
}

impl Shown for Verdict {
    ghost line = { shown_line };

    fn write_line<W: Write>(&self, out: &mut W) -> io::Result<()> {
        write_whole(out, self.line())
    }
}
