//! Verdicts, their lines and their exit statuses.
ghost use Rattle.std.specs.Prelude.{◌≡◌};
ghost use Rattle.follows_check.specs.Verdicts.{decides, ended_of, shown_line};

use std::io;
use std::io::Write;
use verdicts::{Claims, Refusal, Shown};
use whole_writes::write_whole;

/// The verdict on a formula and claims.
#[derive(Clone, Copy, Debug, PartialEq, Eq)]
pub enum Verdict {
    /// Each assignment that satisfies the formula satisfies all claims.
    Follows,
    /// Some assignment satisfies the formula and makes all literals of this claim false, the first
    /// such one of the answer, which ends on this line; both count from 1.
    NotFollows { claim: u64, line: u64 },
    /// The proof ends before it shows that the claims follow.
    Open,
    /// No literal of the answer is in this clause of the formula, the first such one, which ends on
    /// this line; both count from 1.
    Unmet { clause: u64, line: u64 },
    /// The answer satisfies the formula, and makes all literals of no claim false.
    NoneFails,
}

impl Verdict {
    /// Returns the bytes of the verdict's line, with the line feed.
    pub fn line(self) -> &'static [u8]
        ensures { result.now ≡ shown_line self }
    {
        match self {
            Verdict::Follows => b"s VERIFIED FOLLOWS\n",
            Verdict::NotFollows { .. } => b"s VERIFIED NOT FOLLOWS\n",
            Verdict::Open | Verdict::Unmet { .. } | Verdict::NoneFails => b"s NOT VERIFIED\n",
        }
    }
}

/// A proof or an answer is asked whether the claims follow.
impl Claims for Verdict {
    ghost claimed = { decides };

    fn claims(&self) -> bool {
        matches!(self, Verdict::Follows | Verdict::NotFollows { .. })
    }
}

impl Shown for Verdict {
    ghost line = { shown_line };

    fn write_line<W: Write>(&self, out: &mut W) -> io::Result<()> {
        write_whole(out, self.line())
    }
}

/// Returns the exit status of a run's verdict: 20 if the claims follow, 10 if one does not, 3 if
/// neither is shown.
///
/// # Errors
///
/// `Failed` if the run was rejected.
pub fn ended<E>(outcome: &Result<Verdict, E>) -> Result<u8, Refusal>
    ensures { result ≡ ended_of outcome.now }
{
    match outcome {
        Ok(Verdict::Follows) => Ok(20),
        Ok(Verdict::NotFollows { .. }) => Ok(10),
        Ok(_) => Ok(3),
        Err(_) => Err(Refusal::Failed),
    }
}
