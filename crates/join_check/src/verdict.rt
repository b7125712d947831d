//! Verdicts on receipts, and their lines.
ghost use Rattle.std.specs.Prelude.{◌≡◌};
ghost use Rattle.join_check.specs.Verdicts.{shown_line, shows_unsat};

use arrayvec::ArrayString;
use itoa::Buffer;
use std::io;
use std::io::Write;
use thiserror::Error;
use verdicts::{Claims, Shown};
use whole_writes::write_whole;

/// The line of a verdict. The longest one has 50 bytes, 20 of them digits.
type Line = ArrayString<50>;

/// Whether receipts show that no assignment satisfies a formula.
#[derive(Clone, Copy, Debug, PartialEq, Eq)]
pub enum Verdict {
    /// They do, if all of them are honest; there are this many.
    Verified { receipts: u64 },
    /// They do not show this.
    NotVerified(Unshown),
}

/// What receipts do not show.
#[derive(Clone, Copy, Debug, PartialEq, Eq, Error)]
pub enum Unshown {
    /// That no assignment satisfies the formula of the text.
    #[error("no receipts lead from the formula to one that is refuted")]
    Formula,
    /// That none satisfies the part of this cube, the first such one, which counts from 1.
    #[error("no receipt shows part {0}")]
    Cube(u64),
    /// That none satisfies the closing part. The parts of all cubes are shown.
    #[error("no receipt shows the closing part")]
    Closing,
}

impl Verdict {
    /// Returns its line, with the line feed.
    pub fn line(self) -> Line
        ensures { result.bytes ≡ shown_line self }
    {
        match self {
            Verdict::Verified { receipts } => verified_line(receipts),
            Verdict::NotVerified(_) => {
                let mut line = Line::new();
                line.push_str("s NOT VERIFIED\n");
                line
            }
        }
    }
}

/// Returns the line of a formula that this many receipts refute.
fn verified_line(receipts: u64) -> Line
    ensures { result.bytes ≡ shown_line (Verdict.Verified receipts) }
{
    let mut line = Line::new();
    let mut buffer = Buffer::new();
    line.push_str("s VERIFIED UNSAT BY ");
    line.push_str(buffer.format(receipts));
    line.push_str(" RECEIPTS\n");
    line
}

/// Receipts are asked to show that no assignment satisfies the formula.
impl Claims for Verdict {
    ghost claimed = { shows_unsat };

    fn claims(&self) -> bool {
        matches!(self, Verdict::Verified { .. })
    }
}

impl Shown for Verdict {
    ghost line = { shown_line };

    fn write_line<W: Write>(&self, out: &mut W) -> io::Result<()> {
        write_whole(out, self.line().as_str().as_bytes())
    }
}
