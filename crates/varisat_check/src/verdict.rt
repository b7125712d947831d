//! Verdicts and their lines.
ghost use Rattle.std.specs.Prelude.{Some};
ghost use Rattle.varisat_check.specs.Verdicts.{line_of, shown_line, shows_unsat};

use crate::run::write_line;
use std::io::Write;
use std::{fmt, io};
use verdicts::{Claims, Shown};

/// What a proof that was accepted up to its end has shown.
#[derive(Clone, Copy, Debug, PartialEq, Eq)]
pub enum Verdict {
    /// No assignment satisfies the formula.
    Unsatisfiable,
    /// No assignment satisfies the formula together with this many input clauses, one or more, that
    /// the proof added.
    UnsatisfiableWithAdded(u64),
    /// Unsatisfiability is not recorded. The formula may be satisfiable or not.
    NotShown,
}

/// A proof is asked for the formula's unsatisfiability.
impl Claims for Verdict {
    ghost claimed = { shows_unsat };

    fn claims(&self) -> bool {
        matches!(self, Verdict::Unsatisfiable)
    }
}

impl Shown for Verdict {
    ghost line = { shown_line };

    fn write_line<W: Write>(&self, out: &mut W) -> io::Result<()> {
        write_line(out, *self)
    }
}

/// Writes the verdict's line, without a line feed.
impl fmt::Display for Verdict {
    ghost output = { λ verdict. Some (line_of verdict) };

    fn fmt<W: fmt::Write>(&self, f: &mut fmt::Formatter<W>) -> fmt::Result {
        match *self {
            Verdict::Unsatisfiable => write!(f, "s UNSATISFIABLE"),
            Verdict::UnsatisfiableWithAdded(count) => {
                write!(f, "s UNSATISFIABLE WITH {count} ADDED CLAUSES")
            }
            Verdict::NotShown => write!(f, "s NOT SHOWN"),
        }
    }
}
