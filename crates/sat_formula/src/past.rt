//! What was read before in a text.
ghost use Rattle.std.specs.Prelude.{◌≡◌};
ghost use Rattle.sat_formula.specs.Past.{nothing_past, past_after, with_header};

use crate::counts::Counts;
use crate::word::Token;

/// What was read before in a text.
#[derive(Clone, Copy)]
pub(crate) struct Past {
    /// A number or a header.
    pub(crate) seen: bool,
    /// The counts of the header.
    pub(crate) header: Option<Counts>,
    /// The line on which the last clause ends; lines count from 1, and 0 means no clause.
    pub(crate) clause_line: u64,
}

impl Past {
    /// Returns what was read before a text: nothing.
    pub(crate) fn nothing() -> Past
        ensures { result ≡ nothing_past }
    {
        Past {
            seen: false,
            header: None,
            clause_line: 0,
        }
    }

    /// Returns this with a header of these counts.
    pub(crate) fn with_header(self, counts: Counts) -> Past
        ensures { result ≡ with_header self counts }
    {
        let mut past = self;
        past.seen = true;
        past.header = Some(counts);
        past
    }

    /// A number ends on this line.
    #[inline(always)]
    pub(crate) fn note(&mut self, token: Token, line: u64)
        ensures { self.new ≡ past_after self.old token line }
    {
        match token {
            Token::Zero => {
                self.seen = true;
                self.clause_line = line;
            }
            Token::Literal(_) => self.seen = true,
            Token::Wrong(_) => {}
        }
    }
}
