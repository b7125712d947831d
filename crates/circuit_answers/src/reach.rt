//! What a stimulus shows of a machine.
ghost use Rattle.std.specs.Prelude.{◌≡◌};
ghost use Rattle.circuit_answers.specs.Reached.{is_reached, reach_line};

use verdicts::Claims;

/// What a machine does that is run by a stimulus. Steps and latches count from 0.
#[derive(Clone, Copy, Debug, PartialEq, Eq)]
pub enum Reach {
    /// A bad output is true at this step, and all constraints are true up to it.
    At(usize),
    /// The first value of this latch is not its reset.
    OtherStart(usize),
    /// A constraint is false at this step, and no bad output was true before.
    Broken(usize),
    /// No bad output is true at any step.
    Nowhere,
}

impl Reach {
    /// Returns the line of the verdict, with the line feed.
    pub fn line(self) -> &'static [u8]
        ensures { result.now ≡ reach_line self }
    {
        match self {
            Reach::At(_) => b"s VERIFIED REACHED\n",
            Reach::OtherStart(_) | Reach::Broken(_) | Reach::Nowhere => b"s NOT VERIFIED\n",
        }
    }
}

/// A stimulus is asked for a bad output.
impl Claims for Reach {
    ghost claimed = { is_reached };

    fn claims(&self) -> bool {
        matches!(self, Reach::At(_))
    }
}
