//! Lines of verdicts on circuits.
ghost use Rattle.std.specs.Prelude.{◌≡◌};
ghost use Rattle.circuit_check.specs.Verdicts.{claim_line};

use drat_check::Verdict;

/// What a proof is asked to show.
#[derive(Clone, Copy, Debug, PartialEq, Eq)]
pub enum Claim {
    /// No input makes an output true.
    Never,
    /// Two circuits have the same outputs for the same input.
    Same,
    /// No run of a machine makes a bad output true.
    Safe,
}

impl Claim {
    /// Returns the line of a verdict, with the line feed.
    pub fn line(self, verdict: Verdict) -> &'static [u8]
        ensures { result.now ≡ claim_line self verdict }
    {
        match verdict {
            Verdict::NotVerified => b"s NOT VERIFIED\n",
            Verdict::Verified => match self {
                Claim::Never => b"s VERIFIED NEVER\n",
                Claim::Same => b"s VERIFIED SAME\n",
                Claim::Safe => b"s VERIFIED SAFE\n",
            },
        }
    }
}
