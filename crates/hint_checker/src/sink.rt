//! A checker of hints as what takes the lines of a proof.
use crate::checker::HintChecker;
use crate::fault::LineFault;
use lrat_binary::LineSink;
use lrat_text::LratLine;

/// Takes each line that is accepted, and needs all of them.
impl LineSink for HintChecker {
    ghost use Rattle.std.specs.Prelude.{false};
    ghost use Rattle.hint_checker.specs.Taken.{HasRejected, HasTaken};

    type Fault = LineFault;

    ghost is_done = { λ checker. false };

    ghost has_taken = { λ first lines checker. HasTaken first lines checker };

    ghost has_refused = { λ first lines line fault checker.
        HasRejected first lines line fault checker };

    fn is_done(&self) -> bool {
        false
    }

    fn take(&mut self, line: LratLine<'_>) -> Result<(), LineFault> {
        self.check_line(line)
    }
}
