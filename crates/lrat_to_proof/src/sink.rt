//! A converter and its output as what takes the lines of a proof.
use crate::converter::Converter;
use crate::fault::Stop;
use lrat_binary::LineSink;
use lrat_text::LratLine;
use std::io::Write;

/// A converter of lines, and the output of their steps.
#[derive(Drop)]
pub(crate) struct LineConverter<'a, W> {
    pub(crate) converter: &'a mut Converter,
    pub(crate) out: &'a mut W,
}

/// Takes each line that has steps, up to one after which no further line is needed.
impl<'a, W: Write> LineSink for LineConverter<'a, W> {
    ghost use Rattle.std.specs.Prelude.{◌≡◌};
    ghost use Rattle.lrat_to_proof.specs.Standing.{holding_of};
    ghost use Rattle.lrat_to_proof.specs.Taken.{HasStopped, HasTaken};

    type Fault = Stop;

    ghost is_done = { λ now. (holding_of now.converter.now.held).refuted };

    ghost has_taken = { λ first lines now.
        (now.converter.ghost_name ≡ first.converter.ghost_name)
        × (now.out.ghost_name ≡ first.out.ghost_name)
        × HasTaken (W.contents first.out.now) first.converter.now lines
        (W.contents now.out.now) now.converter.now };

    ghost has_refused = { λ first lines line stop now.
        (now.converter.ghost_name ≡ first.converter.ghost_name)
        × (now.out.ghost_name ≡ first.out.ghost_name)
        × HasStopped (W.contents first.out.now) first.converter.now lines line stop
        (W.contents now.out.now) };

    fn is_done(&self) -> bool {
        self.converter.is_done()
    }

    fn take(&mut self, line: LratLine<'_>) -> Result<(), Stop> {
        self.converter.take_line(line, self.out)
    }
}
