//! Lines of verdicts, written.
ghost use Rattle.std.specs.Prelude.{OnErr, OnOk};
ghost use Rattle.std.specs.Io.KnownBytes.{Appends};
ghost use Rattle.whole_writes.specs.Beginnings.{AppendsBeginning};
ghost use Rattle.verdicts.specs.Pieces.{piece_line};
ghost use Rattle.verdicts.specs.Verdicts.{shown_line};

use crate::piece::PieceVerdict;
use crate::verdict::Verdict;
use std::io;
use std::io::Write;
use whole_writes::write_whole;

/// Writes a verdict's line and flushes the writer.
///
/// # Errors
///
/// That of the writer. A beginning of the line is written then: all of it, if only the flush
/// failed.
pub fn write_line<W: Write>(out: &mut W, verdict: Verdict) -> io::Result<()>
    ensures whole { OnOk result
        (Appends (W.contents out.old) (W.contents out.new) (shown_line verdict)) }
    ensures beginning { OnErr result
        (AppendsBeginning (W.contents out.old) (W.contents out.new) (shown_line verdict)) }
{
    write_whole(out, verdict.line())
}

/// Writes the line of a verdict on a piece and flushes the writer.
///
/// # Errors
///
/// That of the writer. A beginning of the line is written then: all of it, if only the flush
/// failed.
pub fn write_piece_line<W: Write>(out: &mut W, verdict: PieceVerdict) -> io::Result<()>
    ensures whole { OnOk result
        (Appends (W.contents out.old) (W.contents out.new) (piece_line verdict)) }
    ensures beginning { OnErr result
        (AppendsBeginning (W.contents out.old) (W.contents out.new) (piece_line verdict)) }
{
    write_whole(out, verdict.line())
}
