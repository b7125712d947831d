//! What is wrong with a line.
ghost use Rattle.std.specs.Prelude.{◌≡◌};
ghost use Rattle.lrat_binary.specs.Kinds.{line_kind};

use drat_text::DratKind;
use lrat_text::LineKind;

/// Returns the fault of a line, by that of its bytes.
pub(crate) fn line_kind(kind: DratKind) -> LineKind
    ensures { result ≡ line_kind kind }
{
    match kind {
        DratKind::Malformed => LineKind::Malformed,
        DratKind::NumberTooLarge => LineKind::NumberTooLarge,
        DratKind::Unfinished => LineKind::Unfinished,
    }
}
