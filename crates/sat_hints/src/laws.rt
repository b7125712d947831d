//! Laws of the text of hint lines. Each function does nothing: its clause is the law.
ghost use Rattle.sat_hints.specs.{WrittenRuns.WriterIsAccepted, WrittenRuns.WriterShowsRun, WrittenText.WrittenIsRead, WrittenTexts.TextIsAccepted, WrittenTexts.TextIsRead};

/// The text that is written of a line is read as that line.
pub fn written_is_read()
    ensures { WrittenIsRead }
{}

/// What is written of several lines is read as those lines.
pub fn text_is_read()
    ensures { TextIsRead }
{}

/// A checker with the formula accepts what a writer writes of a run without a fault.
pub fn text_is_accepted()
    ensures { TextIsAccepted }
{}

/// A new writer that takes steps in turn without a fault has written their lines.
pub fn writer_shows_run()
    ensures { WriterShowsRun }
{}

/// A checker with the formula accepts what a new writer wrote of a run, and returns true exactly if
/// a step derives the empty clause.
pub fn writer_is_accepted()
    ensures { WriterIsAccepted }
{}
