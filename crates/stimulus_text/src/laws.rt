//! Laws of stimuli.
ghost use Rattle.stimulus_text.specs.Laws.{BytesAreLines};
ghost use Rattle.stimulus_text.specs.Rows.{StimulusRows};

/// Byte after byte a text says what its lines say.
pub fn bytes_are_lines()
    ensures { BytesAreLines }
{}

/// What some texts say.
pub fn stimulus_rows()
    ensures { StimulusRows }
{}
