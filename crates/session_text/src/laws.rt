//! Laws of the texts of sessions.
ghost use Rattle.std.specs.Prelude.{◌≡◌, ℕ, List};
ghost use Rattle.session_text.specs.Rows.{TextRows};
ghost use Rattle.session_text.specs.Texts.{outcome_of};
ghost use Rattle.session_text.specs.automaton.Texts.{outcome_read};
ghost use Rattle.session_text.specs.declared.format.Format.{Format};

/// What some texts say.
pub fn text_rows()
    ensures { TextRows }
{}

/// Read byte after byte a text says what its lines say, of which those in binary are read as such.
pub fn bytes_are_lines()
    ensures { (format : Format) (text : List ℕ) → outcome_read format text ≡ outcome_of format text }
{}
