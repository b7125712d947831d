//! Laws of LRAT text.
ghost use Rattle.lrat_text.specs.Rows.{TextRows};

/// What some texts say.
pub fn text_rows()
    ensures { TextRows }
{}
