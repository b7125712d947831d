//! Laws of indices.
ghost use Rattle.index_text.specs.Rows.{RelationRows, StanzaRows, VersionRows};

/// Texts that are versions, and texts that are none.
pub fn version_rows()
    ensures { VersionRows }
{}

/// What some relations say.
pub fn relation_rows()
    ensures { RelationRows }
{}

/// Which stanzas some texts have.
pub fn stanza_rows()
    ensures { StanzaRows }
{}
