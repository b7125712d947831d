//! Laws of DRAT and FRAT proofs.
ghost use Rattle.drat_text.specs.Rows.{DratRows};
ghost use Rattle.drat_text.specs.FratRows.{FratRows};

/// What some proofs in DRAT say.
pub fn drat_rows()
    ensures { DratRows }
{}

/// What some proofs in FRAT say.
pub fn frat_rows()
    ensures { FratRows }
{}
