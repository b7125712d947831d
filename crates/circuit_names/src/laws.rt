//! Laws of the names in circuits' texts.
ghost use Rattle.circuit_names.specs.Rows.{NameRows};

/// The names in some texts.
pub fn name_rows()
    ensures { NameRows }
{}
