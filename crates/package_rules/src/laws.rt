//! Laws over the definitions alone. Each function does nothing: its clause is the law.
ghost use Rattle.package_rules.specs.Formulas.{InstallationsAreModels, NoneHasIsShown, NoneIsShown};
ghost use Rattle.package_rules.specs.LookUps.{LookUpIsEnough};
ghost use Rattle.package_rules.specs.Rows.{PackageRows};

/// A set of packages is an installation exactly if it satisfies the clauses.
pub fn installations_are_models()
    ensures { InstallationsAreModels }
{}

/// If no assignment satisfies the clauses, there is no installation.
pub fn none_is_shown()
    ensures { NoneIsShown }
{}

/// If no assignment satisfies the clauses and the clause of some places, no installation has a
/// package at one of these places.
pub fn none_has_is_shown()
    ensures { NoneHasIsShown }
{}

/// Versions of Debian, and a small archive.
pub fn package_rows()
    ensures { PackageRows }
{}

/// The packages that have a need's name are all that can meet it.
pub fn look_up_is_enough()
    ensures { LookUpIsEnough }
{}
