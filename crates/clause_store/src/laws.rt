//! Laws over the definitions alone. Each function does nothing: its clause is the law.
ghost use Rattle.clause_store.specs.{CheckLaw.CheckIsByRules, View.ListIs};

/// The buckets determine the list of the stored clauses.
pub fn list_is()
    ensures { ListIs }
{}

/// The check of a clause over the parts returns what the rules say.
pub fn check_is_by_rules()
    ensures { CheckIsByRules }
{}
