//! Laws over the definitions alone. Each function does nothing: its clause is the law.
ghost use Rattle.lrat_rules.specs.{Laws.LinesKeepModels, Laws.RatResolves, Laws.RunsJoin, Laws.RunsKeepModels, Laws.RupRunsFollow, Lines.RunsRefute, Refusals.CausesAreExact};
ghost use Rattle.lrat_rules.specs.{Counts.CountsCover, Maps.AdmittedIsRup, Maps.MapDecides, Maps.MetByMap, Tables.TablesDecide};
ghost use Rattle.lrat_rules.specs.{FurtherLratRows.FurtherLratRows, LratRows.LratRows};

/// A clause added by propagation is true under every model, and an accepted line keeps
/// satisfiability.
pub fn lines_keep_models()
    ensures { LinesKeepModels }
{}

/// So does an accepted list of lines.
pub fn runs_keep_models()
    ensures { RunsKeepModels }
{}

/// If the empty clause was accepted, or is one of the formula's, no assignment satisfies the
/// formula.
pub fn runs_refute()
    ensures { RunsRefute }
{}

/// If no clause was added by its pivot, every assignment that satisfies the formula satisfies all
/// that is stored.
pub fn rup_runs_follow()
    ensures { RupRunsFollow }
{}

/// Lines on small stores.
pub fn lrat_rows()
    ensures { LratRows }
{}

/// Lines on small stores, with the causes for which they are rejected.
pub fn further_lrat_rows()
    ensures { FurtherLratRows }
{}

/// The stored clauses that must be candidates are those that ids name.
pub fn met_by_map()
    ensures { MetByMap }
{}

/// The map from ids to clauses decides what may be added, in whatever order the clauses are kept.
pub fn map_decides()
    ensures { MapDecides }
{}

/// Hints that the hint machine admits are accepted as a line without candidates.
pub fn admitted_is_rup()
    ensures { AdmittedIsRup }
{}

/// Every resolvent on the pivot of an accepted clause follows from the store.
pub fn rat_resolves()
    ensures { RatResolves }
{}

/// A line has a cause for which it is rejected exactly where it is not accepted.
pub fn causes_are_exact()
    ensures { CausesAreExact }
{}

/// Candidates that have a literal as often as it is stored leave no clause out.
pub fn counts_cover()
    ensures { CountsCover }
{}

/// A table of clauses by id, with a count for each literal, decides as the store does.
pub fn tables_decide()
    ensures { TablesDecide }
{}

/// What a list of lines does, in two parts.
pub fn runs_join()
    ensures { RunsJoin }
{}
