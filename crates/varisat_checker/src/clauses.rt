//! The stored clauses, and the call that adds an input clause.
pub use checker_steps::steps::add_clause::add_clause;
pub use clause_store::clauses::{
    Clause, ClauseLits, Clauses, DeleteClauseResult, StoreClauseResult, UnitClause, UnitId,
    buckets, collect, counts, crowd, delete, delete_clause, lits, lower, rebuild, store,
    store_clause, store_unit_clause, units,
};
