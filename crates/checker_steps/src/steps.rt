//! The kinds of step, one file each. Their rules have the same names in the definitions.
pub mod add_clause;
pub mod assumptions;
pub mod at_clause;
pub mod change_hash_bits;
pub mod change_sampling_mode;
pub mod delete_clause;
pub mod delete_var;
mod derived;
pub mod failed_assumptions;
pub mod model;
pub mod solver_var_name;
pub mod unit_clauses;
pub mod user_var_name;
