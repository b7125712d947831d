//! What is known of a formula by several refutations: of its parts, if it is split into cubes; of
//! the last list of clauses, if its proof is cut into pieces; of the sets of assumptions of a
//! session that fail; and of a formula that says that other clauses do not follow.
//!
//! Sources: Heule, Kullmann, Wieringa, Biere, Cube and Conquer, HVC 2011; Fazekas, Pollitt, Fleury,
//! Biere, Certifying Incremental SAT Solving, LPAR 2024.
#![tactic(auto)]

pub mod laws;
