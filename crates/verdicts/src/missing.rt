//! A clause that is missing at the end of a piece.
use sat_formula::Lit;
use std::fmt;
use std::fmt::{Display, Formatter};

/// A target clause of a piece that is missing at its end.
#[derive(Drop)]
pub struct MissingClause {
    /// Its number among the target clauses, from 1.
    pub number: u64,
    pub lits: Vec<Lit>,
}

impl Display for MissingClause {
    fn fmt<F: fmt::Write>(&self, f: &mut Formatter<F>) -> fmt::Result {
        let number = self.number;
        write!(f, "clause {number} is not derived by the piece:")?;
        for lit in &self.lits {
            let lit = lit.to_dimacs();
            write!(f, " {lit}")?;
        }
        write!(f, " 0")
    }
}
