//! The status of clauses under the assignment.
use crate::local::LocalLit;
use crate::trail::{Value, value_in};

/// The status of a clause under the assignment.
#[derive(Clone, Copy)]
pub(crate) enum Standing {
    False,
    /// All literals but this one are false.
    Unit(LocalLit),
    /// A literal is true, or two are unassigned.
    Other,
}

impl Standing {
    /// Returns the status of a clause.
    pub(crate) fn of(lits: &[LocalLit], values: &[Value]) -> Standing {
        let mut free = None;
        for lit in lits {
            match value_in(values, *lit) {
                Value::False => {}
                Value::Free if free.is_none() => free = Some(*lit),
                Value::Free | Value::True => return Standing::Other,
            }
        }
        match free {
            Some(lit) => Standing::Unit(lit),
            None => Standing::False,
        }
    }
}

/// The status of a clause under the assignment, if its best two literals are the first ones.
#[derive(Clone, Copy)]
pub(crate) enum WatchStanding {
    True,
    False,
    Unit(LocalLit),
    Open,
}

impl WatchStanding {
    /// Returns the status of a clause, by its first two literals.
    pub(crate) fn of(lits: &[LocalLit], values: &[Value]) -> WatchStanding {
        let Some(first) = lits.first().copied() else {
            return WatchStanding::False;
        };
        match value_in(values, first) {
            Value::True => WatchStanding::True,
            Value::False => WatchStanding::False,
            Value::Free => match lits.get(1).copied() {
                Some(second) if value_in(values, second) != Value::False => WatchStanding::Open,
                _ => WatchStanding::Unit(first),
            },
        }
    }
}
