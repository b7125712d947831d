//! For which literals and ids tables have slots.
ghost use Rattle.std.specs.Prelude.{◌≡◌};
ghost use Rattle.clause_table.specs.Room.{gets_place, gets_room};

/// How many literals have slots before any is stored.
const SPARE_LITS: u64 = 1 << 14;

/// How many clauses have slots before any is stored.
const SPARE_CLAUSES: u64 = 1 << 12;

/// Ids from here on have no slots.
const FIRST_FAR_ID: u64 = 1 << 40;

/// Returns whether a table has a slot for the literal of a code: there are at most four for each
/// literal that was stored.
pub fn gets_room(code: usize, stored: u64) -> bool
    ensures { result ≡ gets_room stored code }
{
    code as u64 / 4 <= stored.saturating_add(SPARE_LITS)
}

/// Returns whether a table has a slot for the clause of an id: there are at most four for each
/// clause that was stored.
pub fn gets_place(id: u64, stored: u64) -> bool
    ensures { result ≡ gets_place stored id }
{
    id < FIRST_FAR_ID && id / 4 <= stored.saturating_add(SPARE_CLAUSES)
}
