//! Hashes of literals, which are combined to the hash of a clause.
ghost use Rattle.std.specs.Prelude.{◌≡◌};
ghost use Rattle.checker_rules.specs.State.{lit_code_hash};

use sat_formula::Lit;

/// The hash of a clause, a bucket's name.
pub type ClauseHash = u64;

const MULTIPLIER: u64 = 0x9E37_79B9_7F4A_7C15;

/// Returns the hash of a literal's code, or of a code beyond those of literals, which is that of a
/// literal without a solver name.
pub fn lit_code_hash(code: usize) -> ClauseHash
    ensures { result ≡ lit_code_hash code }
{
    (code as u64).wrapping_add(1).wrapping_mul(MULTIPLIER)
}

/// Returns the hash of a literal by its own code.
pub fn lit_hash(lit: Lit) -> ClauseHash
    ensures { result ≡ lit_code_hash lit }
{
    lit_code_hash(lit.code())
}
