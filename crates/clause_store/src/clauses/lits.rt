//! The literals of a stored clause.
ghost use Rattle.std.specs.Prelude.{◌≡◌, ◌+◌, ◌<◌, ◌≤◌, ◌++◌, ◌^◌, length, IfOk, OnErr, OnOk, take, drop};
ghost use Rattle.checker_rules.specs.LiveLiterals.{live_of};
ghost use Rattle.clause_store.specs.Lits.{lits_of, IsWithin, buffer_used, in_buffer, moved_to};

use sat_formula::lit::Lit;
use std::alloc::AllocError;
use std::marker::Model;

/// The position at which literals begin in the buffer, as two numbers of four bytes.
///
/// A number of eight bytes would make each stored clause eight bytes longer.
#[derive(Clone, Copy)]
pub struct Start {
    low: u32,
    high: u32,
}

impl Model for Start {
    ghost use Rattle.std.specs.Prelude.{ℕ, ◌+◌, ◌*◌, ◌/◌, ◌%◌, ◌<◌, ◌^◌};
    ghost use Rattle.std.proofs.lemmas.Nat.{div-mul-add, mod-mul-add};

    ghost Value = { ℕ };

    ghost view = { λ s. s.high * 2 ^ 32 + s.low };

    ghost invariant = { λ s. s.low < 2 ^ 32 };

    ghost inverse = { λ n. record { low = n % 2 ^ 32; high = n / 2 ^ 32 } };

    ghost inverse_ok = { λ s h i. record {
      low = mod-mul-add s.high (2 ^ 32) s.low h i;
      high = div-mul-add s.high (2 ^ 32) s.low h i;
    } };
}

impl Start {
    #[inline(always)]
    fn of(at: usize) -> Start
        ensures { result ≡ at }
    {
        Start {
            low: (at % (1 << 32)) as u32,
            high: (at >> 32) as u32,
        }
    }

    #[inline(always)]
    fn get(self) -> usize
        ensures { result ≡ self }
    {
        ((self.high as usize) << 32) + self.low as usize
    }
}

/// The literals of a clause of two or more: two or three in place, or a range of the buffer.
#[derive(Clone, Copy)]
pub enum ClauseLits {
    Two([Lit; 2]),
    Three([Lit; 3]),
    /// Four literals and those after them.
    Long { start: Start, after_four: u32 },
}

impl ClauseLits {
    /// Returns two or more literals, stored in the buffer if there are more than three.
    ///
    /// # Errors
    ///
    /// `AllocError` if memory runs out; the buffer is unchanged.
    pub fn new(lits: &[Lit], buffer: &mut Vec<Lit>) -> Result<ClauseLits, AllocError>
        requires { 1 < length lits.now }
        ensures ok { IfOk result (λ c. lits_of c buffer.new.items ≡ lits.now) }
        ensures within { IfOk result (λ c. IsWithin c buffer.new.items) }
        ensures used { IfOk result (λ c. buffer_used c ≡ live_of lits.now) }
        ensures buffer { IfOk result (λ c. length buffer.new.items ≡ length buffer.old.items +
            buffer_used c) }
        ensures kept { take (length buffer.old.items) buffer.new.items ≡ buffer.old.items }
        ensures err { OnErr result (buffer.new.items ≡ buffer.old.items) }
    {
        match lits {
            [a, b] => Ok(ClauseLits::Two([*a, *b])),
            [a, b, c] => Ok(ClauseLits::Three([*a, *b, *c])),
            _ => {
                let start = Start::of(buffer.len());
                let after_four = after_four(lits)?;
                buffer.extend_from_slice(lits)?;
                Ok(ClauseLits::Long { start, after_four })
            }
        }
    }

    /// Returns the literals, given the buffer that they were kept in.
    pub fn slice<'c>(&'c self, buffer: &'c [Lit]) -> &'c [Lit]
        requires { IsWithin self.now buffer.now }
        ensures { result.now ≡ lits_of self.now buffer.now }
    {
        match self {
            ClauseLits::Two(lits) => lits,
            ClauseLits::Three(lits) => lits,
            ClauseLits::Long { start, after_four } => in_range(buffer, *start, *after_four),
        }
    }

    /// Appends the literals that are in the buffer to another buffer.
    ///
    /// # Errors
    ///
    /// `AllocError` if memory runs out.
    pub fn copy_to(&self, buffer: &[Lit], other: &mut Vec<Lit>) -> Result<(), AllocError>
        requires { IsWithin self.now buffer.now }
        ensures copied { OnOk result (other.new.items ≡ other.old.items ++
            in_buffer buffer.now self.now) }
        ensures used { OnOk result (length other.new.items ≡ length other.old.items +
            live_of (lits_of self.now buffer.now)) }
    {
        match self {
            ClauseLits::Two([_a, _b]) => Ok(()),
            ClauseLits::Three([_a, _b, _c]) => Ok(()),
            ClauseLits::Long { start, after_four } => {
                other.extend_from_slice(in_range(buffer, *start, *after_four))
            }
        }
    }

    /// Makes the literals in the buffer those of another from `at` on. Returns where they end
    /// there.
    pub fn move_to(&mut self, at: usize) -> usize
        requires { at + buffer_used self.old < 2 ^ 64 }
        ensures moved { self.new ≡ moved_to at self.old }
        ensures end { result ≡ at + buffer_used self.old }
    {
        match self {
            ClauseLits::Long { start, after_four } => {
                *start = Start::of(at);
                at + (*after_four as usize + 4)
            }
            _ => at,
        }
    }

    /// Returns how many literals of such a clause are in the buffer.
    pub fn buffer_size(lits: &[Lit]) -> usize
        ensures { result ≡ live_of lits.now }
    {
        if lits.len() > 3 { lits.len() } else { 0 }
    }
}

/// Four literals of the buffer from a position on, and those after them.
#[inline(always)]
fn in_range(buffer: &[Lit], start: Start, after_four: u32) -> &[Lit]
    requires { start + (after_four + 4) ≤ length buffer.now }
    ensures { result.now ≡ take (after_four + 4) (drop start buffer.now) }
{
    let start = start.get();
    &buffer[start..start + (after_four as usize + 4)]
}

/// Returns how many literals follow the first four.
///
/// No stored clause has more than 32 bits can count, since its literals are distinct. The contract
/// here does not say so, and the error stands for a clause that is never stored.
fn after_four(lits: &[Lit]) -> Result<u32, AllocError>
    requires { 4 ≤ length lits.now }
    ensures { IfOk result (λ more. more + 4 ≡ length lits.now) }
{
    u32::try_from(lits.len() - 4).map_err(|_| AllocError)
}
