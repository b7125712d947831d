//! Clauses by their numbers.
ghost use Rattle.std.specs.Prelude.{◌≡◌, ◌<◌, ◌==◌, ◌∷◌, ◌++◌, ℕ, [], Some, if◌then◌else◌, get_or, length, IfOk, OnErr, OnOk};
ghost use Rattle.clause_table.specs.Named.{TakesLittle, clause_of};

use clause_table::NamedClauses;
use sat_formula::Lit;
use std::alloc::{AllocError, Global};
use std::marker::Model;

/// Clauses in the order in which they were added, each of which can be read by its number.
#[derive(Drop)]
pub(crate) struct NumberedClauses {
    clauses: NamedClauses,
    count: u64,
}

impl Model for NumberedClauses {
    ghost use Rattle.std.specs.Prelude.{ℕ, List};
    ghost use Rattle.clause_table.specs.Named.{clause_of};
    ghost use Rattle.session_checker.specs.Numbered.{first_clauses};

    ghost Value = { List (List ℕ) };

    ghost view = { λ n. first_clauses (clause_of n.clauses) n.count };
}

impl NumberedClauses {
    /// Returns no clauses.
    ///
    /// # Errors
    ///
    /// `AllocError` if there is no memory.
    pub(crate) fn new(alloc: Global) -> Result<NumberedClauses, AllocError>
        ensures { IfOk result (λ made. made ≡ []) }
    {
        Ok(NumberedClauses {
            clauses: NamedClauses::new(alloc, 0)?,
            count: 0,
        })
    }

    /// Returns how many clauses there are.
    #[inline(always)]
    pub(crate) fn len(&self) -> u64
        ensures { result ≡ length self.now }
    {
        self.count
    }

    /// Returns the literals of the clause of a number, from 0 on.
    #[inline(always)]
    pub(crate) fn get(&self, number: u64) -> &[Lit]
        requires { number < length self.now }
        ensures { result.now ≡ get_or self.now number [] }
    {
        match self.clauses.get(number) {
            Some(clause) => clause,
            None => &[],
        }
    }

    /// Adds a clause after all others.
    ///
    /// # Errors
    ///
    /// `AllocError` if there is no memory; the clauses are as they were.
    pub(crate) fn add(&mut self, clause: &[Lit]) -> Result<(), AllocError>
        ensures ok { OnOk result (self.new ≡ self.old ++ clause.now ∷ []) }
        ensures err { OnErr result (self.new ≡ self.old) }
    {
        let Some(more) = self.count.checked_add(1) else {
            return Err(AllocError);
        };
        store(&mut self.clauses, self.count, clause)?;
        self.count = more;
        Ok(())
    }
}

/// Stores a clause under an id. After an error the clauses are as they were.
pub(crate) fn store(named: &mut NamedClauses, id: u64, clause: &[Lit]) -> Result<(), AllocError>
    ensures put { OnOk result ((k : ℕ) → clause_of named.new k
        ≡ (if k == id then Some clause.now else clause_of named.old k)) }
    ensures err { OnErr result ((k : ℕ) → clause_of named.new k ≡ clause_of named.old k) }
    ensures tight { TakesLittle named.old → TakesLittle named.new }
{
    match named.put(id, clause) {
        Ok(()) => Ok(()),
        Err(_) => {
            named.collect_garbage();
            Err(AllocError)
        }
    }
}
