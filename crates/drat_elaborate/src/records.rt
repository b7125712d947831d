//! The records of the checked clauses, kept until their lines are read.
use crate::byte_stack::ByteStack;
use crate::clauses::{ClauseIndex, ClauseLink, narrow};
use crate::fault::ElaborateFault;
use lrat_text::Hint;
use std::alloc::{AllocError, Global};

/// A hint in four bytes: the clause, and whether it is a RAT candidate.
#[derive(Clone, Copy)]
pub(crate) struct PackedHint(u32);

impl PackedHint {
    /// Returns the antecedent hint of a clause.
    pub(crate) fn along(clause: ClauseIndex) -> PackedHint {
        PackedHint(clause.number().wrapping_mul(2))
    }

    /// Returns the candidate hint of a clause.
    pub(crate) fn against(clause: ClauseIndex) -> PackedHint {
        PackedHint(clause.number().wrapping_mul(2) | 1)
    }

    /// Returns the clause.
    pub(crate) fn clause(self) -> ClauseIndex {
        ClauseIndex::from_number(self.0 / 2)
    }

    /// Returns whether the clause is a RAT candidate.
    pub(crate) fn is_against(self) -> bool {
        self.0 % 2 == 1
    }

    /// Returns the hint, over the id of its clause.
    pub(crate) fn with_id(self, id: u64) -> Hint {
        if self.0 % 2 == 0 {
            Hint::Along(id)
        } else {
            Hint::Against(id)
        }
    }
}

/// A checked clause with its lists.
#[derive(Drop)]
pub(crate) struct Record {
    /// None for the empty clause that ends the proof.
    pub(crate) clause: ClauseLink,
    pub(crate) hints: Vec<PackedHint>,
    /// The clauses that no later line uses.
    pub(crate) dying: Vec<ClauseIndex>,
}

impl Record {
    pub(crate) fn new(alloc: Global) -> Record {
        Record {
            clause: ClauseLink::none(),
            hints: Vec::new(alloc),
            dying: Vec::new(alloc),
        }
    }
}

/// Records, the last of which is read first.
///
/// Numbers of clauses are kept as their distances before the checked one, most of which are small.
#[derive(Drop)]
pub(crate) struct Records {
    numbers: ByteStack,
}

impl Records {
    pub(crate) fn new(alloc: Global) -> Records {
        Records {
            numbers: ByteStack::new(alloc),
        }
    }

    /// Pushes the record of a clause. `leading` has the last hint first; the other lists are in
    /// order.
    pub(crate) fn push(
        &mut self,
        clause: ClauseLink,
        leading: &[ClauseIndex],
        groups: &[PackedHint],
        dying: &[ClauseIndex],
    ) -> Result<(), ElaborateFault> {
        let base = clause.number();
        for clause in dying.iter().rev() {
            self.numbers.push(base.wrapping_sub(clause.number()))?;
        }
        self.numbers.push(narrow(dying.len())?)?;
        for hint in groups.iter().rev() {
            self.push_hint(base, *hint)?;
        }
        self.numbers.push(narrow(groups.len())?)?;
        for hint in leading {
            self.numbers.push(base.wrapping_sub(hint.number()))?;
        }
        self.numbers.push(narrow(leading.len())?)?;
        self.numbers.push(base)?;
        Ok(())
    }

    /// Pushes a hint of a RAT candidate.
    fn push_hint(&mut self, base: u32, hint: PackedHint) -> Result<(), AllocError> {
        self.numbers.push(hint.0 % 2)?;
        self.numbers.push(base.wrapping_sub(hint.clause().number()))
    }

    /// Pops the last record into `record`. Returns whether there was one.
    pub(crate) fn pop(&mut self, record: &mut Record) -> Result<bool, AllocError> {
        if self.numbers.is_empty() {
            return Ok(false);
        }
        let base = self.numbers.pop();
        record.clause = ClauseLink::from_number(base);
        self.pop_hints(base, &mut record.hints)?;
        record.dying.clear();
        for _ in 0..self.numbers.pop() {
            record.dying.push(self.pop_clause(base))?;
        }
        Ok(true)
    }

    /// Pops the leading hints, and then those of the candidates.
    fn pop_hints(&mut self, base: u32, hints: &mut Vec<PackedHint>) -> Result<(), AllocError> {
        hints.clear();
        for _ in 0..self.numbers.pop() {
            hints.push(PackedHint::along(self.pop_clause(base)))?;
        }
        for _ in 0..self.numbers.pop() {
            let clause = self.pop_clause(base);
            hints.push(if self.numbers.pop() == 0 {
                PackedHint::along(clause)
            } else {
                PackedHint::against(clause)
            })?;
        }
        Ok(())
    }

    /// Pops the number of a clause, kept as its distance before `base`.
    #[inline(always)]
    fn pop_clause(&mut self, base: u32) -> ClauseIndex {
        ClauseIndex::from_number(base.wrapping_sub(self.numbers.pop()))
    }
}
