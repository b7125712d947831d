//! The live clauses of a proof, as its steps are read.
use crate::clause::ReadClause;
use crate::fault::CutFault;
use crate::live::LiveClauses;
use crate::slots::Slot;
use crate::steps::{CutStep, ProofSteps};
use crate::text::push_clause;
use crate::units::Units;
use sat_formula::Lit;
use std::alloc::Global;
use std::io::{Read, Write};
use std::{io, mem};
use written_numbers::words::push_literals;

/// How the additions of a proof are read.
#[derive(Clone, Copy, PartialEq, Eq)]
pub enum Additions {
    /// As in DRAT: all literals are the clause's, and repeated ones are ignored.
    Drat,
    /// As in DPR: if the first literal is repeated, the literals from there on are the clause's
    /// witness.
    Dpr,
}

/// The effect of a step.
#[derive(Clone, Copy, PartialEq, Eq)]
pub enum Taken {
    Lemma,
    Deletion,
    /// None: it deletes a clause that is not live or is the reason of a literal, or adds a
    /// tautology, or comes after a conflict.
    Nothing,
}

/// The live clauses at a position of a proof.
///
/// Units are propagated, and the reason of a literal is not deleted, as in backward checkers.
///
/// # Errors
///
/// `OutOfMemory`, or `TooMany` clauses; after an error the live clauses are unspecified.
#[derive(Drop)]
pub struct Cutter {
    alloc: Global,
    live: LiveClauses,
    units: Units,
    /// The clause of the formula that was read.
    read: ReadClause,
    additions: Additions,
    /// The highest number of a variable in the formula and the steps that were taken.
    var_count: usize,
    /// The clause that was read, and then its step, where their text is written anew.
    text: Vec<u8>,
}

impl Cutter {
    /// Returns a cutter at the start of a formula. Allocates no memory.
    pub fn new(alloc: Global, additions: Additions) -> Cutter {
        Cutter {
            alloc,
            live: LiveClauses::new(alloc),
            units: Units::new(alloc),
            read: ReadClause::new(alloc),
            additions,
            var_count: 0,
            text: Vec::new(alloc),
        }
    }

    /// Returns how many clauses are live.
    pub fn live_count(&self) -> usize {
        self.live.slots.count()
    }

    /// Returns whether propagation has led to a conflict: the steps so far refute the formula.
    pub fn has_conflict(&self) -> bool {
        self.units.conflict
    }

    /// Adds a clause of the formula.
    ///
    /// # Errors
    ///
    /// `OutOfMemory`, or `TooMany` if more clauses are live than 31 bits number.
    pub fn add_formula_clause(&mut self, clause: &[Lit]) -> Result<(), CutFault> {
        self.read.read(clause)?;
        self.var_count = self.read.var_count;
        if self.read.is_tautology {
            return Ok(());
        }
        self.text.clear();
        push_clause(&mut self.text, clause)?;
        let slot = self.live.put_formula_clause(&self.text, clause)?;
        self.units.attach(&mut self.live.slots, slot, clause)
    }

    /// Ends the formula, and returns the steps of a proof, which this cutter takes. Reads nothing
    /// yet.
    ///
    /// # Errors
    ///
    /// `OutOfMemory`.
    pub fn steps<R: Read + Drop>(&mut self, proof: R) -> Result<ProofSteps<R>, CutFault> {
        let mut read = mem::replace(&mut self.read, ReadClause::new(self.alloc));
        self.live.end_formula(&mut read)?;
        Ok(ProofSteps::new(self.alloc, proof, self.additions, read))
    }

    /// Takes a step of the proof, and returns its effect.
    ///
    /// # Errors
    ///
    /// As for `add_formula_clause`.
    pub fn take(&mut self, step: &CutStep<'_>) -> Result<Taken, CutFault> {
        if self.units.conflict {
            return Ok(Taken::Nothing);
        }
        self.var_count = step.clause.var_count;
        if step.deletes {
            self.delete(step)
        } else {
            self.add(step)
        }
    }

    /// Adds a lemma.
    fn add(&mut self, step: &CutStep<'_>) -> Result<Taken, CutFault> {
        let clause = step.clause;
        if clause.is_tautology {
            return Ok(Taken::Nothing);
        }
        let slot = match step.written() {
            Some(text) => self.live.put(text, clause.hash)?,
            None => self.put_written(clause)?,
        };
        self.units
            .attach(&mut self.live.slots, slot, clause.lits())?;
        Ok(Taken::Lemma)
    }

    /// Adds a lemma by a text that is written for it, and then writes that of its step. Returns its
    /// slot.
    fn put_written(&mut self, clause: &ReadClause) -> Result<Slot, CutFault> {
        self.text.clear();
        push_clause(&mut self.text, clause.lits())?;
        let slot = self.live.put(&self.text, clause.hash)?;
        self.text.clear();
        push_literals(&mut self.text, clause.lits())?;
        push_clause(&mut self.text, clause.witness())?;
        Ok(slot)
    }

    /// Deletes a clause, if there is one with the literals of the step.
    fn delete(&mut self, step: &CutStep<'_>) -> Result<Taken, CutFault> {
        let Some(slot) = self.live.take(step.clause.hash) else {
            return Ok(Taken::Nothing);
        };
        self.units.detach(&self.live.slots, slot);
        self.live.slots.release(slot)?;
        if step.written().is_none() {
            self.text.clear();
            self.text.extend_from_slice(b"d ")?;
            push_clause(&mut self.text, step.clause.lits())?;
        }
        Ok(Taken::Deletion)
    }

    /// Writes a step that was taken last and had an effect.
    ///
    /// # Errors
    ///
    /// The fault of the first write that failed.
    pub fn write_step<W: Write>(&self, step: &CutStep<'_>, out: &mut W) -> io::Result<()> {
        out.write_all(step.written().unwrap_or(&self.text))
    }

    /// Writes the live clauses as a formula.
    ///
    /// # Errors
    ///
    /// The fault of the first write that failed; a beginning of the formula is written then.
    pub fn write_live<W: Write>(&self, out: &mut W) -> io::Result<()> {
        let (vars, count) = (self.var_count, self.live.slots.count());
        writeln!(out, "p cnf {vars} {count}")?;
        for number in 0..self.live.slots.len() {
            if let Some(slot) = self.live.slots.living(number) {
                out.write_all(self.live.slots.text(slot))?;
            }
        }
        Ok(())
    }
}
