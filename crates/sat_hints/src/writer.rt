//! A writer of lines of hints: a processor of checked steps.
ghost use Rattle.std.specs.Prelude.{◌≡◌, ◌+◌, ◌++◌, ◌∷◌, ℕ, suc, List, [], None, map, decimal, IfErr, IfOk, OnErr, OnOk};
ghost use Rattle.checker_parts.specs.CheckedSteps.{step_of};
ghost use Rattle.sat_rules.specs.HintLines.{adds_clause, deletes_clauses};
ghost use Rattle.checker_rules.specs.HintRun.{puts_derived, puts_input, removes};
ghost use Rattle.checker_rules.specs.WrittenLines.{new_writer, number_of, writer_fault};
ghost use Rattle.sat_hints.specs.WrittenText.{lines_text};
ghost use Rattle.sat_hints.specs.Writing.{IsFault, Wrote, WroteLine, WroteNothing, fitting, hints_fault, step_fault, writer_of, written};
ghost use Rattle.written_numbers.specs.Words.{spaced};

use crate::fault::WriterFault;
use checker_parts::processor::{CheckerData, ProofProcessor};
use checker_parts::step::CheckedProofStep;
use sat_formula::lit::Lit;
use std::alloc::{AllocError, Global};
use std::collections::HashSet;
use written_numbers::words::{push_literals, push_number};

/// Writes the steps that it receives as lines of hints in the LRAT format.
///
/// The clauses of the formula have the numbers from 1 on, in order; the number of any other clause
/// comes after all that were announced. So the writer must receive all input clauses first, and at
/// most as many as were announced. `output` is the text written so far. A step with an error
/// changes nothing.
#[derive(Drop)]
pub struct LratWriter {
    alloc: Global,
    /// How many clauses the formula has.
    announced: u64,
    /// The ids of the input clauses that were received.
    inputs: HashSet<u64>,
    /// How many input clauses were received.
    told: u64,
    /// Whether a derived clause was received.
    derived: bool,
    /// The number of the last line that adds a clause.
    last: u64,
    text: Vec<u8>,
}

impl LratWriter {
    /// Returns a writer for a formula of this many clauses.
    pub fn new(alloc: Global, clauses: u64) -> LratWriter
        ensures writer { writer_of result ≡ new_writer clauses }
        ensures text { written result ≡ [] }
    {
        LratWriter {
            alloc,
            announced: clauses,
            inputs: HashSet::new(alloc),
            told: 0,
            derived: false,
            last: clauses,
            text: Vec::new(alloc),
        }
    }

    /// Writes the line of a step, if it has one.
    ///
    /// # Errors
    ///
    /// `InputAfterDerived` and `TooManyInputs` for an input clause out of place, `NumberOutOfRange`
    /// if an id's number is 2^64 or more, `OutOfMemory` if memory runs out. The writer is
    /// unchanged.
    pub fn write_step(&mut self, step: &CheckedProofStep) -> Result<(), WriterFault>
        ensures ok { OnOk result (Wrote self.old (step_of step.now) self.new) }
        ensures err { OnErr result (WroteNothing self.old self.new) }
        ensures fault { IfErr result (λ fault. IsFault fault
            (step_fault (writer_of self.old) (step_of step.now))) }
    {
        match step {
            CheckedProofStep::AddClause { id, .. }
            | CheckedProofStep::DuplicatedClause { id, .. }
            | CheckedProofStep::TautologicalClause { id, .. } => self.note_input(*id),
            CheckedProofStep::AtClause {
                id,
                clause,
                propagations,
                ..
            } => self.write_addition(*id, clause, propagations),
            CheckedProofStep::DeleteClause { id, .. }
            | CheckedProofStep::DeleteRatClause { id, .. }
            | CheckedProofStep::DeleteAtClause {
                id,
                keep_as_redundant: false,
                ..
            } => self.write_deletion(*id),
            _ => Ok(()),
        }
    }

    /// Keeps the id of an input clause.
    fn note_input(&mut self, id: u64) -> Result<(), WriterFault>
        ensures ok { OnOk result ((c : List ℕ) → WroteLine self.old (puts_input id c) self.new) }
        ensures err { OnErr result (WroteNothing self.old self.new) }
        ensures fault { IfErr result (λ fault. IsFault fault
            (writer_fault (writer_of self.old) (puts_input id []))) }
    {
        if self.derived {
            return Err(WriterFault::InputAfterDerived);
        }
        if self.told >= self.announced {
            return Err(WriterFault::TooManyInputs);
        }
        if id == u64::MAX {
            return Err(WriterFault::NumberOutOfRange);
        }
        self.inputs.insert(id)?;
        self.told += 1;
        Ok(())
    }

    /// Writes the line of a derived clause.
    fn write_addition(
        &mut self,
        id: u64,
        clause: &[Lit],
        propagations: &[u64],
    ) -> Result<(), WriterFault>
        ensures ok { OnOk result (WroteLine self.old (puts_derived id clause.now propagations.now)
            self.new) }
        ensures err { OnErr result (WroteNothing self.old self.new) }
        ensures fault { IfErr result (λ fault. IsFault fault
            (writer_fault (writer_of self.old) (puts_derived id clause.now propagations.now))) }
    {
        let number = self.later_number(id).ok_or(WriterFault::NumberOutOfRange)?;
        let line = self.addition(number, clause, propagations)?;
        self.text.extend_from_slice(&line)?;
        self.derived = true;
        self.last = number;
        Ok(())
    }

    /// Writes the line that deletes a clause.
    fn write_deletion(&mut self, id: u64) -> Result<(), WriterFault>
        ensures ok { OnOk result (WroteLine self.old (removes id) self.new) }
        ensures err { OnErr result (WroteNothing self.old self.new) }
        ensures fault { IfErr result (λ fault. IsFault fault
            (writer_fault (writer_of self.old) (removes id))) }
    {
        let number = self.number(id).ok_or(WriterFault::NumberOutOfRange)?;
        let line = self.deletion(number)?;
        self.text.extend_from_slice(&line)?;
        Ok(())
    }

    /// Returns the line that adds a clause under its number.
    fn addition(
        &self,
        number: u64,
        clause: &[Lit],
        propagations: &[u64],
    ) -> Result<Vec<u8>, WriterFault>
        ensures line { IfOk result (λ line. line.items
            ≡ lines_text (adds_clause number clause.now
            (map (number_of (writer_of self.now)) propagations.now) ∷ [])) }
        ensures fit { OnOk result (hints_fault (writer_of self.now) propagations.now ≡ None) }
        ensures fault { IfErr result (λ fault. IsFault fault
            (hints_fault (writer_of self.now) propagations.now)) }
    {
        let mut line = Vec::new(self.alloc);
        push_number(&mut line, number)?;
        push_literals(&mut line, clause)?;
        line.extend_from_slice(b"0 ")?;
        self.push_hints(&mut line, propagations)?;
        line.extend_from_slice(b"0\n")?;
        Ok(line)
    }

    /// Returns the line that deletes the clause of a number.
    fn deletion(&self, number: u64) -> Result<Vec<u8>, AllocError>
        ensures { IfOk result (λ line. line.items
            ≡ lines_text (deletes_clauses self.now.last (number ∷ []) ∷ [])) }
    {
        let mut line = Vec::new(self.alloc);
        push_number(&mut line, self.last)?;
        line.extend_from_slice(b"d ")?;
        push_number(&mut line, number)?;
        line.extend_from_slice(b"0\n")?;
        Ok(line)
    }

    /// Appends the number of each id, and a space after it.
    fn push_hints(&self, line: &mut Vec<u8>, ids: &[u64]) -> Result<(), WriterFault>
        ensures line { OnOk result (line.new.items
            ≡ line.old.items ++ spaced
            (map decimal (map (number_of (writer_of self.now)) ids.now))) }
        ensures fit { OnOk result (hints_fault (writer_of self.now) ids.now ≡ None) }
        ensures fault { IfErr result (λ fault. IsFault fault
            (hints_fault (writer_of self.now) ids.now)) }
    {
        for id in ids {
            let number = self.number(*id).ok_or(WriterFault::NumberOutOfRange)?;
            push_number(line, number)?;
        }
        Ok(())
    }

    /// Returns the number of an id, if it is below 2^64.
    fn number(&self, id: u64) -> Option<u64>
        ensures { result ≡ fitting (number_of (writer_of self.now) id) }
    {
        if self.inputs.contains(&id) {
            id.checked_add(1)
        } else {
            self.later_number(id)
        }
    }

    /// Returns the number of a clause that is no input clause.
    fn later_number(&self, id: u64) -> Option<u64>
        ensures { result ≡ fitting (self.now.announced + suc id) }
    {
        self.announced.checked_add(id)?.checked_add(1)
    }
}

impl ProofProcessor for LratWriter {
    ghost use Rattle.sat_hints.specs.Writing.{Wrote, WroteNothing, written};

    ghost took = { λ old e new. Wrote old e.step new };

    ghost faulted = { λ old e new. WroteNothing old new };

    ghost shown = { λ writer. written writer };

    fn process_step(
        &mut self,
        step: &CheckedProofStep,
        _names: CheckerData,
    ) -> Result<(), anyhow::Error> {
        self.write_step(step)?;
        Ok(())
    }

    fn output(&self) -> &[u8] {
        &self.text
    }
}
