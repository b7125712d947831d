//! The elaborator.
use crate::backward::Backward;
use crate::clauses::ClauseIndex;
use crate::fault::ElaborateFault;
use crate::forward::Forward;
use crate::lines::{Lines, id_in};
use crate::wanted::Wanted;
use lrat_text::LratLine;
use sat_formula::Lit;
use std::alloc::Global;

/// The phase of an elaborator.
#[derive(Clone, Copy, PartialEq, Eq)]
enum Phase {
    Formula,
    Proof,
    Checking,
    Elaborated,
}

/// Turns a formula and the steps of a DRAT proof into lines of an LRAT proof.
///
/// Clauses of the formula come first, by [`add_clause`](Elaborator::add_clause). Then the steps of
/// the proof, until [`is_refuted`](Elaborator::is_refuted). [`elaborate`](Elaborator::elaborate)
/// checks backward which steps are needed, and why they follow, and
/// [`next_line`](Elaborator::next_line) returns the lines, in which the clauses of the formula have
/// the ids 1, 2 and so on. The lines are claims, which a checker of LRAT decides.
///
/// # Errors
///
/// Each call that fails can return `OutOfMemory`, `TooLong`, or `Internal` for a defect of the
/// elaborator; its comment names the other faults. After an error later calls terminate, and their
/// results are unspecified.
#[derive(Drop)]
pub struct Elaborator {
    phase: Phase,
    pub(crate) forward: Forward,
    pub(crate) backward: Backward,
    lines: Lines,
    wanted: Wanted,
}

impl Elaborator {
    /// Returns an elaborator without clauses and steps. Allocates no memory.
    pub fn new(alloc: Global) -> Elaborator {
        Elaborator {
            phase: Phase::Formula,
            forward: Forward::new(alloc),
            backward: Backward::new(alloc),
            lines: Lines::new(alloc),
            wanted: Wanted::new(alloc),
        }
    }

    /// Adds the next clause of the formula.
    ///
    /// # Errors
    ///
    /// `Internal` if the proof has begun; the elaborator is as it was then.
    pub fn add_clause(&mut self, lits: &[Lit]) -> Result<(), ElaborateFault> {
        if self.phase != Phase::Formula {
            return Err(ElaborateFault::Internal);
        }
        self.forward.add_clause(lits)
    }

    /// Completes the formula and propagates its unit clauses. The first step of the proof does this
    /// by itself, and a second call does nothing.
    ///
    /// # Errors
    ///
    /// `OutOfMemory`, or `TooLong` for more clauses, literals or steps than 32 bits count.
    pub fn begin_proof(&mut self) -> Result<(), ElaborateFault> {
        if self.phase != Phase::Formula {
            return Ok(());
        }
        self.phase = Phase::Proof;
        self.forward.begin()
    }

    /// Adds a clause of the proof, which should follow or be RAT on its first literal. It is not
    /// checked yet. After a conflict it is ignored.
    ///
    /// # Errors
    ///
    /// As for `begin_proof`.
    pub fn add_lemma(&mut self, lits: &[Lit]) -> Result<(), ElaborateFault> {
        self.begin_proof()?;
        if self.is_refuted() {
            return Ok(());
        }
        self.forward.add_lemma(lits)
    }

    /// Deletes a clause with these literals, in any order. If there is none, or each such clause is
    /// the reason of a literal, the step is counted and ignored; after a conflict it is ignored.
    ///
    /// # Errors
    ///
    /// As for `begin_proof`.
    pub fn delete_clause(&mut self, lits: &[Lit]) -> Result<(), ElaborateFault> {
        self.begin_proof()?;
        if self.is_refuted() {
            return Ok(());
        }
        self.forward.delete_clause(lits)
    }

    /// Returns whether propagation over the clauses so far has led to a conflict, once the proof
    /// has begun. Then no further step is needed.
    pub fn is_refuted(&self) -> bool {
        self.forward.conflict.is_some()
    }

    /// Makes the steps a piece of a proof: it need not derive a conflict, and its target clauses
    /// are checked.
    pub fn end_piece(&mut self) {
        self.wanted.is_piece = true;
    }

    /// Makes a clause a target after the last step. Returns whether a clause with just these
    /// literals, in any order, is live. After a conflict, and once the backward pass has begun, it
    /// returns `false`.
    ///
    /// # Errors
    ///
    /// As for `begin_proof`.
    pub fn want(&mut self, lits: &[Lit]) -> Result<bool, ElaborateFault> {
        self.begin_proof()?;
        if self.phase != Phase::Proof || self.is_refuted() {
            return Ok(false);
        }
        self.wanted.want(&mut self.forward, lits)
    }

    /// Returns the id of the target clause that `want` found at this index, the first being 0. To
    /// be called once `next_line` has returned `None`; `None` if the clause has no id.
    pub fn wanted_id(&self, place: usize) -> Option<u64> {
        id_in(&self.lines.ids, self.wanted.get(place)?).ok()
    }

    /// Returns the id of the last clause that a line added, or else of the formula's last clause.
    pub fn last_id(&self) -> u64 {
        self.lines.last_id
    }

    /// Checks the steps that the conflict needs, the last first. A call undoes at most `count`
    /// steps and returns whether none is left; then [`next_line`](Elaborator::next_line) has the
    /// lines.
    ///
    /// # Errors
    ///
    /// `NoConflict` if the steps are no piece and lead to no conflict, `NotRedundant` or
    /// `NotRedundantByWitness` with the first needed clause, from the end, that is not redundant.
    pub fn elaborate(&mut self, count: u64) -> Result<bool, ElaborateFault> {
        self.begin_backward()?;
        for _ in 0..count {
            if self.forward.steps.len() == 0 {
                break;
            }
            self.backward
                .undo_last(&mut self.forward.propagator, &mut self.forward.steps)?;
        }
        if self.forward.steps.len() > 0 {
            return Ok(false);
        }
        self.phase = Phase::Elaborated;
        self.forward.propagator.end();
        self.backward.end();
        Ok(true)
    }

    /// Begins the backward pass with the conflict, in the first call.
    fn begin_backward(&mut self) -> Result<(), ElaborateFault> {
        self.begin_proof()?;
        if self.phase != Phase::Proof {
            return Ok(());
        }
        let Some(conflict) = self.forward.conflict else {
            if self.wanted.is_piece {
                self.phase = Phase::Checking;
                self.forward.end()?;
                self.backward.begin_piece(self.forward.formula_len);
                return Ok(());
            }
            return Err(ElaborateFault::NoConflict {
                steps: self.steps_left(),
            });
        };
        self.phase = Phase::Checking;
        self.forward.end()?;
        self.backward.begin(
            &mut self.forward.propagator,
            self.forward.formula_len,
            conflict,
        )
    }

    /// Makes the lines refer to a formula of the used clauses alone, which have the ids 1, 2 and so
    /// on in their order; no line deletes the others. To be called before the first `next_line`.
    pub fn number_by_use(&mut self) {
        self.lines.only_used = true;
    }

    /// Returns how many steps of the proof were added and not undone yet by the backward pass.
    pub fn steps_left(&self) -> u64 {
        self.forward.steps.len()
    }

    /// Returns how many clauses of the proof were checked.
    pub fn checked(&self) -> u64 {
        self.backward.checked
    }

    /// Returns the next line, after [`elaborate`](Elaborator::elaborate) has returned `true`;
    /// before that, and after the last line, `None`. The first line deletes the unused clauses of
    /// the formula, and each other clause is deleted right after the line that uses it last. The
    /// last line adds the empty clause, except in a piece.
    ///
    /// There are at most two lines for each clause of the proof, and two more. A clause with a
    /// witness has up to two lines for each clause that the witness touches and one for each
    /// literal of the witness, over a variable above those of the formula and the proof. A target
    /// clause that is a tautology has three lines over such a variable, and one that deletes.
    ///
    /// # Errors
    ///
    /// `NoFreshVariable` if there is no such variable.
    pub fn next_line(&mut self) -> Result<Option<LratLine<'_>>, ElaborateFault> {
        if self.phase != Phase::Elaborated {
            return Ok(None);
        }
        self.lines.begin(&self.forward)?;
        if self.lines.by_witness.queue.advance() {
            return Ok(Some(self.lines.by_witness.queue.line()?));
        }
        if self.lines.take_deletion() {
            return Ok(Some(LratLine::Delete {
                ids: &self.lines.dying,
            }));
        }
        let (witnesses, records) = (&self.backward.witnesses, &mut self.backward.records);
        if !self.lines.read(&self.forward, witnesses, records)?
            && !self.lines.tell_tautology(&self.forward, &mut self.wanted)?
        {
            return Ok(None);
        }
        if self.lines.by_witness.queue.advance() {
            return Ok(Some(self.lines.by_witness.queue.line()?));
        }
        Ok(Some(LratLine::Add {
            id: self.lines.last_id,
            clause: &self.lines.clause,
            hints: &self.lines.hints,
        }))
    }

    /// Returns whether the elaborated proof uses the clause of the formula with this index, the
    /// first being 0. `false` if there is no such clause.
    pub fn is_used(&self, index: usize) -> bool {
        match ClauseIndex::new(index) {
            Ok(clause) => match self.forward.propagator.clauses.get(clause) {
                Ok(found) => found.is_core() && index < self.forward.formula_len,
                Err(_) => false,
            },
            Err(_) => false,
        }
    }

    /// Returns how many deletions found no clause.
    pub fn missing_deletions(&self) -> u64 {
        self.forward.missing_deletions
    }

    /// Returns how many deletions found only clauses that are reasons, which were kept.
    pub fn kept_reasons(&self) -> u64 {
        self.forward.kept_reasons
    }
}
