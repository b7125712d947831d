//! The steps of a proof. Those of a text are read from the bytes ahead, where their own text is
//! found too. At the first byte that is no part of a plain step, and in a proof that is not plainly
//! a text, the reader of DRAT takes over: it judges what is malformed, and reads binary steps.
use crate::ahead::{Ahead, Rest};
use crate::clause::ReadClause;
use crate::cutter::Additions;
use crate::words::{ClauseEnd, kind_at, step_begin};
use drat_text::bytes::LOOKED_AT;
use drat_text::number::is_text_byte;
use drat_text::{DratFault, DratReader, DratStep, StepNumber};
use std::alloc::{AllocError, Global};
use std::io::Read;

/// A step of a proof.
#[derive(Clone, Copy)]
pub struct CutStep<'a> {
    pub deletes: bool,
    pub(crate) clause: &'a ReadClause,
    /// The bytes that are just this step, up to an LF, if there are any.
    text: Option<&'a [u8]>,
}

impl<'a> CutStep<'a> {
    /// Returns the text by which the step is written as it is, if there is one.
    #[inline(always)]
    pub(crate) fn written(&self) -> Option<&'a [u8]> {
        self.text.filter(|_| self.clause.is_as_written)
    }
}

/// What the bytes ahead begin with.
#[derive(Clone, Copy)]
enum Found {
    /// A step, which was read.
    Step,
    /// Nothing that is known before more bytes are.
    Open,
    /// What is no plain step.
    Other,
}

/// The steps of a proof, one after the other.
#[derive(Drop)]
pub struct ProofSteps<R> {
    alloc: Global,
    additions: Additions,
    /// The bytes ahead were looked at.
    has_begun: bool,
    ahead: Option<Ahead<R>>,
    /// What has taken over.
    drat: Option<DratReader<Rest<R>>>,
    /// How many steps were read from the bytes ahead.
    count: u64,
    has_step: bool,
    deletes: bool,
    clause: ReadClause,
    /// Where its text begins and ends in the bytes ahead, if it is a line.
    line: Option<(usize, usize)>,
    /// How many of the bytes ahead are used up.
    used: usize,
}

impl<R: Read + Drop> ProofSteps<R> {
    /// Returns the steps of a proof, before the first one. Reads nothing yet.
    pub(crate) fn new(
        alloc: Global,
        proof: R,
        additions: Additions,
        clause: ReadClause,
    ) -> ProofSteps<R> {
        ProofSteps {
            alloc,
            additions,
            has_begun: false,
            ahead: Some(Ahead::new(alloc, proof)),
            drat: None,
            count: 0,
            has_step: false,
            deletes: false,
            clause,
            line: None,
            used: 0,
        }
    }

    /// Returns the step that was read last. None at the start and at the end of the proof.
    #[inline(always)]
    pub fn step(&self) -> Option<CutStep<'_>> {
        if !self.has_step {
            return None;
        }
        Some(CutStep {
            deletes: self.deletes,
            clause: &self.clause,
            text: self.line(),
        })
    }

    /// Returns the text of the step that was read last, if it is a line.
    fn line(&self) -> Option<&[u8]> {
        let (begin, end) = self.line?;
        self.ahead.as_ref()?.bytes().get(begin..end)
    }

    /// Reads the next step. Returns whether there is one.
    ///
    /// # Errors
    ///
    /// As for `DratReader::next_step`.
    #[inline(always)]
    pub fn advance(&mut self) -> Result<bool, DratFault> {
        self.line = None;
        self.has_step = matches!(self.find_step(), Ok(Found::Step));
        if self.has_step {
            Ok(true)
        } else {
            self.advance_on()
        }
    }

    /// Reads the next step where it is not plain or not whole in the bytes ahead.
    #[cold]
    #[inline(never)]
    fn advance_on(&mut self) -> Result<bool, DratFault> {
        if !self.has_begun {
            self.has_begun = true;
            self.look()?;
        }
        self.has_step = self.advance_in_text()? || self.advance_in_drat()?;
        Ok(self.has_step)
    }

    /// Has the reader of DRAT take over unless the proof is plainly a text.
    fn look(&mut self) -> Result<(), DratFault> {
        let Some(ahead) = &mut self.ahead else {
            return Ok(());
        };
        for _ in 0..LOOKED_AT {
            if ahead.bytes().len() >= LOOKED_AT || !ahead.more()? {
                break;
            }
        }
        let mut looked = ahead.bytes().iter().take(LOOKED_AT);
        if ahead.bytes().first() != Some(&b'a') && looked.all(|byte| is_text_byte(*byte)) {
            return Ok(());
        }
        self.hand_over(b"")
    }

    /// Has the reader of DRAT take over, with these bytes in front of those ahead.
    fn hand_over(&mut self, front: &[u8]) -> Result<(), DratFault> {
        if let Some(ahead) = self.ahead.take() {
            let rest = ahead.behind(self.alloc, front);
            let rest = rest.map_err(|_| DratFault::OutOfMemory)?;
            self.drat = Some(DratReader::new(self.alloc, rest));
        }
        Ok(())
    }

    /// Reads the next step from the bytes ahead, if they are a text. Returns whether that is done.
    fn advance_in_text(&mut self) -> Result<bool, DratFault> {
        // The reads are fewer: each gives a byte.
        for _ in 0..u64::MAX {
            match self.find_step().map_err(|_| DratFault::OutOfMemory)? {
                Found::Step => return Ok(true),
                Found::Open if self.has_more()? => {}
                _ => break,
            }
        }
        // A blank in front says that it is a text.
        self.hand_over(b" ")?;
        Ok(false)
    }

    /// Reads once. Returns whether more bytes are ahead.
    fn has_more(&mut self) -> Result<bool, DratFault> {
        match &mut self.ahead {
            Some(ahead) => ahead.more(),
            None => Ok(false),
        }
    }

    /// Reads the step that the bytes ahead begin with, if it is plain and whole.
    fn find_step(&mut self) -> Result<Found, AllocError> {
        let Some(ahead) = &mut self.ahead else {
            return Ok(Found::Other);
        };
        ahead.take(self.used);
        self.used = 0;
        let bytes = ahead.bytes();
        let Some(begin) = step_begin(bytes) else {
            return Ok(Found::Open);
        };
        let (deletes, first) = kind_at(bytes, begin);
        let place = match self.clause.read_text(bytes, first)? {
            ClauseEnd::Zero(place) => place,
            ClauseEnd::Open => return Ok(Found::Open),
            ClauseEnd::Other => return Ok(Found::Other),
        };
        let is_line = bytes.get(place).copied() == Some(b'\n');
        self.note(deletes)?;
        self.count = self.count.saturating_add(1);
        self.used = place.saturating_add(1);
        if is_line {
            self.line = Some((begin, self.used));
        }
        Ok(Found::Step)
    }

    /// Notes the kind of the step whose literals were read, and has its witness apart from them.
    #[inline(always)]
    fn note(&mut self, deletes: bool) -> Result<(), AllocError> {
        self.deletes = deletes;
        if self.clause.is_as_written || deletes || self.additions == Additions::Drat {
            return Ok(());
        }
        self.clause.split_witness(self.alloc)
    }

    /// Reads the next step by the reader of DRAT, if that has taken over. Returns whether there is
    /// one.
    fn advance_in_drat(&mut self) -> Result<bool, DratFault> {
        let Some(reader) = &mut self.drat else {
            return Ok(false);
        };
        let (deletes, lits) = match reader.next_step() {
            Ok(Some(DratStep::Add(lits))) => (false, lits),
            Ok(Some(DratStep::Delete(lits))) => (true, lits),
            Ok(None) => return Ok(false),
            Err(fault) => return Err(behind(self.count, fault)),
        };
        let is_read = self.clause.read(lits).is_ok() && self.note(deletes).is_ok();
        if is_read {
            Ok(true)
        } else {
            Err(DratFault::OutOfMemory)
        }
    }
}

/// Returns a fault of what comes behind this many steps.
fn behind(count: u64, fault: DratFault) -> DratFault {
    match fault {
        DratFault::Wrong { at, kind } => DratFault::Wrong {
            at: StepNumber(at.0.saturating_add(count)),
            kind,
        },
        other => other,
    }
}
