//! Lines, one after the other, as steps.
ghost use Rattle.std.specs.Prelude.{◌<◌, ◌≤◌};

use crate::fault::{GivenUp, LineCause, Stop};
use crate::hints::gather;
use crate::holding::Holding;
use crate::steps::StepWriter;
use crate::width::HashWidth;
use checker_parts::sorted_lits::copy_canonical;
use clause_store::hash::ClauseHasher;
use lrat_text::{Hint, LratLine};
use proof_bytes::{ClauseHash, ProofStep};
use sat_formula::{CnfFormula, Lit};
use std::alloc::Global;
use std::io::Write;

/// The state between lines: the clauses so far, and the writer of steps.
#[derive(Drop)]
pub(crate) struct Converter {
    hasher: ClauseHasher,
    held: Holding,
    steps: StepWriter,
    /// Those of one step.
    hashes: Vec<ClauseHash>,
    /// The canonical list of one added clause.
    lits: Vec<Lit>,
    ghost some_bits: { 0 < hasher.hash_bits },
    ghost bits: { hasher.hash_bits ≤ 64 },
}

impl Converter {
    ghost use Rattle.std.specs.Prelude.{◌≡◌, ℕ, List, Option, Ok, OnErr, OnOk, IfOk, IfErr, map};
    ghost use Rattle.lrat_text.specs.Grammar.{hint_of};
    ghost use Rattle.lrat_text.specs.NextLine.{view};
    ghost use Rattle.lrat_to_proof.specs.Converting.{Converted, add_line, begun, delete_all, delete_one, next, whole};
    ghost use Rattle.lrat_to_proof.specs.Faults.{IsCause, IsGivenUp, IsRefusal};
    ghost use Rattle.lrat_to_proof.specs.Standing.{HasBegun, HasConverted, HasWritten, Reaches, StopsIn, holding_of};
    ghost use Rattle.lrat_to_proof.specs.Widths.{bits_of};

    /// Returns a converter before the first line. Writes the width of hashes, if it is not the full
    /// one.
    pub(crate) fn new<W: Write>(
        alloc: Global,
        formula: &CnfFormula,
        width: HashWidth,
        out: &mut W,
    ) -> Result<Converter, GivenUp>
        ensures ok { IfOk result (λ converter.
            HasConverted (bits_of width) (W.contents out.old) (W.contents out.new)
            (begun (bits_of width) formula.now) converter) }
        ensures err { OnErr result (HasBegun (W.contents out.old) (W.contents out.new)
            (begun (bits_of width) formula.now).steps) }
    {
        let held = Holding::new(alloc, formula)?;
        let mut hasher = ClauseHasher::new(alloc);
        hasher.hash_bits = width.bits();
        let mut steps = StepWriter::new(alloc);
        steps.begin(width, out)?;
        Ok(Converter {
            hasher,
            held,
            steps,
            hashes: Vec::new(alloc),
            lits: Vec::new(alloc),
        })
    }

    /// Returns whether no further line is needed: the empty clause or two opposite units were
    /// derived.
    pub(crate) fn is_done(&self) -> bool
        ensures { result ≡ (holding_of self.now.held).refuted }
    {
        self.held.is_refuted()
    }

    /// Writes the steps of one line more. Nothing is written of a line that the rules reject.
    pub(crate) fn take_line<W: Write>(
        &mut self,
        line: LratLine<'_>,
        out: &mut W,
    ) -> Result<(), Stop>
        ensures ok { (width : ℕ) (start : Option (List ℕ)) (c : Converted)
            → HasConverted width start (W.contents out.old) c self.old
            → OnOk result (Reaches width start (W.contents out.new)
            (next width c (view line.entry)) self.new) }
        ensures err { (width : ℕ) (start : Option (List ℕ)) (c : Converted)
            → HasConverted width start (W.contents out.old) c self.old
            → IfErr result (λ stop. IsCause stop (next width c (view line.entry))) }
        ensures refused { IfErr result (λ stop. IsRefusal stop → out.new ≡ out.old) }
        ensures given_up { (width : ℕ) (start : Option (List ℕ)) (c : Converted)
            → HasConverted width start (W.contents out.old) c self.old
            → IfErr result (λ stop. IsGivenUp stop
            → StopsIn start (W.contents out.new) c (next width c (view line.entry))) }
    {
        match line {
            LratLine::Add { id, clause, hints } => self.add(id, clause, hints, out),
            LratLine::Delete { ids } => {
                self.delete_all(ids, out)?;
                Ok(())
            }
        }
    }

    /// Ends the proof.
    pub(crate) fn end<W: Write>(&mut self, out: &mut W) -> Result<(), GivenUp>
        ensures ok { (width : ℕ) (start : Option (List ℕ)) (c : Converted)
            → HasConverted width start (W.contents out.old) c self.old
            → OnOk result (HasWritten start (W.contents out.new) (whole c) self.new.steps) }
        ensures err { (width : ℕ) (start : Option (List ℕ)) (c : Converted)
            → HasConverted width start (W.contents out.old) c self.old
            → OnErr result (HasBegun start (W.contents out.new) (whole c)) }
        ensures held { self.new.held ≡ self.old.held }
    {
        self.steps.write(&ProofStep::End, out)?;
        out.flush()?;
        Ok(())
    }

    fn add<W: Write>(
        &mut self,
        id: u64,
        clause: &[Lit],
        hints: &[Hint],
        out: &mut W,
    ) -> Result<(), Stop>
        ensures ok { (width : ℕ) (start : Option (List ℕ)) (c : Converted)
            → HasConverted width start (W.contents out.old) c self.old
            → OnOk result (Reaches width start (W.contents out.new)
            (add_line width c id clause.now (map hint_of hints.now)) self.new) }
        ensures err { (width : ℕ) (start : Option (List ℕ)) (c : Converted)
            → HasConverted width start (W.contents out.old) c self.old
            → IfErr result (λ stop.
            IsCause stop (add_line width c id clause.now (map hint_of hints.now))) }
        ensures refused { IfErr result (λ stop. IsRefusal stop → out.new ≡ out.old) }
        ensures given_up { (width : ℕ) (start : Option (List ℕ)) (c : Converted)
            → HasConverted width start (W.contents out.old) c self.old
            → IfErr result (λ stop. IsGivenUp stop → StopsIn start (W.contents out.new) c
            (add_line width c id clause.now (map hint_of hints.now))) }
    {
        if self.held.contains(id) {
            return Err(Stop::Refused(LineCause::IdTaken));
        }
        gather(&self.hasher, &self.held, hints, &mut self.hashes)?;
        copy_canonical(&mut self.lits, clause)?;
        self.steps.derive(&self.lits, &self.hashes, out)?;
        self.held.put(id, true, &self.lits)?;
        Ok(())
    }

    fn delete_all<W: Write>(&mut self, ids: &[u64], out: &mut W) -> Result<(), GivenUp>
        ensures ok { (width : ℕ) (start : Option (List ℕ)) (c : Converted)
            → HasConverted width start (W.contents out.old) c self.old
            → OnOk result
            (HasConverted width start (W.contents out.new) (delete_all c ids.now) self.new) }
        ensures err { (width : ℕ) (start : Option (List ℕ)) (c : Converted)
            → HasConverted width start (W.contents out.old) c self.old
            → OnErr result (HasBegun start (W.contents out.new) (delete_all c ids.now).steps) }
    {
        for id in ids {
            self.delete_one(*id, out)?;
        }
        Ok(())
    }

    fn delete_one<W: Write>(&mut self, id: u64, out: &mut W) -> Result<(), GivenUp>
        ensures ok { (width : ℕ) (start : Option (List ℕ)) (c : Converted)
            → HasConverted width start (W.contents out.old) c self.old
            → OnOk result
            (HasConverted width start (W.contents out.new) (delete_one c id) self.new) }
        ensures err { (width : ℕ) (start : Option (List ℕ)) (c : Converted)
            → HasConverted width start (W.contents out.old) c self.old
            → OnErr result (HasBegun start (W.contents out.new) (delete_one c id).steps) }
    {
        if let Some(clause) = self.held.derived(id) {
            self.steps.delete(clause, out)?;
        }
        self.held.remove(id);
        Ok(())
    }
}
