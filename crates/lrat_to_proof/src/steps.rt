//! Steps, written one after the other.
ghost use Rattle.std.specs.Prelude.{◌≡◌, [], ◌∷◌, ◌++◌, ℕ, true, List, Option, Some, IsTrue, OnErr, OnOk};
ghost use Rattle.sat_rules.specs.Clauses.{is_canonical};
ghost use Rattle.checker_rules.specs.Step.{Step};
ghost use Rattle.proof_bytes.specs.NextStep.{view};
ghost use Rattle.lrat_to_proof.specs.Converting.{deletion, derivation, header};
ghost use Rattle.lrat_to_proof.specs.Standing.{HasBegun, HasWritten, entry_of};
ghost use Rattle.lrat_to_proof.specs.Widths.{bits_of};

use crate::clause::{is_named, is_tautology};
use crate::fault::GivenUp;
use crate::width::HashWidth;
use proof_bytes::{ClauseHash, DeleteClauseProof, ProofStep, ProofWriter};
use sat_formula::Lit;
use std::alloc::Global;
use std::io::Write;
use whole_writes::append_whole;

/// Writes steps in version 2 of the proof bytes.
#[derive(Drop)]
pub(crate) struct StepWriter {
    writer: ProofWriter,
    /// The bytes of one step.
    bytes: Vec<u8>,
}

impl StepWriter {
    /// Returns a writer that has written nothing.
    pub(crate) fn new(alloc: Global) -> StepWriter
        ensures { (start : Option (List ℕ)) → HasWritten start start [] result }
    {
        StepWriter {
            writer: ProofWriter::new(),
            bytes: Vec::new(alloc),
        }
    }

    /// Sets a width other than 64.
    pub(crate) fn begin<W: Write>(&mut self, width: HashWidth, out: &mut W) -> Result<(), GivenUp>
        ensures ok { (start : Option (List ℕ)) → HasWritten start (W.contents out.old) [] self.old
            → OnOk result
            (HasWritten start (W.contents out.new) (header (bits_of width)) self.new) }
        ensures err { (start : Option (List ℕ)) → HasWritten start (W.contents out.old) [] self.old
            → OnErr result (HasBegun start (W.contents out.new) (header (bits_of width))) }
    {
        let bits = width.bits();
        if bits == 64 {
            return Ok(());
        }
        self.write(&ProofStep::ChangeHashBits { bits }, out)
    }

    /// Adds a clause by these hashes, unless it is a tautology.
    pub(crate) fn derive<W: Write>(
        &mut self,
        clause: &[Lit],
        hashes: &[ClauseHash],
        out: &mut W,
    ) -> Result<(), GivenUp>
        requires { IsTrue (is_canonical clause.now) }
        ensures ok { (start : Option (List ℕ)) (steps : List Step)
            → HasWritten start (W.contents out.old) steps self.old
            → OnOk result (HasWritten start (W.contents out.new)
            (steps ++ derivation clause.now hashes.now) self.new) }
        ensures err { (start : Option (List ℕ)) (steps : List Step)
            → HasWritten start (W.contents out.old) steps self.old
            → OnErr result (HasBegun start (W.contents out.new)
            (steps ++ derivation clause.now hashes.now)) }
    {
        if is_tautology(clause) {
            return Ok(());
        }
        let step = ProofStep::AtClause {
            redundant: true,
            clause,
            propagation_hashes: hashes,
        };
        self.write(&step, out)
    }

    /// Deletes one copy of a clause that a line added, where a step can name it.
    pub(crate) fn delete<W: Write>(&mut self, clause: &[Lit], out: &mut W) -> Result<(), GivenUp>
        requires { IsTrue (is_canonical clause.now) }
        ensures ok { (start : Option (List ℕ)) (steps : List Step)
            → HasWritten start (W.contents out.old) steps self.old
            → OnOk result (HasWritten start (W.contents out.new)
            (steps ++ deletion (Some (entry_of true clause.now))) self.new) }
        ensures err { (start : Option (List ℕ)) (steps : List Step)
            → HasWritten start (W.contents out.old) steps self.old
            → OnErr result (HasBegun start (W.contents out.new)
            (steps ++ deletion (Some (entry_of true clause.now)))) }
    {
        if !is_named(clause) {
            return Ok(());
        }
        let step = ProofStep::DeleteClause {
            clause,
            proof: DeleteClauseProof::Redundant,
        };
        self.write(&step, out)
    }

    /// Writes one step more. After an error a beginning of it is written.
    pub(crate) fn write<W: Write>(
        &mut self,
        step: &ProofStep<'_>,
        out: &mut W,
    ) -> Result<(), GivenUp>
        ensures ok { (start : Option (List ℕ)) (steps : List Step)
            → HasWritten start (W.contents out.old) steps self.old
            → OnOk result (HasWritten start (W.contents out.new) (steps ++ view step.now ∷ [])
            self.new) }
        ensures err { (start : Option (List ℕ)) (steps : List Step)
            → HasWritten start (W.contents out.old) steps self.old
            → OnErr result (HasBegun start (W.contents out.new) (steps ++ view step.now ∷ [])) }
    {
        self.bytes.clear();
        self.writer.write(&mut self.bytes, step)?;
        append_whole(out, &self.bytes)?;
        Ok(())
    }
}
