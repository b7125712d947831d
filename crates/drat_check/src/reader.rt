//! Steps of a proof, DRAT, DPR, FRAT or LPR, for an elaborator.
use crate::fault::ProofFault;
use drat_elaborate::Elaborator;
use drat_text::bytes::Bytes;
use drat_text::{DratFault, DratReader, DratStep, FratReader, is_frat};
use lrat_text::LineReader;
use std::alloc::Global;
use std::io::Read;

/// Whether a proof is DRAT, DPR, FRAT or LPR.
#[derive(Clone, Copy, Debug, PartialEq, Eq)]
pub enum ProofFormat {
    /// It is detected from the first bytes: FRAT if the first step begins with `o`, `f`, `l` or
    /// `r`, and else DPR, which is DRAT whose additions may have witnesses.
    Told,
    /// DRAT, where repeated literals of a clause are ignored.
    Drat,
    Frat,
    /// LPR text, which is LRAT text whose clauses may have witnesses.
    Lpr,
}

/// A reader of the steps of a proof.
#[derive(Drop)]
pub(crate) enum ProofReader<R> {
    Drat(DratReader<R>),
    Dpr(DratReader<R>),
    Frat(FratReader<R>),
    Lpr(LineReader<R>),
}

impl<R: Read + Drop> ProofReader<R> {
    /// Returns a reader at the start of a proof. If the format is to be detected, the first bytes
    /// are read.
    pub(crate) fn new(
        alloc: Global,
        proof: R,
        format: ProofFormat,
    ) -> Result<ProofReader<R>, DratFault> {
        match format {
            ProofFormat::Told => ProofReader::told(alloc, Bytes::new(alloc, proof)),
            ProofFormat::Drat => Ok(ProofReader::Drat(DratReader::new(alloc, proof))),
            ProofFormat::Frat => Ok(ProofReader::Frat(FratReader::new(alloc, proof))),
            ProofFormat::Lpr => Ok(ProofReader::Lpr(LineReader::new(alloc, proof))),
        }
    }

    /// Returns a reader of a proof whose format is detected.
    fn told(alloc: Global, mut bytes: Bytes<R>) -> Result<ProofReader<R>, DratFault> {
        if is_frat(&mut bytes)? {
            Ok(ProofReader::Frat(FratReader::over(alloc, bytes)))
        } else {
            Ok(ProofReader::Dpr(DratReader::over(alloc, bytes)))
        }
    }

    /// Passes the next step to an elaborator. Returns whether there was one.
    #[inline(always)]
    pub(crate) fn hand_step(&mut self, elaborator: &mut Elaborator) -> Result<bool, ProofFault> {
        match self {
            ProofReader::Drat(reader) => match reader.next_step()? {
                Some(DratStep::Add(lits)) => elaborator.add_lemma(lits)?,
                Some(DratStep::Delete(lits)) => elaborator.delete_clause(lits)?,
                None => return Ok(false),
            },
            ProofReader::Dpr(reader) => match reader.next_step()? {
                Some(DratStep::Add(lits)) => elaborator.add_dpr_lemma(lits)?,
                Some(DratStep::Delete(lits)) => elaborator.delete_clause(lits)?,
                None => return Ok(false),
            },
            ProofReader::Frat(reader) => match reader.next_step()? {
                Some(step) => elaborator.take_frat_step(step)?,
                None => return Ok(false),
            },
            ProofReader::Lpr(reader) => match reader.next_line()? {
                Some(line) => elaborator.take_lpr_line(line)?,
                None => return Ok(false),
            },
        }
        Ok(true)
    }
}
