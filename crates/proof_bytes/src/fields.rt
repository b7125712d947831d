//! The fields of steps, read one after the other.
ghost use Rattle.std.specs.Prelude.{◌≡◌, ◌<◌, ◌≤◌, ◌^◌, IfOk};

use crate::ahead::{hash_ahead, hashes_ahead, lits_ahead, number_ahead};
use crate::fault::{MalformedStep, ProofFault};
use crate::format::{Format, fits_width};
use crate::hash::ClauseHash;
use crate::step::DeleteClauseProof;
use sat_formula::source::Source;
use sat_formula::stop::Stop;
use sat_formula::{Lit, Var};
use std::alloc::Global;
use std::io::Read;

#[derive(Drop)]
pub(crate) struct Fields<R> {
    source: Source<R>,
}

impl<R: Read> Fields<R> {
    ghost use Rattle.sat_formula.specs.Vars.{index_of, indexes_of};
    ghost use Rattle.proof_bytes.specs.NextStep.{why};
    ghost use Rattle.proof_bytes.specs.Reading.{byte_at, number_at};
    ghost use Rattle.proof_bytes.specs.Fields.{below_at, var_at, lit_at, name_at, justification_at, wide_at, hash_at, unit_at, flag_at, list_at, lits_at, hashes_at};
    ghost use Rattle.proof_bytes.specs.Taking.{unread_fields, HasItsError, HasStopped, Reads, stop_behind};
    ghost use Rattle.proof_bytes.specs.Formats.{IsFormat};

    /// Returns the fields of a reader. Reads nothing yet.
    pub(crate) fn new(alloc: Global, inner: R) -> Fields<R>
        ensures { unread_fields R.remaining result ≡ R.remaining inner }
    {
        Fields {
            source: Source::new(alloc, inner),
        }
    }

    /// Returns the fault of a stop, with the error of the read that failed.
    pub(crate) fn fault(&self, stop: Stop<MalformedStep>) -> ProofFault
        requires { stop ≡ Stop.Read → HasStopped self.now }
        ensures stop { stop_behind result ≡ stop }
        ensures error { HasItsError self.now result }
    {
        match stop {
            Stop::End => ProofFault::End,
            Stop::Read => ProofFault::Read(self.source.error()),
            Stop::Wrong(kind) => ProofFault::Malformed(kind),
            Stop::OutOfMemory => ProofFault::OutOfMemory,
        }
    }

    /// Takes a byte and returns it.
    #[inline(always)]
    pub(crate) fn byte(&mut self) -> Result<u8, Stop<MalformedStep>>
        ensures { Reads R.remaining (λ b. b) self.old self.new result byte_at }
    {
        Ok(self.source.next_byte()?)
    }

    /// Takes a number and returns it.
    #[inline(always)]
    pub(crate) fn number(&mut self) -> Result<u64, Stop<MalformedStep>>
        ensures { Reads R.remaining (λ n. n) self.old self.new result number_at }
    {
        match number_ahead(self.source.ahead()) {
            Some((value, len)) => {
                self.source.take_ahead(len);
                Ok(value)
            }
            None => self.number_by_bytes(),
        }
    }

    /// Reads a number, a byte at a time.
    #[inline(never)]
    fn number_by_bytes(&mut self) -> Result<u64, Stop<MalformedStep>>
        ensures { Reads R.remaining (λ n. n) self.old self.new result number_at }
    {
        let first = self.byte()?;
        if first < 128 {
            return Ok(first as u64);
        }
        let mut value = (first - 128) as u64;
        let mut weight = 128u64;
        'groups: for _ in 0..8u8 {
            let byte = self.byte()?;
            if byte == 0 {
                return Err(Stop::Wrong(MalformedStep::BadNumber));
            }
            if byte < 128 {
                return Ok(value + weight * byte as u64);
            }
            value += weight * (byte - 128) as u64;
            weight *= 128;
        }
        let last = self.byte()?;
        if last != 1 {
            return Err(Stop::Wrong(MalformedStep::BadNumber));
        }
        Ok(value + weight)
    }

    /// Takes a number below a limit and returns it.
    #[inline(always)]
    pub(crate) fn below(&mut self, limit: u64) -> Result<u64, Stop<MalformedStep>>
        ensures read { Reads R.remaining (λ n. n) self.old self.new result (below_at limit) }
        ensures bound { IfOk result (λ n. n < limit) }
    {
        let n = self.number()?;
        if n < limit {
            Ok(n)
        } else {
            Err(Stop::Wrong(MalformedStep::OutOfRange))
        }
    }

    /// Takes a literal and returns it.
    #[inline(always)]
    pub(crate) fn lit(&mut self) -> Result<Lit, Stop<MalformedStep>>
        ensures { Reads R.remaining (λ l. l) self.old self.new result lit_at }
    {
        let code = self.number()?;
        Lit::from_code(code as usize).ok_or(Stop::Wrong(MalformedStep::OutOfRange))
    }

    /// Takes a variable and returns it.
    pub(crate) fn var(&mut self) -> Result<Var, Stop<MalformedStep>>
        ensures { Reads R.remaining index_of self.old self.new result var_at }
    {
        let index = self.number()?;
        Var::from_index(index as usize).ok_or(Stop::Wrong(MalformedStep::OutOfRange))
    }

    /// Takes a name and returns it: a variable, or `None`.
    pub(crate) fn name(&mut self) -> Result<Option<Var>, Stop<MalformedStep>>
        ensures { Reads R.remaining indexes_of self.old self.new result name_at }
    {
        let n = self.below(Var::MAX_COUNT as u64 + 1)?;
        if n == 0 {
            return Ok(None);
        }
        Ok(Var::from_index((n - 1) as usize))
    }

    /// Takes a flag, 0 or 1, and returns it.
    pub(crate) fn flag(&mut self) -> Result<bool, Stop<MalformedStep>>
        ensures { Reads R.remaining (λ b. b) self.old self.new result flag_at }
    {
        let n = self.below(2)?;
        Ok(n == 1)
    }

    /// Takes the justification of a deletion and returns it.
    pub(crate) fn justification(&mut self) -> Result<DeleteClauseProof, Stop<MalformedStep>>
        ensures { Reads R.remaining why self.old self.new result justification_at }
    {
        let n = self.below(3)?;
        match n {
            0 => Ok(DeleteClauseProof::Redundant),
            1 => Ok(DeleteClauseProof::Satisfied),
            _ => Ok(DeleteClauseProof::Simplified),
        }
    }

    /// Reads a hash, a byte at a time. The last byte is apart, so that its weight is not passed.
    #[inline(never)]
    fn wide_by_bytes(&mut self, width: u32) -> Result<ClauseHash, Stop<MalformedStep>>
        requires { (0 < width) × (width ≤ 64) }
        ensures { Reads R.remaining (λ n. n) self.old self.new result (wide_at width) }
    {
        let before_last = (width - 1) / 8;
        let mut value = 0u64;
        let mut weight = 1u64;
        'bytes: for _ in 0..before_last {
            let byte = self.byte()?;
            value += weight * byte as u64;
            weight *= 256;
        }
        let last = self.byte()?;
        value += weight * last as u64;
        if fits_width(value, width) {
            Ok(value)
        } else {
            Err(Stop::Wrong(MalformedStep::OutOfRange))
        }
    }

    #[inline(always)]
    fn hash(&mut self, format: Format) -> Result<ClauseHash, Stop<MalformedStep>>
        requires { IsFormat format }
        ensures { Reads R.remaining (λ n. n) self.old self.new result (hash_at format) }
    {
        match hash_ahead(self.source.ahead(), format) {
            Some((hash, len)) => {
                self.source.take_ahead(len);
                Ok(hash)
            }
            None => self.hash_by_bytes(format),
        }
    }

    /// Reads a hash one byte after the other.
    fn hash_by_bytes(&mut self, format: Format) -> Result<ClauseHash, Stop<MalformedStep>>
        requires { IsFormat format }
        ensures { Reads R.remaining (λ n. n) self.old self.new result (hash_at format) }
    {
        match format {
            Format::Bytes { width } => self.wide_by_bytes(width),
            _ => self.number_by_bytes(),
        }
    }

    /// Reads a list of literals, in place of those in `into`.
    pub(crate) fn lits(&mut self, into: &mut Vec<Lit>) -> Result<(), Stop<MalformedStep>>
        ensures { Reads R.remaining (λ _. into.new.items) self.old self.new result lits_at }
    {
        into.clear();
        let count = self.number()?;
        // Those ahead together, the others one by one: that asks for memory and finds the faults.
        let taken = lits_ahead(self.source.ahead(), count, into);
        self.source.take_ahead(taken);
        'items: for _ in into.len() as u64..count {
            let lit = self.lit()?;
            into.push(lit)?;
        }
        Ok(())
    }

    /// Reads a list of hashes, in place of those in `into`.
    pub(crate) fn hashes(
        &mut self,
        into: &mut Vec<ClauseHash>,
        format: Format,
    ) -> Result<(), Stop<MalformedStep>>
        requires { IsFormat format }
        ensures { Reads R.remaining (λ _. into.new.items) self.old self.new result
            (hashes_at format) }
    {
        into.clear();
        let count = self.number()?;
        // As the literals: those ahead together, the others one by one.
        let spelled = hashes_ahead(self.source.ahead(), count, format, into);
        self.source.take_ahead(spelled);
        'hashes: for _ in into.len() as u64..count {
            let hash = self.hash(format)?;
            into.push(hash)?;
        }
        Ok(())
    }

    /// Reads a list of pairs of a literal and a hash, in place of those in `into`.
    pub(crate) fn units(
        &mut self,
        into: &mut Vec<(Lit, ClauseHash)>,
        format: Format,
    ) -> Result<(), Stop<MalformedStep>>
        requires { IsFormat format }
        ensures { Reads R.remaining (λ _. into.new.items) self.old self.new result
            (list_at (unit_at format)) }
    {
        into.clear();
        let count = self.number()?;
        'items: for _ in 0..count {
            let lit = self.lit()?;
            let hash = self.hash(format)?;
            into.push((lit, hash))?;
        }
        Ok(())
    }
}
