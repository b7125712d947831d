//! A step, read into lists.
ghost use Rattle.std.specs.Prelude.{◌≡◌, ◌^◌, ℕ, Option, IfOk};

use crate::fault::{MalformedStep, ProofFault};
use crate::fields::Fields;
use crate::format::Format;
use crate::hash::ClauseHash;
use crate::step::{DeleteClauseProof, ProofStep};
use crate::tag;
use sat_formula::stop::Stop;
use sat_formula::{Lit, Var};
use std::alloc::Global;
use std::io::Read;

/// A step without its lists.
#[derive(Clone, Copy)]
pub(crate) enum Head {
    SolverVarName { global: Var, solver: Option<Var> },
    UserVarName { global: Var, user: Option<Var> },
    DeleteVar { var: Var },
    ChangeSamplingMode { var: Var, sample: bool },
    AddClause,
    AtClause { redundant: bool },
    DeleteClause { proof: DeleteClauseProof },
    UnitClauses,
    ChangeHashBits { bits: u32 },
    Model,
    Assumptions,
    FailedAssumptions,
    End,
}

/// Reads steps, the lists of the last one into its own.
#[derive(Drop)]
pub(crate) struct BodyReader<R> {
    fields: Fields<R>,
    lits: Vec<Lit>,
    hashes: Vec<ClauseHash>,
    units: Vec<(Lit, ClauseHash)>,
}

impl<R: Read> BodyReader<R> {
    ghost use Rattle.sat_formula.specs.Vars.{index_of, indexes_of};
    ghost use Rattle.checker_rules.specs.Step.{Step, solver_var_name, user_var_name, delete_var, change_sampling_mode, at_clause, delete_clause, unit_clauses, change_hash_bits, failed_assumptions};
    ghost use Rattle.proof_bytes.specs.Bodies.{unread_body, step_of, step_with, Fills};
    ghost use Rattle.proof_bytes.specs.NextStep.{view};
    ghost use Rattle.proof_bytes.specs.Steps.{tag_at, next_at, fields_at, one_field, two_fields, three_fields};
    ghost use Rattle.proof_bytes.specs.Fields.{var_at, name_at, flag_at, justification_at, lits_at, hashes_at, unit_at, list_at, below_at};
    ghost use Rattle.proof_bytes.specs.Taking.{HasItsError, HasStopped, Reads, stop_behind};
    ghost use Rattle.proof_bytes.specs.Formats.{IsFormat};

    /// Returns a reader of fields. Reads nothing yet.
    pub(crate) fn new(alloc: Global, inner: R) -> BodyReader<R>
        ensures { unread_body R.remaining result ≡ R.remaining inner }
    {
        BodyReader {
            fields: Fields::new(alloc, inner),
            lits: Vec::new(alloc),
            hashes: Vec::new(alloc),
            units: Vec::new(alloc),
        }
    }

    /// Returns the fault of a stop.
    pub(crate) fn fault(&self, stop: Stop<MalformedStep>) -> ProofFault
        requires { stop ≡ Stop.Read → HasStopped self.now.fields }
        ensures stop { stop_behind result ≡ stop }
        ensures error { HasItsError self.now.fields result }
    {
        self.fields.fault(stop)
    }

    /// Returns the step of a head and the lists that were read with it.
    #[inline(always)]
    pub(crate) fn shown(&self, head: Head) -> ProofStep<'_>
        ensures { view result ≡ step_of head self.now }
    {
        match head {
            Head::SolverVarName { global, solver } => ProofStep::SolverVarName { global, solver },
            Head::UserVarName { global, user } => ProofStep::UserVarName { global, user },
            Head::DeleteVar { var } => ProofStep::DeleteVar { var },
            Head::ChangeSamplingMode { var, sample } => {
                ProofStep::ChangeSamplingMode { var, sample }
            }
            Head::AddClause => ProofStep::AddClause { clause: &self.lits },
            Head::AtClause { redundant } => ProofStep::AtClause {
                redundant,
                clause: &self.lits,
                propagation_hashes: &self.hashes,
            },
            Head::DeleteClause { proof } => ProofStep::DeleteClause {
                clause: &self.lits,
                proof,
            },
            Head::UnitClauses => ProofStep::UnitClauses { units: &self.units },
            Head::ChangeHashBits { bits } => ProofStep::ChangeHashBits { bits },
            Head::Model => ProofStep::Model {
                assignment: &self.lits,
            },
            Head::Assumptions => ProofStep::Assumptions {
                assumptions: &self.lits,
            },
            Head::FailedAssumptions => ProofStep::FailedAssumptions {
                failed_core: &self.lits,
                propagation_hashes: &self.hashes,
            },
            Head::End => ProofStep::End,
        }
    }

    /// Returns the next step of a text in this format, and the format after it.
    #[inline(always)]
    pub(crate) fn step(&mut self, format: Format) -> Result<(Format, Head), Stop<MalformedStep>>
        requires { IsFormat format }
        ensures read { Fills R.remaining (λ s. (s.0, step_of s.1 self.new)) self.old self.new result
            (next_at format) }
        ensures in_force { IfOk result (λ s. IsFormat s.0) }
    {
        let (in_force, tag) = self.tag(format)?;
        let head = self.body(in_force, tag)?;
        match head {
            Head::ChangeHashBits { bits } => Ok((in_force.with_width(bits), head)),
            _ => Ok((in_force, head)),
        }
    }

    /// Returns the next tag, past the mark of a text that begins with it, and the format in force
    /// there.
    #[inline(always)]
    fn tag(&mut self, format: Format) -> Result<(Format, u8), Stop<MalformedStep>>
        requires { IsFormat format }
        ensures read { Fills R.remaining (λ t. t) self.old self.new result (tag_at format) }
        ensures in_force { IfOk result (λ t. IsFormat t.0) }
    {
        match format {
            Format::Start => self.first_tag(),
            _ => {
                let tag = self.fields.byte()?;
                Ok((format, tag))
            }
        }
    }

    fn first_tag(&mut self) -> Result<(Format, u8), Stop<MalformedStep>>
        ensures read { Fills R.remaining (λ t. t) self.old self.new result (tag_at Format.Start) }
        ensures in_force { IfOk result (λ t. IsFormat t.0) }
    {
        let first = self.fields.byte()?;
        if first != tag::MARK {
            return Ok((Format::Numbers, first));
        }
        let second = self.fields.byte()?;
        if second != tag::VERSION {
            return Err(Stop::Wrong(MalformedStep::UnknownTag));
        }
        let tag = self.fields.byte()?;
        Ok((Format::Bytes { width: 64 }, tag))
    }

    /// Returns what follows a tag.
    #[inline(always)]
    fn body(&mut self, format: Format, tag: u8) -> Result<Head, Stop<MalformedStep>>
        requires { IsFormat format }
        ensures { Fills R.remaining (λ h. step_of h self.new) self.old self.new result
            (fields_at format tag) }
    {
        match tag {
            tag::SOLVER_VAR_NAME => self.solver_var_name(),
            tag::USER_VAR_NAME => self.user_var_name(),
            tag::DELETE_VAR => self.delete_var(),
            tag::CHANGE_SAMPLING_MODE => self.change_sampling_mode(),
            tag::ADD_CLAUSE => self.with_lits(Head::AddClause),
            tag::AT_CLAUSE => self.at_clause(format),
            tag::DELETE_CLAUSE => self.delete_clause(),
            tag::UNIT_CLAUSES => self.unit_clauses(format),
            tag::CHANGE_HASH_BITS => self.change_hash_bits(),
            tag::MODEL => self.with_lits(Head::Model),
            tag::ASSUMPTIONS => self.with_lits(Head::Assumptions),
            tag::FAILED_ASSUMPTIONS => self.failed_assumptions(format),
            tag::END => Ok(Head::End),
            _ => Err(Stop::Wrong(MalformedStep::UnknownTag)),
        }
    }

    fn solver_var_name(&mut self) -> Result<Head, Stop<MalformedStep>>
        ensures { Fills R.remaining (λ h. step_of h self.new) self.old self.new result
            (two_fields var_at name_at solver_var_name) }
    {
        let (global, solver) = self.naming()?;
        Ok(Head::SolverVarName { global, solver })
    }

    fn user_var_name(&mut self) -> Result<Head, Stop<MalformedStep>>
        ensures { Fills R.remaining (λ h. step_of h self.new) self.old self.new result
            (two_fields var_at name_at user_var_name) }
    {
        let (global, user) = self.naming()?;
        Ok(Head::UserVarName { global, user })
    }

    /// Returns a variable and its name, whichever step they make.
    fn naming(&mut self) -> Result<(Var, Option<Var>), Stop<MalformedStep>>
        ensures { (make : ℕ → Option ℕ → Step) → Fills R.remaining
            (λ names. make (index_of names.0) (indexes_of names.1)) self.old self.new result
            (two_fields var_at name_at make) }
    {
        let global = self.fields.var()?;
        let name = self.fields.name()?;
        Ok((global, name))
    }

    fn delete_var(&mut self) -> Result<Head, Stop<MalformedStep>>
        ensures { Fills R.remaining (λ h. step_of h self.new) self.old self.new result
            (one_field var_at delete_var) }
    {
        let var = self.fields.var()?;
        Ok(Head::DeleteVar { var })
    }

    fn change_sampling_mode(&mut self) -> Result<Head, Stop<MalformedStep>>
        ensures { Fills R.remaining (λ h. step_of h self.new) self.old self.new result
            (two_fields var_at flag_at change_sampling_mode) }
    {
        let var = self.fields.var()?;
        let sample = self.fields.flag()?;
        Ok(Head::ChangeSamplingMode { var, sample })
    }

    #[inline(always)]
    fn at_clause(&mut self, format: Format) -> Result<Head, Stop<MalformedStep>>
        requires { IsFormat format }
        ensures { Fills R.remaining (λ h. step_of h self.new) self.old self.new result
            (three_fields flag_at lits_at (hashes_at format) at_clause) }
    {
        let redundant = self.fields.flag()?;
        self.fields.lits(&mut self.lits)?;
        self.with_hashes(Head::AtClause { redundant }, format)
    }

    #[inline(always)]
    fn delete_clause(&mut self) -> Result<Head, Stop<MalformedStep>>
        ensures { Fills R.remaining (λ h. step_of h self.new) self.old self.new result
            (two_fields justification_at lits_at delete_clause) }
    {
        let proof = self.fields.justification()?;
        self.with_lits(Head::DeleteClause { proof })
    }

    fn unit_clauses(&mut self, format: Format) -> Result<Head, Stop<MalformedStep>>
        requires { IsFormat format }
        ensures { Fills R.remaining (λ h. step_of h self.new) self.old self.new result
            (one_field (list_at (unit_at format)) unit_clauses) }
    {
        self.fields.units(&mut self.units, format)?;
        Ok(Head::UnitClauses)
    }

    fn change_hash_bits(&mut self) -> Result<Head, Stop<MalformedStep>>
        ensures { Fills R.remaining (λ h. step_of h self.new) self.old self.new result
            (one_field (below_at (2 ^ 32)) change_hash_bits) }
    {
        let bits = self.fields.below(1 << 32)?;
        Ok(Head::ChangeHashBits { bits: bits as u32 })
    }

    fn failed_assumptions(&mut self, format: Format) -> Result<Head, Stop<MalformedStep>>
        requires { IsFormat format }
        ensures { Fills R.remaining (λ h. step_of h self.new) self.old self.new result
            (two_fields lits_at (hashes_at format) failed_assumptions) }
    {
        self.fields.lits(&mut self.lits)?;
        self.with_hashes(Head::FailedAssumptions, format)
    }

    /// Reads the literals that end the step of this head.
    #[inline(always)]
    fn with_lits(&mut self, head: Head) -> Result<Head, Stop<MalformedStep>>
        ensures { Fills R.remaining (λ h. step_of h self.new) self.old self.new result (one_field
            lits_at (λ lits. step_with head lits self.old.hashes.items self.old.units.items)) }
    {
        self.fields.lits(&mut self.lits)?;
        Ok(head)
    }

    /// Reads the hashes that end the step of this head.
    #[inline(always)]
    fn with_hashes(&mut self, head: Head, format: Format) -> Result<Head, Stop<MalformedStep>>
        requires { IsFormat format }
        ensures { Fills R.remaining (λ h. step_of h self.new) self.old self.new result (one_field
            (hashes_at format)
            (λ hashes. step_with head self.old.lits.items hashes self.old.units.items)) }
    {
        self.fields.hashes(&mut self.hashes, format)?;
        Ok(head)
    }
}
