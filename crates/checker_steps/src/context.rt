//! The parts of a checker.
use crate::marks::Marks;
use crate::processing::ProcessingOf;
use checker_parts::processor::{ProofProcessor, ProofTranscriptProcessor};
use checker_parts::sorted_lits::copy_canonical;
use checker_parts::variables::Variables;
use clause_store::clauses::Clauses;
use clause_store::hash::ClauseHasher;
use clause_store::rup::RupCheck;
use clause_store::state::CheckerState;
use sat_formula::Lit;
use std::alloc::{AllocError, Global};
use std::mem::replace;

/// Lists that are kept from one step to the next for their memory.
#[derive(Drop)]
pub struct TmpData {
    /// The canonical form of the clause of the present step.
    pub tmp: Vec<Lit>,
    /// The literals of the model of the present step.
    pub marks: Marks,
}

impl TmpData {
    ghost use Rattle.std.specs.Prelude.{◌≡◌, IfOk, IfSome, is_none};
    ghost use Rattle.sat_rules.specs.Clauses.{is_tautology};
    ghost use Rattle.checker_rules.specs.Canonical.{canonical};

    /// Returns the canonical list of a clause, in the memory that is kept, until it is put back.
    /// None of a clause with opposite literals.
    #[inline(never)]
    pub(crate) fn take_canonical(
        &mut self,
        alloc: Global,
        lits: &[Lit],
    ) -> Result<Option<Vec<Lit>>, AllocError>
        ensures list { IfOk result (λ list. IfSome list (λ clause. clause.items
            ≡ canonical lits.now)) }
        ensures tautology { IfOk result (λ list. is_none list
            ≡ is_tautology (canonical lits.now)) }
    {
        if copy_canonical(&mut self.tmp, lits)? {
            return Ok(None);
        }
        Ok(Some(replace(&mut self.tmp, Vec::new(alloc))))
    }
}

/// The parts of a checker.
#[derive(Drop)]
pub struct ContextOf<P, T> {
    pub checker_state: CheckerState,
    pub clause_hasher: ClauseHasher,
    pub clauses: Clauses,
    pub processing: ProcessingOf<P, T>,
    pub rup_check: RupCheck,
    pub tmp_data: TmpData,
    pub variables: Variables,
}

/// The parts of a checker whose processors are boxes.
pub type Context = ContextOf<Box<dyn ProofProcessor>, Box<dyn ProofTranscriptProcessor>>;

impl<P: ProofProcessor, T: ProofTranscriptProcessor> ContextOf<P, T> {
    ghost use Rattle.std.specs.Prelude.{◌≡◌, []};
    ghost use Rattle.checker_rules.specs.Steps.{new_state};
    ghost use Rattle.checker_steps.specs.Context.{ContextInvariant, context_state};

    /// Returns the parts of a checker with nothing stored. Takes no memory.
    pub fn new(alloc: Global) -> ContextOf<P, T>
        ensures state { context_state result ≡ new_state }
        ensures kept { ContextInvariant result }
        ensures processors { result.processing.processors.items ≡ [] }
        ensures transcripts { result.processing.transcript_processors.items ≡ [] }
    {
        ContextOf {
            checker_state: CheckerState::new(alloc),
            clause_hasher: ClauseHasher::new(alloc),
            clauses: Clauses::new(alloc),
            processing: ProcessingOf::new(alloc),
            rup_check: RupCheck::new(alloc),
            tmp_data: TmpData {
                tmp: Vec::new(alloc),
                marks: Marks::new(alloc),
            },
            variables: Variables::new(alloc),
        }
    }
}
