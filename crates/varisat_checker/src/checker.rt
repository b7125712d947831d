//! The checker.
ghost use Rattle.std.specs.Prelude.{◌≡◌, false};
ghost use Rattle.checker_steps.specs.Context.{ContextInvariant, context_state};
ghost use Rattle.varisat_checker.specs.Common.{EntailsRedundant, has_failed};

use crate::internal::SelfChecker;
use crate::proof;
use checker_parts::error::{CheckerError, DimacsError};
use checker_parts::processor::{ProofProcessor, ProofTranscriptProcessor};
use checker_steps::check::{add_clause, attempt_step, process_unit_conflicts};
use checker_steps::context::ContextOf;
use checker_steps::processing::ProcessingOf;
use log::{Log, info};
use proof_bytes::ProofStep;
use sat_formula::{CnfFormula, DimacsFault, Lit, LyingHeader, UntakenClause, read_clauses};
use std::alloc::Global;
use std::io::Read;

/// A checker of unsatisfiability proofs, generic over its processors and transcripts.
#[derive(Drop)]
pub struct CheckerOf<P, T> {
    ctx: ContextOf<P, T>,
    alloc: Global,
    ghost kept: { ctx.checker_state.failed ≡ false → ContextInvariant ctx },
    ghost entails: { ctx.checker_state.failed ≡ false → EntailsRedundant (context_state ctx) },
}

/// A checker whose processors are boxes.
pub type Checker = CheckerOf<Box<dyn ProofProcessor>, Box<dyn ProofTranscriptProcessor>>;

#[tactic(auto, unfolding(crate::specs::Shown::state, crate::specs::Shown::listeners))]
impl<P: ProofProcessor, T: ProofTranscriptProcessor> CheckerOf<P, T> {
    ghost use Rattle.std.specs.Prelude.{◌≡◌, ◌++◌, ◌∷◌, [], true, false, List, map, Ok, Err, IfErr, OnErr, OnOk, ◌*◌, ◌≤◌};
    ghost use Rattle.checker_rules.specs.AddFormula.{add_clauses, added};
    ghost use Rattle.checker_rules.specs.Step as rules;
    ghost use Rattle.checker_rules.specs.Steps.{new_state, step};
    ghost use Rattle.checker_parts.specs.declared.error.CheckerError.TheVariants.{Failed, OutOfMemory};
    ghost use Rattle.checker_steps.specs.Failing.{IsTextFailed};
    ghost use Rattle.checker_steps.specs.Delivered.{Delivered};
    ghost use Rattle.varisat_checker.specs.Common.{AnswersStep, Certifies, CoversFold, EmitsCall, EmitsCalls, IsCovered, IsFailed, IsFold, NeedsNoMemory, RecordsFailure, SetsFold, UnlessFailed, adds, shown_inputs, shown_unsat, step_limit};
    ghost use Rattle.varisat_checker.specs.ProofRun.{ProofRun};
    ghost use Rattle.varisat_checker.specs.Shown.{listeners, state, buffer_length, shown_literals};
    ghost use Rattle.varisat_checker.specs.TextFault.{IsTextFault};
    ghost use Rattle.varisat_checker.specs.TextRun.{TextRun};
    ghost use Rattle.sat_formula.specs.Lies.{TellsLie};

    /// Returns a checker that stores nothing. Allocates no memory.
    pub fn new(alloc: Global) -> CheckerOf<P, T>
        ensures state { state result ≡ new_state }
        ensures processors { (listeners result).processors ≡ [] }
        ensures transcripts { (listeners result).transcripts ≡ [] }
    {
        CheckerOf {
            ctx: ContextOf::new(alloc),
            alloc,
        }
    }

    /// Adds an input clause.
    ///
    /// If unsatisfiability is recorded, returns `Ok` and changes nothing.
    ///
    /// # Errors
    ///
    /// `CheckFailed` if a variable of the clause was sampled away, or no clause id or count is
    /// left. After `ProofProcessorError` (a listener failed) and `OutOfMemory` the checker has
    /// failed: every later call returns `Failed`.
    pub fn add_clause(&mut self, clause: &[Lit]) -> Result<(), CheckerError>
        ensures failed { (state self.old).failed ≡ true → IsFailed result × (self.new ≡ self.old) }
        ensures step { (state self.old).failed ≡ false
            → AnswersStep result (step (state self.old) (rules.add_clause clause.now))
            (state self.new) }
        ensures headline { (state self.old).failed ≡ false → (before : List rules.Step)
            → IsFold before (state self.old)
            → SetsFold result before (rules.add_clause clause.now) (state self.new) }
        ensures covers { (state self.old).failed ≡ false → (before : List rules.Step)
            → IsCovered before (state self.old)
            → CoversFold result before (rules.add_clause clause.now) (state self.new) }
        ensures delivered { (state self.old).failed ≡ false
            → Delivered result (EmitsCall (state self.old) (adds clause.now))
            P.ProofProcessor T.ProofTranscriptProcessor (listeners self.old) (listeners self.new) }
        ensures certified { (state self.old).failed ≡ false
            → Certifies result (EmitsCall (state self.old) (adds clause.now)) (state self.old)
            (state self.new) }
        ensures after_unsat { (state self.old).failed ≡ false → (state self.old).unsat ≡ true
            → (result ≡ Ok tt) × (self.new ≡ self.old) }
    {
        if self.ctx.checker_state.failed {
            return Err(CheckerError::Failed);
        }
        let answer = add_clause(self.alloc, &mut self.ctx, clause);
        if fails(&answer) {
            self.ctx.checker_state.failed = true;
        }
        answer
    }

    /// Adds the clauses of a formula, in order, up to the first that is rejected.
    ///
    /// # Errors
    ///
    /// As for `add_clause`, from the first clause that is rejected; the clauses before it stay.
    pub fn add_formula(&mut self, formula: &CnfFormula) -> Result<(), CheckerError>
        ensures failed { (state self.old).failed ≡ true → IsFailed result × (self.new ≡ self.old) }
        ensures steps { (state self.old).failed ≡ false
            → AnswersStep result (add_clauses (state self.old) formula.now) (state self.new) }
        ensures headline { (state self.old).failed ≡ false → (before : List rules.Step)
            → IsFold before (state self.old)
            → UnlessFailed result (IsFold (before ++
            map rules.add_clause (added (state self.old) formula.now)) (state self.new)) }
        ensures covers { (state self.old).failed ≡ false → (before : List rules.Step)
            → IsCovered before (state self.old)
            → UnlessFailed result (IsCovered
            (before ++ map rules.add_clause (added (state self.old) formula.now))
            (state self.new)) }
        ensures delivered { (state self.old).failed ≡ false
            → Delivered result (EmitsCalls (state self.old)
            (map adds (added (state self.old) formula.now)))
            P.ProofProcessor T.ProofTranscriptProcessor (listeners self.old) (listeners self.new) }
        ensures certified { (state self.old).failed ≡ false
            → Certifies result (EmitsCalls (state self.old)
            (map adds (added (state self.old) formula.now))) (state self.old) (state self.new) }
    {
        if self.ctx.checker_state.failed {
            return Err(CheckerError::Failed);
        }
        'clauses: for clause in formula {
            self.add_clause(clause)?;
        }
        Ok(())
    }

    /// Adds the clauses of a text in DIMACS CNF, each as it ends, up to the first that is rejected.
    ///
    /// The text is read as a stream. One line is logged once all of it was added.
    ///
    /// # Errors
    ///
    /// `Read` and `Malformed` for the first fault of the text; `Checker` if a clause is rejected,
    /// as for `add_clause`, and if memory runs out, after which the checker has failed. The clauses
    /// before the fault stay.
    pub fn add_dimacs_cnf<L: Log, R: Read + Drop>(
        &mut self,
        rt: &L,
        input: R,
    ) -> Result<(), DimacsError>
        ensures failed { (state self.old).failed ≡ true
            → IsTextFailed result × (self.new ≡ self.old) }
        ensures text { (state self.old).failed ≡ false
            → TextRun (R.remaining input) (state self.old) result (state self.new)
            P.ProofProcessor T.ProofTranscriptProcessor (listeners self.old) (listeners self.new) }
    {
        self.add_dimacs_cnf_with_lie(rt, input, &mut None)
    }

    /// As `add_dimacs_cnf`. `lie` gets the mismatch of the header, if there is one.
    ///
    /// # Errors
    ///
    /// As for `add_dimacs_cnf`; `lie` is then `None`.
    pub fn add_dimacs_cnf_with_lie<L: Log, R: Read + Drop>(
        &mut self,
        rt: &L,
        input: R,
        lie: &mut Option<LyingHeader>,
    ) -> Result<(), DimacsError>
        ensures failed { (state self.old).failed ≡ true
            → IsTextFailed result × (self.new ≡ self.old) }
        ensures text { (state self.old).failed ≡ false
            → TextRun (R.remaining input) (state self.old) result (state self.new)
            P.ProofProcessor T.ProofTranscriptProcessor (listeners self.old) (listeners self.new) }
        ensures lie { TellsLie (R.remaining input) result lie.new }
    {
        *lie = None;
        if self.ctx.checker_state.failed {
            return Err(DimacsError::Checker(CheckerError::Failed));
        }
        match read_clauses(self.alloc, input, self) {
            Ok(summary) => {
                let counts = summary.counts;
                info!(rt; "Parsed formula with {} variables and {} clauses", counts.variables, counts.clauses);
                *lie = summary.lie;
                Ok(())
            }
            Err(UntakenClause::Text(fault)) => Err(self.text_fault(fault)),
            Err(UntakenClause::Sink(fault)) => Err(DimacsError::Checker(fault)),
        }
    }

    /// Returns the error for a fault of a formula's text. If memory ran out, the checker has
    /// failed.
    fn text_fault(&mut self, fault: DimacsFault) -> DimacsError
        ensures fault { IsTextFault fault (state self.old) result (state self.new) }
        ensures listeners { listeners self.new ≡ listeners self.old }
    {
        if let DimacsFault::OutOfMemory = fault {
            self.ctx.checker_state.failed = true;
        }
        DimacsError::from(fault)
    }

    /// Checks the steps of a proof up to `End`, and then the closing conflict.
    ///
    /// Each call reads a new text, as a stream. If `End` was accepted before, nothing is read and
    /// nothing allocated. Every 100000 steps one line is logged.
    ///
    /// # Errors
    ///
    /// `ProofIncomplete`, `IoError` and `ParseError` if a step can't be read; `CheckFailed` if it
    /// is rejected, or no step number is left. The steps before it stay accepted. After
    /// `ProofProcessorError` and `OutOfMemory` the checker has failed: every later call returns
    /// `Failed`.
    pub fn check_proof<L: Log, R: Read + Drop>(
        &mut self,
        rt: &L,
        proof: R,
    ) -> Result<(), CheckerError>
        ensures failed { (state self.old).failed ≡ true → IsFailed result × (self.new ≡ self.old) }
        ensures run { (state self.old).failed ≡ false
            → ProofRun (R.remaining proof) (state self.old) result (state self.new)
            P.ProofProcessor T.ProofTranscriptProcessor (listeners self.old) (listeners self.new) }
        ensures records { RecordsFailure result (state self.new) }
        ensures ended { (state self.old).ended ≡ true → NeedsNoMemory result }
        ensures exhausted { step_limit ≤ (state self.old).steps → NeedsNoMemory result }
    {
        if self.ctx.checker_state.failed {
            return Err(CheckerError::Failed);
        }
        let answer = proof::check_proof(rt, self.alloc, &mut self.ctx, proof);
        if fails(&answer) {
            self.ctx.checker_state.failed = true;
        }
        answer
    }

    /// Registers a processor after those registered before.
    ///
    /// # Errors
    ///
    /// Returns the processor with `OutOfMemory`, or with `Failed` if the checker has failed. The
    /// checker is unchanged.
    pub fn add_processor(&mut self, processor: P) -> Result<(), (P, CheckerError)>
        ensures failed { (state self.old).failed ≡ true → (result ≡ Err (processor, Failed))
            × (self.new ≡ self.old) }
        ensures state { state self.new ≡ state self.old }
        ensures registered { OnOk result
            (listeners self.new ≡ record (listeners self.old)
            { processors = (listeners self.old).processors ++ processor ∷ [] }) }
        ensures refused { OnErr result (listeners self.new ≡ listeners self.old) }
        ensures returned { (state self.old).failed ≡ false
            → IfErr result (λ refusal. refusal ≡ (processor, OutOfMemory)) }
    {
        if self.ctx.checker_state.failed {
            return Err((processor, CheckerError::Failed));
        }
        match self.ctx.processing.processors.push(processor) {
            Ok(()) => Ok(()),
            Err(refused) => Err((refused.value, CheckerError::OutOfMemory)),
        }
    }

    /// Registers a transcript after those registered before.
    ///
    /// # Errors
    ///
    /// Returns the transcript with `OutOfMemory`, or with `Failed` if the checker has failed. The
    /// checker is unchanged.
    pub fn add_transcript(&mut self, transcript: T) -> Result<(), (T, CheckerError)>
        ensures failed { (state self.old).failed ≡ true → (result ≡ Err (transcript, Failed))
            × (self.new ≡ self.old) }
        ensures state { state self.new ≡ state self.old }
        ensures registered { OnOk result
            (listeners self.new ≡ record (listeners self.old)
            { transcripts = (listeners self.old).transcripts ++ transcript ∷ [] }) }
        ensures refused { OnErr result (listeners self.new ≡ listeners self.old) }
        ensures returned { (state self.old).failed ≡ false
            → IfErr result (λ refusal. refusal ≡ (transcript, OutOfMemory)) }
    {
        if self.ctx.checker_state.failed {
            return Err((transcript, CheckerError::Failed));
        }
        match self.ctx.processing.transcript_processors.push(transcript) {
            Ok(()) => Ok(()),
            Err(refused) => Err((refused.value, CheckerError::OutOfMemory)),
        }
    }

    /// Consumes the checker and returns the processors and the transcripts, each in order of
    /// registration.
    pub fn into_processors(self) -> (Vec<P>, Vec<T>)
        ensures processors { result.0.items ≡ (listeners self).processors }
        ensures transcripts { result.1.items ≡ (listeners self).transcripts }
    {
        let CheckerOf { ctx, .. } = self;
        let ContextOf { processing, .. } = ctx;
        let ProcessingOf {
            processors,
            transcript_processors,
            ..
        } = processing;
        (processors, transcript_processors)
    }

    /// Returns whether unsatisfiability is recorded and the checker has not failed.
    pub fn unsat(&self) -> bool
        ensures { result ≡ shown_unsat (state self.now) }
    {
        self.ctx.checker_state.unsat && !self.ctx.checker_state.failed
    }

    /// Returns how many input clauses took an id, or 0 if the checker has failed.
    pub fn input_clauses(&self) -> u64
        ensures { result ≡ shown_inputs (state self.now) }
    {
        if self.ctx.checker_state.failed {
            0
        } else {
            self.ctx.checker_state.input_clauses
        }
    }

    /// Returns the length of the literal buffer, and how many of its literals belong to stored
    /// clauses; (0, 0) if the checker has failed.
    ///
    /// Only clauses of more than three literals are in the buffer.
    #[tactic(auto, unfolding(crate::specs::Shown::buffer_length, crate::specs::Shown::state))]
    pub fn literal_counts(&self) -> (usize, usize)
        ensures buffer { result.0 ≡ buffer_length self.now }
        ensures literals { result.1 ≡ shown_literals (state self.now) }
        ensures bound { result.0 ≤ 2 * result.1 }
    {
        if self.ctx.checker_state.failed {
            return (0, 0);
        }
        let clauses = &self.ctx.clauses;
        let length = clauses.literal_buffer.len();
        (length, length - clauses.garbage_size)
    }
}

#[tactic(auto, unfolding(crate::specs::Shown::state, crate::specs::Shown::listeners))]
impl<P: ProofProcessor, T: ProofTranscriptProcessor> SelfChecker for CheckerOf<P, T> {
    ghost use Rattle.checker_steps.specs.Delivered.{Delivered};
    ghost use Rattle.varisat_checker.specs.Shown.{listeners, state};

    ghost shown = { λ c. state c };

    ghost delivers = { λ answer emitted old new. Delivered answer emitted
        P.ProofProcessor T.ProofTranscriptProcessor (listeners old) (listeners new) };

    fn self_check_step(&mut self, step: ProofStep) -> Result<(), CheckerError> {
        if self.ctx.checker_state.failed {
            return Err(CheckerError::Failed);
        }
        let answer = attempt_step(self.alloc, &mut self.ctx, &step);
        if fails(&answer) {
            self.ctx.checker_state.failed = true;
        }
        answer
    }

    fn self_check_delayed_steps(&mut self) -> Result<(), CheckerError> {
        if self.ctx.checker_state.failed {
            return Err(CheckerError::Failed);
        }
        let answer = process_unit_conflicts(self.alloc, &mut self.ctx);
        if fails(&answer) {
            self.ctx.checker_state.failed = true;
        }
        answer
    }
}

/// Returns whether this result means that the checker has failed.
fn fails(answer: &Result<(), CheckerError>) -> bool
    ensures { result ≡ has_failed answer.now }
{
    match answer {
        Err(CheckerError::ProofProcessorError { .. }) => true,
        Err(CheckerError::OutOfMemory) => true,
        Err(CheckerError::Failed) => true,
        _ => false,
    }
}
