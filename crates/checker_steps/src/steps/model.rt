//! Models.
ghost use Rattle.std.specs.Prelude.{◌≡◌, ℕ, ◌&&◌, All, OnErr, OnOk, [], eqb, false, not};
ghost use Rattle.std.specs.List.{list_all, list_any};
ghost use Rattle.sat_rules.specs.Clauses.{add_lit, has};
ghost use Rattle.checker_rules.specs.Model.{model_cause};
ghost use Rattle.checker_rules.specs.Step as rules;
ghost use Rattle.clause_store.specs.Buckets.{clauses_of};
ghost use Rattle.clause_store.specs.Crowds.{standing};
ghost use Rattle.clause_store.specs.Lits.{IsWithin};
ghost use Rattle.clause_store.specs.Store.{IsIndexed};
ghost use Rattle.clause_store.specs.View.{stored_list, stored_of};
ghost use Rattle.checker_steps.specs.Common.{AnswersOutcome, CheckerState, ClauseHasher, ContextInvariant, DeliveredList, Emits, UnlessStopped, context_state, listeners_in, state_of, step};
ghost use Rattle.checker_steps.specs.Marks.{HasPlaces, MarksOnly, is_marked};
ghost use Rattle.checker_steps.specs.ModelCause.{IsJudged, has_marked, list_cause, lit_cause};

use crate::context::ContextOf;
use crate::emit::emit_model;
use crate::marks::Marks;
use checker_parts::error::{CheckCause, StepFault};
use checker_parts::processor::{ProofProcessor, ProofTranscriptProcessor};
use checker_parts::variables::Variables;
use clause_store::clauses::buckets::Bucket;
use clause_store::clauses::{Clause, Clauses};
use clause_store::state::CheckerState;
use sat_formula::Lit;

/// Checks a model: its literals are consistent with each other and with the units, and it has every
/// assumption and a literal of each stored clause.
///
/// # Errors
///
/// `Refused` if the model fails one of these, or unsatisfiability is recorded. After `Processor`
/// and `OutOfMemory` the parts are unspecified.
pub fn model<P: ProofProcessor, T: ProofTranscriptProcessor>(
    ctx: &mut ContextOf<P, T>,
    assignment: &[Lit],
) -> Result<(), StepFault>
    requires { ContextInvariant ctx.old }
    ensures step { AnswersOutcome result (step (context_state ctx.old) (rules.model assignment.now))
        (context_state ctx.new) }
    ensures kept { UnlessStopped result (ContextInvariant ctx.new) }
    ensures delivered { DeliveredList result
        (Emits (context_state ctx.old) (rules.model assignment.now))
        P.ProofProcessor T.ProofTranscriptProcessor (listeners_in ctx.old) (listeners_in ctx.new) }
{
    if ctx.checker_state.unsat {
        return Err(StepFault::Refused(CheckCause::ModelAfterUnsat));
    }
    let Ok(()) = ctx.tmp_data.marks.make_places(&ctx.variables) else {
        return Err(StepFault::OutOfMemory);
    };
    let judged = judge(
        &ctx.checker_state,
        &ctx.clauses,
        &ctx.variables,
        assignment,
        &mut ctx.tmp_data.marks,
    );
    match judged {
        Ok(()) => emit_model(&mut ctx.processing, &ctx.variables, assignment),
        Err(cause) => Err(StepFault::Refused(cause)),
    }
}

/// Why the list is no model, where unsatisfiability is not recorded.
fn judge(
    state: &CheckerState,
    clauses: &Clauses,
    variables: &Variables,
    assignment: &[Lit],
    marks: &mut Marks,
) -> Result<(), CheckCause>
    requires filed { (h : ClauseHasher) × IsIndexed h clauses.now (stored_list clauses.now) }
    requires places { HasPlaces marks.old.by_code.items variables.now }
    ensures { (h : ClauseHasher) → IsJudged result
        (list_cause (state_of state.now h clauses.now variables.now) assignment.now) }
{
    let judged = judge_marking(state, clauses, variables, assignment, &mut marks.by_code);
    unmark_literals(&mut marks.by_code, assignment);
    judged
}

/// Judges a model by marks of its literals, which stay.
fn judge_marking(
    state: &CheckerState,
    clauses: &Clauses,
    variables: &Variables,
    assignment: &[Lit],
    marks: &mut [bool],
) -> Result<(), CheckCause>
    requires filed { (h : ClauseHasher) × IsIndexed h clauses.now (stored_list clauses.now) }
    requires places { HasPlaces marks.old variables.now }
    requires unset { (l : ℕ) → is_marked marks.old l ≡ false }
    ensures cause { (h : ClauseHasher) → IsJudged result
        (list_cause (state_of state.now h clauses.now variables.now) assignment.now) }
    ensures listed { MarksOnly marks.new assignment.now }
{
    mark_literals(clauses, variables, assignment, marks)?;
    if !are_marked(marks, &state.assumptions) {
        return Err(CheckCause::ModelMissesAssumption);
    }
    if !meets_clauses(marks, clauses) {
        return Err(CheckCause::ModelMissesClause);
    }
    Ok(())
}

/// Marks the literals of a list, up to the first that can't be in a model with those before it.
fn mark_literals(
    clauses: &Clauses,
    variables: &Variables,
    assignment: &[Lit],
    marks: &mut [bool],
) -> Result<(), CheckCause>
    requires places { HasPlaces marks.old variables.now }
    requires unset { (l : ℕ) → is_marked marks.old l ≡ false }
    ensures cause { (st : CheckerState) (h : ClauseHasher)
        → IsJudged result (model_cause (state_of st h clauses.now variables.now) [] assignment.now) }
    ensures marked { OnOk result ((l : ℕ) → is_marked marks.new l ≡ has l assignment.now) }
    ensures listed { MarksOnly marks.new assignment.now }
{
    for lit in assignment {
        mark_literal(clauses, variables, *lit, marks)?;
    }
    Ok(())
}

/// Marks a literal, unless it can't be in a model with the marked ones.
fn mark_literal(
    clauses: &Clauses,
    variables: &Variables,
    lit: Lit,
    marks: &mut [bool],
) -> Result<(), CheckCause>
    requires { HasPlaces marks.old variables.now }
    ensures cause { (st : CheckerState) (h : ClauseHasher)
        → IsJudged result (lit_cause (state_of st h clauses.now variables.now)
        (is_marked marks.old) lit) }
    ensures marked { OnOk result (is_marked marks.new ≡ add_lit lit (is_marked marks.old)) }
    ensures same { OnErr result (marks.new ≡ marks.old) }
{
    if lit.index() >= variables.len() {
        return Err(CheckCause::UnknownVar);
    }
    if clauses.unit_clauses.is_false(lit) {
        return Err(CheckCause::ModelAgainstUnit);
    }
    if is_marked(marks, !lit) {
        return Err(CheckCause::ModelAgainstItself);
    }
    marks[lit.code()] = true;
    Ok(())
}

/// Takes back the marks of a list, so that none is left.
fn unmark_literals(marks: &mut [bool], lits: &[Lit])
    requires { MarksOnly marks.old lits.now }
    ensures { (l : ℕ) → is_marked marks.new l ≡ false }
{
    for lit in lits {
        unmark_literal(marks, *lit);
    }
}

/// Removes the mark of a literal. Without a slot it has none.
fn unmark_literal(marks: &mut [bool], lit: Lit)
    ensures { (l : ℕ) → is_marked marks.new l ≡ (not (eqb l lit) && is_marked marks.old l) }
{
    let code = lit.code();
    if code < marks.len() {
        marks[code] = false;
    }
}

fn is_marked(marks: &[bool], lit: Lit) -> bool
    ensures { result ≡ is_marked marks.now lit }
{
    marks.get(lit.code()).copied().unwrap_or(false)
}

/// Returns whether every literal is marked.
fn are_marked(marks: &[bool], lits: &[Lit]) -> bool
    ensures { result ≡ list_all (is_marked marks.now) lits.now }
{
    lits.iter().all(|lit| is_marked(marks, *lit))
}

/// Returns whether some literal is marked.
fn meets(marks: &[bool], lits: &[Lit]) -> bool
    ensures { result ≡ list_any (is_marked marks.now) lits.now }
{
    lits.iter().any(|lit| is_marked(marks, *lit))
}

/// Returns whether some literal of the clause is marked.
fn meets_clause(marks: &[bool], clause: &Clause, buffer: &[Lit]) -> bool
    requires { IsWithin clause.now.lits buffer.now }
    ensures { result ≡ has_marked (is_marked marks.now) (stored_of buffer.now clause.now) }
{
    meets(marks, clause.lits.slice(buffer))
}

/// Returns whether some literal of each clause of a bucket with several is marked.
fn meets_crowd(marks: &[bool], places: &[Option<Clause>], buffer: &[Lit]) -> bool
    requires { All (λ c. IsWithin c.lits buffer.now) (standing places.now) }
    ensures { result ≡ list_all (λ c. has_marked (is_marked marks.now) (stored_of buffer.now c))
        (standing places.now) }
{
    for place in places {
        let Some(clause) = place else {
            continue;
        };
        if !meets_clause(marks, clause, buffer) {
            return false;
        }
    }
    true
}

/// Returns whether some literal of each clause of a bucket is marked.
fn meets_bucket(marks: &[bool], bucket: &Bucket, buffer: &[Lit]) -> bool
    requires { All (λ c. IsWithin c.lits buffer.now) (clauses_of bucket.now) }
    ensures { result ≡ list_all (λ c. has_marked (is_marked marks.now) (stored_of buffer.now c))
        (clauses_of bucket.now) }
{
    match bucket {
        Bucket::One(clause) => meets_clause(marks, clause, buffer),
        Bucket::Many(crowd) => meets_crowd(marks, &crowd.places, buffer),
    }
}

/// Returns whether some literal of each stored clause of two or more is marked.
fn meets_clauses(marks: &[bool], clauses: &Clauses) -> bool
    requires { (h : ClauseHasher) × IsIndexed h clauses.now (stored_list clauses.now) }
    ensures { result ≡ list_all (has_marked (is_marked marks.now)) (stored_list clauses.now) }
{
    for bucket in clauses.buckets.values() {
        if !meets_bucket(marks, bucket, &clauses.literal_buffer) {
            return false;
        }
    }
    true
}
