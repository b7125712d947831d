//! Calls over the parts of a checker, by the paths of their modules, and looks at what they record.
//!
//! Of some parts the form alone is known: steps over them are answered by the rules, whatever the
//! clauses rest on. A rejection that shows its step ends in `shown`.
//!
//! - `add LITS`: adds an input clause;
//! - `attempt STEP`, `check STEP`: checks a step of [`crate::steps`], which is counted, or is not;
//! - `delayed`: closes a conflict of units;
//! - a proof of [`crate::texts`]: checks it byte by byte;
//! - `empty`: makes the empty clause the previous one, though it is not stored: nothing entails it;
//! - `next`, `previous`: the next id, and that of the previous clause;
//! - `inputs`, `units`, `conflict`, `unsat`, `ended`: how many input clauses there are, how many
//!   variables may have a unit, and what else is recorded;
//! - `copies irr LITS`, `copies red LITS`: how many stored copies of a clause are of this kind;
//! - `hash LITS`: the hash of a clause, by the names that are applied;
//! - `bucket HASH`: the ids of the clauses in the bucket of a hash;
//! - `ids`: the ids in both buckets of hashes of one bit, which rise in each.
ghost use Rattle.std.specs.Prelude.{OnOk};
ghost use Rattle.checker_parts.specs.Answers.{UnlessFailed};
ghost use Rattle.checker_steps.specs.Context.{ContextInvariant};

use crate::steps::Step;
use crate::texts::Text;
use crate::words::{first_word, hash, lits};
use checker_parts::error::CheckerError;
use log::sink::Discard;
use proof_bytes::ClauseHash;
use std::alloc::Global;
use std::test::Fail;
use varisat_checker::check::{add_clause, attempt_step, process_unit_conflicts};
use varisat_checker::clauses::rebuild::append_bucket;
use varisat_checker::clauses::store::copies;
use varisat_checker::context::Context;
use varisat_checker::proof::check_proof;
use varisat_checker::state::check_step;

/// Makes the calls of these lines over new parts, and returns the result of the last one.
///
/// # Errors
///
/// If a line is no call, or there is no memory.
pub fn last_answer(alloc: Global, calls: &str) -> Result<String, Fail> {
    let (_, numbers) = first_word(calls.lines().next().unwrap_or(""));
    let (next, steps) = first_word(numbers);
    let mut ctx = parts_at(alloc, next.parse::<u64>()?, steps.parse::<u64>()?);
    play(alloc, &mut ctx, calls)
}

/// Returns new parts whose next id is this, and that counted this many steps.
fn parts_at(alloc: Global, next: u64, steps: u64) -> Context
    ensures { ContextInvariant result }
{
    let mut ctx = Context::new(alloc);
    ctx.clauses.next_clause_id = next;
    ctx.checker_state.step = steps;
    ctx
}

/// Makes the calls of these lines, and returns the result of the last one.
fn play(alloc: Global, ctx: &mut Context, calls: &str) -> Result<String, Fail>
    requires { ContextInvariant ctx.old }
{
    let mut answer = String::new(alloc);
    for call in calls.lines() {
        answer = make(alloc, ctx, call)?;
    }
    Ok(answer)
}

/// Makes the call of a line, or returns what is recorded.
fn make(alloc: Global, ctx: &mut Context, call: &str) -> Result<String, Fail>
    requires { ContextInvariant ctx.old }
    ensures { OnOk result (ContextInvariant ctx.new) }
{
    match first_word(call).0 {
        "add" | "attempt" | "check" | "delayed" | "proof" | "failing" => {
            let asked = Asked::of(alloc, call)?;
            see_answer(alloc, ctx, &asked)
        }
        "empty" => {
            with_empty_previous(alloc, ctx);
            Ok("Ok".to_string(alloc)?)
        }
        _ => look(alloc, ctx, call),
    }
}

/// A call that returns a result.
#[derive(Drop)]
enum Asked {
    Add(Step),
    Attempt(Step),
    Check(Step),
    Close,
    Prove(Text),
}

impl Asked {
    /// Returns the call of a line.
    fn of(alloc: Global, call: &str) -> Result<Asked, Fail> {
        match first_word(call) {
            ("add", _) => Ok(Asked::Add(Step::of(alloc, call)?)),
            ("attempt", step) => Ok(Asked::Attempt(Step::of(alloc, step)?)),
            ("check", step) => Ok(Asked::Check(Step::of(alloc, step)?)),
            ("delayed", _) => Ok(Asked::Close),
            _ => Ok(Asked::Prove(Text::of(alloc, call, 1)?)),
        }
    }
}

/// Makes a call, and returns the text of its result.
fn see_answer(alloc: Global, ctx: &mut Context, asked: &Asked) -> Result<String, Fail>
    requires { ContextInvariant ctx.old }
    ensures { OnOk result (ContextInvariant ctx.new) }
{
    match answered(alloc, ctx, asked) {
        Ok(()) => Ok("Ok".to_string(alloc)?),
        Err(
            CheckerError::CheckFailed {
                step,
                msg,
                debug_step,
            },
        ) => {
            let shown = if debug_step.is_empty() { "" } else { " shown" };
            Ok(format!(in alloc; "CheckFailed {step} {msg:?}{shown}")?)
        }
        Err(_) => Err("the parts failed, or a proof was read".into()),
    }
}

/// Makes a call, and returns its result.
fn answered(alloc: Global, ctx: &mut Context, asked: &Asked) -> Result<(), CheckerError>
    requires { ContextInvariant ctx.old }
    ensures { UnlessFailed result (ContextInvariant ctx.new) }
{
    match asked {
        Asked::Add(step) => add_clause(alloc, ctx, step.lits()),
        Asked::Attempt(step) => attempt_step(alloc, ctx, &step.as_step()),
        Asked::Check(step) => check_step(alloc, ctx, &step.as_step()),
        Asked::Close => process_unit_conflicts(alloc, ctx),
        Asked::Prove(text) => check_proof(&Discard, alloc, ctx, text.cuts()),
    }
}

/// Makes the empty clause the previous one, without storing it.
fn with_empty_previous(alloc: Global, ctx: &mut Context)
    requires { ContextInvariant ctx.old }
    ensures { ContextInvariant ctx.new }
{
    let empty = Vec::new(alloc);
    ctx.checker_state.previous_lits = empty;
    ctx.checker_state.previous_id = Some(0);
}

/// Returns what is recorded under a name.
fn look(alloc: Global, ctx: &Context, what: &str) -> Result<String, Fail>
    requires { ContextInvariant ctx.now }
{
    let (clauses, state) = (&ctx.clauses, &ctx.checker_state);
    Ok(match what {
        "next" => format!(in alloc; "{}", clauses.next_clause_id)?,
        "previous" => format!(in alloc; "{:?}", state.previous_id)?,
        "inputs" => format!(in alloc; "{}", state.input_clauses)?,
        "units" => format!(in alloc; "{}", clauses.unit_clauses.len())?,
        "conflict" => format!(in alloc; "{:?}", clauses.unit_conflict)?,
        "unsat" => format!(in alloc; "{}", state.unsat)?,
        "ended" => format!(in alloc; "{}", state.ended)?,
        _ => look_up(alloc, ctx, what)?,
    })
}

/// Returns what is recorded of a clause or of a hash.
fn look_up(alloc: Global, ctx: &Context, what: &str) -> Result<String, Fail>
    requires { ContextInvariant ctx.now }
{
    let (name, rest) = first_word(what);
    match (name, first_word(rest)) {
        ("copies", ("irr", numbers)) => copies_of(alloc, ctx, numbers, false),
        ("copies", ("red", numbers)) => copies_of(alloc, ctx, numbers, true),
        ("hash", _) => {
            let clause = lits(alloc, rest)?;
            Ok(format!(in alloc; "{:X}", ctx.clause_hasher.clause_hash(&clause))?)
        }
        ("bucket", _) => listed(alloc, &ids_in(alloc, ctx, hash(rest)?)?),
        ("ids", _) => listed(alloc, &all_ids(alloc, ctx)?),
        ("parts", _) => Ok("Ok".to_string(alloc)?),
        _ => Err("no such call".into()),
    }
}

/// Returns how many stored copies of a clause are of this kind.
fn copies_of(alloc: Global, ctx: &Context, numbers: &str, redundant: bool) -> Result<String, Fail>
    requires { ContextInvariant ctx.now }
{
    let clause = lits(alloc, numbers)?;
    let count = copies(&ctx.clause_hasher, &ctx.clauses, &clause, redundant);
    Ok(format!(in alloc; "{count}")?)
}

/// Returns the ids of the clauses in the bucket of a hash.
fn ids_in(alloc: Global, ctx: &Context, hash: ClauseHash) -> Result<Vec<u64>, Fail> {
    let mut ids = Vec::new(alloc);
    if let Some(bucket) = ctx.clauses.buckets.get(&hash) {
        let mut clauses = Vec::new(alloc);
        append_bucket(&mut clauses, bucket)?;
        for clause in &clauses {
            ids.push(clause.id)?;
        }
    }
    Ok(ids)
}

/// Returns the ids of both buckets of hashes of one bit, by rising ids, as they are in each bucket.
fn all_ids(alloc: Global, ctx: &Context) -> Result<Vec<u64>, Fail> {
    let mut all = ids_in(alloc, ctx, 0)?;
    let others = ids_in(alloc, ctx, 1)?;
    if !all.is_sorted() || !others.is_sorted() {
        return Err("the ids of a bucket fall".into());
    }
    all.extend_from_slice(&others)?;
    all.sort_unstable();
    Ok(all)
}

/// Returns numbers, with a space between two of them, or `none`.
fn listed(alloc: Global, ids: &[u64]) -> Result<String, Fail> {
    if ids.is_empty() {
        return Ok("none".to_string(alloc)?);
    }
    let mut text = String::new(alloc);
    for id in ids {
        if !text.is_empty() {
            write!(text, " ")?;
        }
        write!(text, "{id}")?;
    }
    Ok(text)
}
