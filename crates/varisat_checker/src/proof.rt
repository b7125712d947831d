//! How a proof is checked.
ghost use Rattle.std.specs.Prelude.{◌≡◌, ◌≤◌, ℕ, true};
ghost use Rattle.checker_rules.specs.Calls.{step_limit};
ghost use Rattle.checker_parts.specs.Answers.{UnlessFailed};
ghost use Rattle.checker_parts.specs.Memory.{NeedsNoMemory};
ghost use Rattle.checker_steps.specs.Context.{ContextInvariant, context_state, listeners_in};
ghost use Rattle.varisat_checker.specs.ProofRun.{PartsRun};
ghost use Rattle.varisat_checker.specs.ReadFault.{IsReadFault};

use checker_parts::error::{CheckCause, CheckerError};
use checker_parts::processor::{ProofProcessor, ProofTranscriptProcessor};
use checker_steps::check::{process_unit_conflicts, refusal, step_error, take_counted};
use checker_steps::context::ContextOf;
use log::{Log, info};
use proof_bytes::{ProofFault, StepReader};
use std::alloc::Global;
use std::io::Read;

/// One line is logged every this many steps.
const STEPS_A_LINE: u64 = 100_000;

/// Checks the steps of a proof up to `End`, and then the closing conflict.
///
/// Each call reads a new text. If `End` was accepted before, nothing is read.
///
/// # Errors
///
/// As for `CheckerOf::check_proof`.
pub fn check_proof<P: ProofProcessor, T: ProofTranscriptProcessor, L: Log, R: Read + Drop>(
    rt: &L,
    alloc: Global,
    ctx: &mut ContextOf<P, T>,
    proof: R,
) -> Result<(), CheckerError>
    requires { ContextInvariant ctx.old }
    ensures run { PartsRun (R.remaining proof) (context_state ctx.old) result (context_state ctx.new)
        P.ProofProcessor T.ProofTranscriptProcessor (listeners_in ctx.old) (listeners_in ctx.new) }
    ensures kept { UnlessFailed result (ContextInvariant ctx.new) }
    ensures ended { (context_state ctx.old).ended ≡ true → NeedsNoMemory result }
    ensures exhausted { step_limit ≤ (context_state ctx.old).steps → NeedsNoMemory result }
{
    let mut reader = StepReader::new(alloc, proof);
    'steps: while !ctx.checker_state.ended {
        if ctx.checker_state.step == u64::MAX {
            return Err(refusal(alloc, &ctx.checker_state, CheckCause::StepsExhausted));
        }
        match reader.next_step() {
            Ok(step) => {
                // The error is made where the loop is left: it is long, and costs each step
                // otherwise.
                if let Err(fault) = take_counted(alloc, ctx, &step) {
                    let number = ctx.checker_state.step;
                    return Err(step_error(alloc, &mut ctx.processing, number, fault, &step));
                }
            }
            Err(fault) => {
                ctx.checker_state.step += 1;
                return Err(read_fault(ctx.checker_state.step, fault));
            }
        }
        tell_progress(rt, ctx.checker_state.step);
    }
    process_unit_conflicts(alloc, ctx)
}

/// Returns the error for a step that could not be read.
fn read_fault(step: u64, fault: ProofFault) -> CheckerError
    ensures { IsReadFault step fault result }
{
    match fault {
        ProofFault::End => CheckerError::ProofIncomplete { step },
        ProofFault::Read(cause) => CheckerError::IoError { step, cause },
        ProofFault::Malformed(cause) => CheckerError::ParseError { step, cause },
        ProofFault::OutOfMemory => CheckerError::OutOfMemory,
    }
}

/// Logs the number of a step, if a line is due.
#[inline(always)]
fn tell_progress<L: Log>(rt: &L, step: u64) {
    if step % STEPS_A_LINE == 0 {
        log_step(rt, step);
    }
}

/// Logs the number of a step, in thousands.
#[inline(never)]
fn log_step<L: Log>(rt: &L, step: u64) {
    info!(rt; "checking step {}k", step / 1000);
}
