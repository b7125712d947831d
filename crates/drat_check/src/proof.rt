//! A proof, read and checked backward.
ghost use Rattle.std.specs.Prelude.{◌≡◌, ◌≢◌};

use crate::counts::{RunCounts, count_steps};
use crate::fault::ProofFault;
use crate::progress::{STEPS_A_REPORT, tell_checked};
use crate::reader::{ProofFormat, ProofReader};
use drat_elaborate::Elaborator;
use log::Log;
use lrat_checker::LineFault;
use sat_formula::CnfFormula;
use std::alloc::Global;
use std::cell::Cell;
use std::io::Read;

/// Reads a formula and a proof into a new elaborator, up to the first conflict.
pub(crate) fn read_proof<P: Read + Drop>(
    alloc: Global,
    formula: &CnfFormula,
    proof: P,
    format: ProofFormat,
    counts: &Cell<RunCounts>,
    elaborator: &mut Elaborator,
) -> Result<(), ProofFault> {
    begin(formula, elaborator)?;
    let mut reader = ProofReader::new(alloc, proof, format)?;
    let mut steps = 0;
    let read = hand_steps(&mut reader, elaborator, &mut steps);
    count_steps(counts, steps);
    read
}

/// Passes the steps up to the first conflict to an elaborator, and counts them.
fn hand_steps<P: Read + Drop>(
    reader: &mut ProofReader<P>,
    elaborator: &mut Elaborator,
    count: &mut u64,
) -> Result<(), ProofFault> {
    // The steps are fewer: the reader counts its bytes in 64 bits.
    for steps in 0..u64::MAX {
        *count = steps;
        if elaborator.is_refuted() || !reader.hand_step(elaborator)? {
            break;
        }
    }
    Ok(())
}

/// Passes the formula to an elaborator.
fn begin(formula: &CnfFormula, elaborator: &mut Elaborator) -> Result<(), ProofFault> {
    for clause in formula {
        elaborator.add_clause(clause)?;
    }
    elaborator.begin_proof()?;
    Ok(())
}

/// Checks the steps that the conflict needs, backward, and ends the report of its progress.
pub(crate) fn elaborate<L: Log>(rt: &L, elaborator: &mut Elaborator) -> Result<(), ProofFault> {
    let steps = elaborator.steps_left();
    // Each call but the last goes over steps, of which there are fewer.
    for _ in 0..u64::MAX {
        if elaborator.elaborate(STEPS_A_REPORT)? {
            break;
        }
        tell_checked(rt, elaborator, steps);
    }
    rt.flush();
    Ok(())
}

/// Returns the fault of a line that the checker does not accept: no memory for it, or else a defect
/// of the elaborator.
pub(crate) fn line_fault(line: u64, fault: LineFault) -> ProofFault
    ensures memory { fault ≡ LineFault.OutOfMemory → result ≡ ProofFault.OutOfMemory }
    ensures internal { fault ≢ LineFault.OutOfMemory → result ≡ ProofFault.Internal line fault }
{
    match fault {
        LineFault::OutOfMemory => ProofFault::OutOfMemory,
        LineFault::Refused(_) | LineFault::Failed => ProofFault::Internal { line, fault },
    }
}
