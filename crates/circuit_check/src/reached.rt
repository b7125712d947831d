//! Runs of a stimulus: a machine is read, it is run by the stimulus, and the verdict is written.
ghost use Rattle.std.specs.Prelude.{◌≡◌, ℕ, List, IfOk, Ok, Some};
ghost use Rattle.std.specs.Io.KnownBytes.{Appends};
ghost use Rattle.circuit_answers.specs.Reached.{reach_line};
ghost use Rattle.circuit_answers.specs.declared.reach.Reach.TheVariants.{At};
ghost use Rattle.circuit_check.specs.Claims.{IsReachedText};
ghost use Rattle.circuit_check.specs.Reached.{BeginsReach, IsReachRun, IsSilentReach, IsUnwrittenReach, OfReach, shape_of};

use crate::fault::ReachFault;
use circuit_answers::{Reach, judge_reached};
use circuit_text::{Circuit, read_circuit};
use std::alloc::Global;
use std::io::{Read, Write};
use stimulus_text::{Shape, read_stimulus};
use whole_writes::write_whole;

/// Reads a machine and a stimulus, and writes the verdict's line: whether the run by the stimulus
/// makes a bad output true, at a step up to which all constraints are true. All outputs are bad,
/// if the machine names none as bad.
///
/// Returns what the run does.
///
/// # Errors
///
/// `Unread` if the machine can't be read, `Stimulus` if the stimulus can't be read or does not fit
/// the machine, `NotRun` if memory runs out. Nothing is written then. `Write` if the line could not
/// be written whole: a beginning of it is.
pub fn run_reached<A: Read + Drop, P: Read + Drop, W: Write>(
    alloc: Global,
    machine: A,
    stimulus: P,
    out: &mut W,
) -> Result<Reach, ReachFault>
    ensures run { IsReachRun (A.remaining machine) (P.remaining stimulus) result }
    ensures line { IfOk result (λ reach.
        Appends (W.contents out.old) (W.contents out.new) (reach_line reach)) }
    ensures silent { IsSilentReach result → out.new ≡ out.old }
    ensures unwritten { IsUnwrittenReach result → OfReach (A.remaining machine)
        (P.remaining stimulus) (BeginsReach (W.contents out.old) (W.contents out.new)) }
    ensures reached { (said : List ℕ) (step : ℕ) → A.remaining machine ≡ Some said
        → result ≡ Ok (At step) → IsReachedText said }
{
    let circuit = match read_circuit(alloc, machine) {
        Ok(circuit) => circuit,
        Err(fault) => return Err(ReachFault::Unread(fault)),
    };
    let values = match read_stimulus(alloc, stimulus, shape_of(&circuit)) {
        Ok(values) => values,
        Err(fault) => return Err(ReachFault::Stimulus(fault)),
    };
    let reach = match judge_reached(alloc, &circuit, &values) {
        Ok(reach) => reach,
        Err(fault) => return Err(ReachFault::NotRun(fault)),
    };
    match write_whole(out, reach.line()) {
        Ok(()) => Ok(reach),
        Err(fault) => Err(ReachFault::Write(fault)),
    }
}

/// Returns how many values the lines of a stimulus have.
fn shape_of(machine: &Circuit) -> Shape
    ensures { result ≡ shape_of machine.now }
{
    Shape {
        latches: machine.latches.len(),
        inputs: machine.inputs as usize,
    }
}
