//! What a stimulus shows of a machine, by a simulation of each step.
ghost use Rattle.std.specs.Prelude.{◌≡◌, ◌++◌, IfErr, IfOk};
ghost use Rattle.circuit_clauses.specs.Causes.{IsCause};
ghost use Rattle.circuit_clauses.specs.Machines.{machine_in};
ghost use Rattle.circuit_answers.specs.Causes.{reach_cause};
ghost use Rattle.circuit_answers.specs.Reached.{IsReachJudged, padded, reach_from, values_at};
ghost use Rattle.circuit_answers.specs.Simulations.{values_of};
ghost use Rattle.stimulus_text.specs.Stimuli.{inputs_in};

use crate::causes::reach_cause;
use crate::reach::Reach;
use crate::simulation::Simulation;
use crate::starts::{other_start, value_at};
use circuit_clauses::{ClausesFault, bad_outputs};
use circuit_text::Circuit;
use std::alloc::{AllocError, Global};
use stimulus_text::{Step, Stimulus};

/// Runs a machine by a stimulus, up to the first step where a constraint is false or a bad output
/// is true. All outputs are bad, if the machine names none as bad. An input that a step lacks is
/// false.
///
/// # Errors
///
/// `OutOfRange` if the variables of the latches are not those that follow the inputs;
/// `OutOfMemory`, if they are.
pub fn judge_reached(
    alloc: Global,
    machine: &Circuit,
    stimulus: &Stimulus,
) -> Result<Reach, ClausesFault>
    ensures judged { IfOk result (IsReachJudged machine.now stimulus.now) }
    ensures fault { IfErr result (IsCause (reach_cause machine.now)) }
{
    if let Some(fault) = reach_cause(machine) {
        return Err(fault);
    }
    if let Some(latch) = other_start(&machine.latches, &stimulus.first) {
        return Ok(Reach::OtherStart(latch));
    }
    Ok(run_steps(alloc, machine, &stimulus.first, &stimulus.steps)?)
}

/// Runs a machine, whose latches have these values at first.
fn run_steps(
    alloc: Global,
    machine: &Circuit,
    first: &[bool],
    steps: &[Step],
) -> Result<Reach, AllocError>
    ensures { IfOk result (λ reach. reach ≡ reach_from machine.now.inputs
        (machine_in machine.now) 0 first.now (inputs_in steps.now)) }
{
    let mut states = Vec::new(alloc);
    states.extend_from_slice(first)?;
    let mut index = 0;
    for step in steps {
        let values = simulate(alloc, machine, &states, &step.inputs)?;
        if !values.are_true(&machine.constraints) {
            return Ok(Reach::Broken(index));
        }
        if values.is_any_true(bad_outputs(machine)) {
            return Ok(Reach::At(index));
        }
        states = values.nexts(alloc, &machine.latches)?;
        index += 1;
    }
    Ok(Reach::Nowhere)
}

/// Returns the values of all variables at a step, from those of the latches and of the inputs.
fn simulate(
    alloc: Global,
    machine: &Circuit,
    states: &[bool],
    inputs: &[bool],
) -> Result<Simulation, AllocError>
    ensures { IfOk result (λ s. values_of s ≡ values_at machine.now.inputs
        (machine_in machine.now) states.now inputs.now) }
{
    let given = given_values(alloc, machine.inputs, inputs, states)?;
    Simulation::run(alloc, &given, &machine.gates)
}

/// Returns the values of inputs, this many, and behind them those of the latches.
fn given_values(
    alloc: Global,
    count: u32,
    inputs: &[bool],
    states: &[bool],
) -> Result<Vec<bool>, AllocError>
    ensures { IfOk result (λ given. given.items ≡ padded count inputs.now ++ states.now) }
{
    let mut given = Vec::new(alloc);
    for index in 0..count as usize {
        given.push(value_at(inputs, index))?;
    }
    given.extend_from_slice(states)?;
    Ok(given)
}
