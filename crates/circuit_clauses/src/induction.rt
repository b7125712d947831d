//! A machine and an invariant, and the formulas by which the machine is safe.
ghost use Rattle.std.specs.Prelude.{◌≡◌, [], ◌∷◌, ◌++◌, length, map, true, None, IfErr, IfOk, OnOk};
ghost use Rattle.sat_rules.specs.Clauses.{negate};
ghost use Rattle.refutation_rules.specs.Cubes.{units_of};
ghost use Rattle.circuit_rules.specs.Safety.{reset_clauses};
ghost use Rattle.circuit_text.specs.Circuits.{gate_of};
ghost use Rattle.circuit_clauses.specs.Causes.{IsCause, fits_part, part_cause, safe_cause};
ghost use Rattle.circuit_clauses.specs.Machines.{IsInduction, after_clauses, machine_in, part_clauses};

use crate::causes::safe_cause;
use crate::counts::Counts;
use crate::fault::ClausesFault;
use crate::fits::{gates_fit, latches_fit, lit_fits};
use crate::gates::{add_circuit, add_moved};
use crate::latches::{add_resets, add_steps, add_units};
use crate::shapes::bad_outputs;
use crate::shift::Shift;
use circuit_text::{Circuit, Gate};
use sat_formula::{CnfFormula, Lit};
use std::alloc::{AllocError, Global};

/// What is to be shown of a machine and an invariant.
#[derive(Clone, Copy, Debug, PartialEq, Eq)]
pub enum Part {
    /// The invariant is true at first.
    Initial,
    /// It stays true.
    Step,
    /// Where it is true, no bad output is.
    Bad,
}

/// A machine and an invariant in one formula.
#[derive(Drop)]
pub struct Induction {
    pub machine: Circuit,
    /// The gates of the machine, and behind them those of the invariant.
    pub gates: Vec<Gate>,
    /// The literal of the invariant.
    pub invariant: Lit,
    /// The last variable: by so much those of the next step are further on.
    pub last: u32,
}

impl Induction {
    /// Returns a machine and an invariant, a circuit with one output whose inputs are the machine's
    /// inputs and then its latches. Outputs stand for bad ones where the machine has none.
    ///
    /// # Errors
    ///
    /// The first that applies: `NothingBad` if the machine has no outputs, `NoInvariant` if the
    /// second circuit has not one output and gates alone, `TooLarge`, `OtherStates` if it has other
    /// inputs, `Unordered` and `OutOfRange` if a gate or a literal of one of them reads what is not
    /// there, and `OutOfMemory`.
    pub fn of(
        alloc: Global,
        machine: Circuit,
        invariant: &Circuit,
    ) -> Result<Induction, ClausesFault>
        ensures induction { IfOk result (IsInduction machine invariant.now) }
        ensures fits { IfOk result (λ induction. fits_part induction Part.Step ≡ true) }
        ensures none { IfOk result (λ induction. safe_cause machine invariant.now ≡ None) }
        ensures fault { IfErr result (IsCause (safe_cause machine invariant.now)) }
    {
        if let Some(fault) = safe_cause(&machine, invariant) {
            return Err(fault);
        }
        let counts = Counts::of(&machine, invariant);
        let shift = Shift {
            inputs: counts.states,
            distance: counts.own,
        };
        let output = shift.moved(output_of(invariant));
        let more = shift.moved_gates(alloc, &invariant.gates)?;
        let gates = joined(alloc, &machine.gates, &more)?;
        Ok(Induction {
            machine,
            gates,
            invariant: output,
            last: counts.last,
        })
    }

    /// Returns the formula of a part, which is to be refuted.
    ///
    /// # Errors
    ///
    /// `TooLarge` if a formula can't have the variables of the next step, which it always can if
    /// this is of `of`; `OutOfMemory`, if it can.
    pub fn formula(&self, alloc: Global, part: Part) -> Result<CnfFormula, ClausesFault>
        ensures formula { IfOk result (λ formula. formula ≡ part_clauses self.now part) }
        ensures none { IfOk result (λ formula. part_cause self.now part ≡ None) }
        ensures fault { IfErr result (IsCause (part_cause self.now part)) }
    {
        if !self.fits_part(part) {
            return Err(ClausesFault::TooLarge);
        }
        let mut formula = CnfFormula::new(alloc);
        add_circuit(&mut formula, &self.gates)?;
        match part {
            Part::Initial => self.add_initial(&mut formula)?,
            Part::Step => self.add_step(&mut formula)?,
            Part::Bad => self.add_bad(&mut formula)?,
        }
        Ok(formula)
    }

    /// Whether a formula can have the variables of a part.
    fn fits_part(&self, part: Part) -> bool
        ensures { result ≡ fits_part self.now part }
    {
        let last = self.last as usize;
        match part {
            Part::Step => {
                gates_fit(last, &self.gates)
                    && latches_fit(last, &self.machine.latches)
                    && lit_fits(last, self.invariant)
            }
            Part::Initial | Part::Bad => true,
        }
    }

    /// Adds the first values of latches, and that the invariant is false.
    fn add_initial(&self, formula: &mut CnfFormula) -> Result<(), AllocError>
        ensures { OnOk result (formula.new ≡ formula.old
            ++ (reset_clauses (machine_in self.now.machine).latches
            ++ (negate self.now.invariant ∷ []) ∷ [])) }
    {
        add_resets(formula, &self.machine.latches)?;
        formula.add_clause(&[!self.invariant])?;
        Ok(())
    }

    /// Adds the gates and latches of the next step, and that the invariant is false there, and true
    /// before.
    fn add_step(&self, formula: &mut CnfFormula) -> Result<(), AllocError>
        requires { fits_part self.now Part.Step ≡ true }
        ensures { OnOk result (formula.new ≡ formula.old ++ after_clauses self.now) }
    {
        let next = Shift {
            inputs: 0,
            distance: self.last,
        };
        let (machine, now) = (&self.machine, self.invariant);
        let after = next.moved(now);
        add_moved(formula, next, &self.gates)?;
        add_steps(formula, next, &machine.latches)?;
        add_units(formula, &machine.constraints)?;
        formula.add_clause(&[now])?;
        formula.add_clause(&[!after])?;
        Ok(())
    }

    /// Adds that the invariant and a bad output are true.
    fn add_bad(&self, formula: &mut CnfFormula) -> Result<(), AllocError>
        ensures { OnOk result (formula.new ≡ formula.old
            ++ (units_of (machine_in self.now.machine).constraints
            ++ (self.now.invariant ∷ []) ∷ (machine_in self.now.machine).bad ∷ [])) }
    {
        add_units(formula, &self.machine.constraints)?;
        formula.add_clause(&[self.invariant])?;
        formula.add_clause(bad_outputs(&self.machine))?;
        Ok(())
    }
}

/// Returns the output of a circuit with one output.
fn output_of(invariant: &Circuit) -> Lit
    requires { length invariant.now.outputs.items ≡ 1 }
    ensures { invariant.now.outputs.items ≡ result ∷ [] }
{
    match invariant.outputs.as_slice() {
        [output] => *output,
        _ => unreachable!(),
    }
}

/// Returns gates, and others behind them.
fn joined(alloc: Global, gates: &[Gate], others: &[Gate]) -> Result<Vec<Gate>, AllocError>
    ensures { IfOk result (λ all. map gate_of all.items
        ≡ map gate_of gates.now ++ map gate_of others.now) }
{
    let mut all = Vec::new(alloc);
    all.extend_from_slice(gates)?;
    all.extend_from_slice(others)?;
    Ok(all)
}
