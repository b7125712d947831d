//! Formulas read whole from DIMACS text.
ghost use Rattle.std.specs.Prelude.{List, ℕ, IfOk, IfErr};
ghost use Rattle.std.specs.Option.{option_map};
ghost use Rattle.sat_formula.specs.Lines.{outcome_of};
ghost use Rattle.sat_formula.specs.Outcome.{Ended};
ghost use Rattle.sat_formula.specs.Whole.{IsOutcome, FailsAfter};
ghost use Rattle.sat_formula.specs.Lies.{TellsLie};

use crate::clauses::read_into;
use crate::cnf::CnfFormula;
use crate::counts::LyingHeader;
use crate::fault::DimacsFault;
use crate::lit::Lit;
use crate::sink::ClauseSink;
use std::alloc::{AllocError, Global};
use std::io::Read;

/// A formula takes each clause after all others.
impl ClauseSink for CnfFormula {
    ghost use Rattle.std.specs.Prelude.{◌≡◌, ◌++◌};

    type Fault = AllocError;

    ghost has_taken = { λ first clauses lines now. now ≡ first ++ clauses };

    ghost has_refused = { λ first clauses fault now. Unit {0} };

    fn take(&mut self, clause: &[Lit], number: u64, line: u64) -> Result<(), AllocError> {
        self.add_clause(clause)
    }
}

/// Reads a whole formula as DIMACS text. `lie` gets the mismatch of its header, if there is one.
///
/// # Errors
///
/// The first fault of the text, a failed read or out of memory. The clauses before it are dropped,
/// and `lie` is `None`.
pub fn read_formula<F: Read + Drop>(
    alloc: Global,
    cnf: F,
    lie: &mut Option<LyingHeader>,
) -> Result<CnfFormula, DimacsFault>
    ensures whole { IfOk result (λ formula.
        IsOutcome (option_map outcome_of (F.remaining cnf)) (formula, Ended)) }
    ensures fault { IfErr result (λ fault. (clauses : List (List ℕ))
        × FailsAfter (option_map outcome_of (F.remaining cnf)) clauses fault) }
    ensures lie { TellsLie (F.remaining cnf) result lie.new }
{
    *lie = None;
    let mut formula = CnfFormula::new(alloc);
    let summary = read_into(alloc, cnf, &mut formula)?;
    *lie = summary.lie;
    Ok(formula)
}
