//! Models of all clauses but one, for one clause after the other.
ghost use Rattle.std.specs.Prelude.{◌≡◌, ◌≢◌, None, true, IfOk};
ghost use Rattle.sat_rules.specs.Clauses.{all_true};
ghost use Rattle.follows_check.specs.Minimal.{EachIsNeeded, truth_in, without};

use crate::minimal::MinimalVerdict;
use crate::values::Values;
use sat_formula::{CnfFormula, DimacsFault, DimacsReader};
use std::alloc::Global;
use std::io::Read;

/// Reads a model for each clause in turn, and checks that it satisfies all other clauses. Returns
/// the verdict, by the first model that does not, if there is one.
///
/// # Errors
///
/// The fault of a model that can't be read, or `OutOfMemory`.
pub(crate) fn check_models<M: Read + Drop>(
    alloc: Global,
    formula: &CnfFormula,
    models: M,
) -> Result<MinimalVerdict, DimacsFault>
    ensures { IfOk result (λ verdict.
        (verdict ≡ MinimalVerdict.Minimal → EachIsNeeded formula.now) × (verdict ≢ MinimalVerdict.Open)) }
{
    let mut reader = DimacsReader::new(alloc, models);
    let mut model = Vec::new(alloc);
    let mut values = match Values::new(alloc, formula) {
        Ok(values) => values,
        Err(_) => return Err(DimacsFault::OutOfMemory),
    };
    for index in 0..formula.len() {
        let clause = index as u64 + 1;
        if !reader.next_clause(&mut model)? {
            return Ok(MinimalVerdict::NoModel { clause });
        }
        if values.assign(&model).is_err() {
            return Err(DimacsFault::OutOfMemory);
        }
        match unmet_beside(formula, index, &values) {
            Some(unmet) => {
                return Ok(MinimalVerdict::Unmet {
                    model: clause,
                    clause: unmet,
                });
            }
            None => {}
        }
    }
    Ok(MinimalVerdict::Minimal)
}

/// Returns the number of the first clause that the values do not satisfy, of all but the one at
/// this index. Numbers count from 1.
fn unmet_beside(formula: &CnfFormula, place: usize, values: &Values) -> Option<u64>
    ensures { result ≡ None → all_true (truth_in values.now) (without place formula.now) ≡ true }
{
    let mut clauses = formula.iter();
    for index in 0..formula.len() {
        let clause = clauses.next()?;
        if index != place && !values.meet(clause) {
            return Some(index as u64 + 1);
        }
    }
    None
}
