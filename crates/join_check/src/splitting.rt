//! The lines of what the parts of a formula have in addition to its clauses.
ghost use Rattle.std.specs.Prelude.{◌≡◌, map, OnOk};
ghost use Rattle.sat_output.specs.FormulaTexts.{clauses_text};
ghost use Rattle.refutation_rules.specs.Cubes.{clause_against, units_of};
ghost use Rattle.join_check.specs.Hashed.{Takes};

use crate::line_hasher::LineHasher;
use sat_formula::{CnfFormula, Lit};
use std::alloc::{AllocError, Global};

/// Gives a hasher the lines of a unit clause for each literal of a cube.
pub(crate) fn push_units(lines: &mut LineHasher, cube: &[Lit]) -> Result<(), AllocError>
    ensures { OnOk result (Takes lines.old lines.new (clauses_text (units_of cube.now))) }
{
    for lit in cube {
        lines.push(&[*lit])?;
    }
    Ok(())
}

/// Gives a hasher, for each cube, the line of the clause of the negations of its literals.
pub(crate) fn push_against(
    alloc: Global,
    lines: &mut LineHasher,
    cubes: &CnfFormula,
) -> Result<(), AllocError>
    ensures { OnOk result
        (Takes lines.old lines.new (clauses_text (map clause_against cubes.now))) }
{
    let mut clause = Vec::new(alloc);
    for cube in cubes {
        negate_into(&mut clause, cube)?;
        lines.push(&clause)?;
    }
    Ok(())
}

/// Puts the negations of a cube's literals in place of what a clause held.
fn negate_into(clause: &mut Vec<Lit>, cube: &[Lit]) -> Result<(), AllocError>
    ensures { OnOk result (clause.new.items ≡ clause_against cube.now) }
{
    clause.clear();
    for lit in cube {
        clause.push(!*lit)?;
    }
    Ok(())
}
