//! Runs of a solver's answer: circuits are read, the input that it lists is simulated, and the
//! verdict is written.
ghost use Rattle.std.specs.Prelude.{◌≡◌, ℕ, List, IfOk, Ok, Some};
ghost use Rattle.circuit_check.specs.Answered.{BeginsDifferent, BeginsPossible, IsDifferentRun, IsPossibleRun, OfDifferent, OfPossible, WritesDifferent, WritesPossible};
ghost use Rattle.circuit_check.specs.Claims.{AreDifferentText, IsPossibleText};
ghost use Rattle.circuit_check.specs.Runs.{IsSilent, IsUnwritten};
ghost use Rattle.verdicts.specs.declared.verdict.Verdict.TheVariants.{Verified};

use crate::fault::CircuitFault;
use crate::formulas::{read_gates, read_paired};
use crate::pair::PairTexts;
use answer_text::read_answer;
use circuit_answers::{judge_different, judge_possible};
use std::alloc::Global;
use std::io::{Read, Write};
use verdicts::Verdict;
use whole_writes::write_whole;

/// Reads a circuit, and a solver's answer to its formula, and writes the verdict: whether the input
/// that the answer lists makes an output true. If it does, a line of the input's values follows,
/// and one of the outputs.
///
/// The circuit is simulated; the formula is not made. An input is true if its positive literal is
/// listed. Returns whether the answer shows it.
///
/// # Errors
///
/// `Unread` if the circuit can't be read, `Sequential` if it has more than gates, `Answer` if the
/// answer can't be read or is not that the formula is satisfiable, `NoFormula` if the circuit has
/// too many inputs or memory runs out. Nothing is written then. `Write` if the lines could not be
/// written whole: a beginning of them is.
pub fn run_possible<A: Read + Drop, P: Read + Drop, W: Write>(
    alloc: Global,
    text: A,
    answer: P,
    out: &mut W,
) -> Result<Verdict, CircuitFault>
    ensures run { IsPossibleRun (A.remaining text) (P.remaining answer) result }
    ensures line { IfOk result (λ verdict. OfPossible (A.remaining text) (P.remaining answer)
        (λ c lits. WritesPossible lits c verdict (W.contents out.old) (W.contents out.new))) }
    ensures silent { IsSilent result → out.new ≡ out.old }
    ensures unwritten { IsUnwritten result → OfPossible (A.remaining text) (P.remaining answer)
        (λ c lits. BeginsPossible lits c (W.contents out.old) (W.contents out.new)) }
    ensures possible { (said : List ℕ) → A.remaining text ≡ Some said
        → result ≡ Ok Verified → IsPossibleText said }
{
    let circuit = match read_gates(alloc, text) {
        Ok(circuit) => circuit,
        Err(fault) => return Err(fault),
    };
    let literals = match read_answer(alloc, answer) {
        Ok(literals) => literals,
        Err(fault) => return Err(CircuitFault::Answer(fault)),
    };
    let judged = match judge_possible(alloc, &circuit, &literals) {
        Ok(judged) => judged,
        Err(fault) => return Err(CircuitFault::NoFormula(fault)),
    };
    match write_whole(out, &judged.text) {
        Ok(()) => Ok(judged.verdict),
        Err(fault) => Err(CircuitFault::Write(fault)),
    }
}

/// Reads two circuits, and a solver's answer to their formula, and writes the verdict: whether they
/// have different outputs for the input that the answer lists. If they have, a line of the input's
/// values follows, and one of the outputs of each circuit.
///
/// The circuits are simulated, as in `run_possible`. Returns whether the answer shows it.
///
/// # Errors
///
/// As `run_possible`; also `OtherUnread` if the second circuit can't be read, `Unpaired` if the
/// names can't be paired, and `NoFormula` if they have not as many inputs or outputs.
pub fn run_different<P: Read + Drop, W: Write>(
    alloc: Global,
    pair: PairTexts<'_>,
    answer: P,
    out: &mut W,
) -> Result<Verdict, CircuitFault>
    ensures run { IsDifferentRun pair.entry.pairing pair.entry.text.now pair.entry.other.now
        (P.remaining answer) result }
    ensures line { IfOk result (λ verdict. OfDifferent pair.entry.pairing pair.entry.text.now
        pair.entry.other.now (P.remaining answer) (λ c d lits. WritesDifferent lits c d verdict
        (W.contents out.old) (W.contents out.new))) }
    ensures silent { IsSilent result → out.new ≡ out.old }
    ensures unwritten { IsUnwritten result → OfDifferent pair.entry.pairing pair.entry.text.now
        pair.entry.other.now (P.remaining answer) (λ c d lits. BeginsDifferent lits c d
        (W.contents out.old) (W.contents out.new)) }
    ensures different { result ≡ Ok Verified
        → AreDifferentText pair.entry.pairing pair.entry.text.now pair.entry.other.now }
{
    let (first, second) = match read_paired(alloc, pair) {
        Ok(circuits) => circuits,
        Err(fault) => return Err(fault),
    };
    let literals = match read_answer(alloc, answer) {
        Ok(literals) => literals,
        Err(fault) => return Err(CircuitFault::Answer(fault)),
    };
    let compared = match judge_different(alloc, &first, &second, &literals) {
        Ok(compared) => compared,
        Err(fault) => return Err(CircuitFault::NoFormula(fault)),
    };
    match write_whole(out, &compared.text) {
        Ok(()) => Ok(compared.verdict),
        Err(fault) => Err(CircuitFault::Write(fault)),
    }
}
