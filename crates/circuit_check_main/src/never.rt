//! One circuit, in a file.
ghost use Rattle.std.specs.Prelude.{◌≡◌, ℕ, List, [], Ok, Some, IfErr, IfOk, false, true};
ghost use Rattle.circuit_check.specs.Claims.{IsNeverFormula};
ghost use Rattle.circuit_check.specs.declared.line.Claim.TheVariants as claims;
ghost use Rattle.circuit_check_main.specs.Asked.{writes_formula};
ghost use Rattle.circuit_check_main.specs.Meaning.{Answers, MeansNever, NeverMeans, PossibleMeans, Proves, shown_status, shown_text};
ghost use Rattle.circuit_check_main.specs.Shown.{NamesFormula};
ghost use Rattle.command.specs.Calls.{choices_of};
ghost use Rattle.verdicts.specs.Statuses.{Ends};

use crate::about::ABOUT;
use crate::files::open;
use crate::formulas::{create_formula, name_formula};
use crate::options::{Files, ONE_FILE, files_of};
use circuit_check::{ProofFormat, run_never, run_possible, write_never};
use command::{Call, OutputSystem, ReadFile, Refusal, System, WrittenFiles, misused, say_cause};
use log::sink::Discard;
use std::io::Write;
use verdicts::ended;

/// Runs a call with one circuit, and returns the exit status.
///
/// # Errors
///
/// `NotRun` if the options are wrong or a file can't be opened; `Failed` if there is no verdict, or
/// what is to be written can't be. Standard error says why.
pub(crate) fn run_of_never<S: OutputSystem, W: Write>(
    system: &S,
    call: &Call<'_>,
    circuit: &str,
    given: &mut S::Names,
    out: &mut W,
) -> Result<u8, Refusal>
    ensures ends { Ends shown_text shown_status
        (MeansNever (S.file_bytes system.now) (S.unwritten system.now) (S.place system.now)
        (S.renamed given.old) (S.renamed given.new) (choices_of call.now) circuit.now)
        (Unit {0}) (W.contents out.old) (W.contents out.new) result }
    ensures silent { writes_formula (choices_of call.now) ≡ true → out.new ≡ out.old }
    ensures kept { writes_formula (choices_of call.now) ≡ false
        → S.renamed given.new ≡ S.renamed given.old }
    ensures unnamed { IfErr result (λ status. S.renamed given.new ≡ S.renamed given.old) }
{
    match files_of(call) {
        Files::Proof(proof) => prove_never(system, circuit, proof, out),
        Files::Answer(answer) => answer_never(system, circuit, answer, out),
        Files::Formula(formula) => formula_of_never(system, circuit, formula, given),
        _ => Err(misused(system, &ABOUT, ONE_FILE)),
    }
}

/// Checks a proof, and returns the exit status. An Err is as of `run_of_never`.
fn prove_never<S: System, W: Write>(
    system: &S,
    circuit: &str,
    proof: &str,
    out: &mut W,
) -> Result<u8, Refusal>
    ensures ends { Ends shown_text shown_status
        (Proves claims.Never (NeverMeans (S.file_bytes system.now circuit.now)))
        (Unit {0}) (W.contents out.old) (W.contents out.new) result }
{
    let proof = open(system, proof)?;
    let circuit = open(system, circuit)?;
    let outcome = run_never(
        &Discard,
        system.alloc(),
        circuit.file,
        proof.file,
        ProofFormat::Told,
        out,
    );
    say_cause(system, &outcome);
    ended(&outcome)
}

/// Checks an answer, and returns the exit status. An Err is as of `run_of_never`.
fn answer_never<S: System, W: Write>(
    system: &S,
    circuit: &str,
    answer: &str,
    out: &mut W,
) -> Result<u8, Refusal>
    ensures ends { Ends shown_text shown_status
        (Answers (PossibleMeans (S.file_bytes system.now circuit.now) (S.file_bytes system.now answer.now)))
        (Unit {0}) (W.contents out.old) (W.contents out.new) result }
{
    let answer = open(system, answer)?;
    let circuit = open(system, circuit)?;
    let outcome = run_possible(system.alloc(), circuit.file, answer.file, out);
    say_cause(system, &outcome);
    ended(&outcome)
}

/// Writes the formula, and returns the exit status. The file has its name once it is whole, and is
/// not the circuit. An Err is as of `run_of_never`.
fn formula_of_never<S: OutputSystem>(
    system: &S,
    circuit: &str,
    formula: &str,
    given: &mut S::Names,
) -> Result<u8, Refusal>
    ensures named { (text : List ℕ) → S.file_bytes system.now circuit.now ≡ Some text
        → S.unwritten system.now ≡ Some [] → result ≡ Ok 0
        → NamesFormula (IsNeverFormula (Some text)) (S.place system.now formula.now)
        (S.renamed given.old) (S.renamed given.new) }
    ensures zero { IfOk result (λ status. status ≡ 0) }
    ensures unnamed { IfErr result (λ status. S.renamed given.new ≡ S.renamed given.old) }
{
    let circuit = open(system, circuit)?;
    let mut files = WrittenFiles::new(system);
    let mut out = create_formula(&mut files, formula, &[ReadFile::of(system, &circuit)])?;
    let written = write_never(system.alloc(), circuit.file, &mut out);
    name_formula(system, &files, formula, &written, out, given)
}
