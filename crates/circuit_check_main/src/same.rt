//! Two circuits, in files.
ghost use Rattle.std.specs.Prelude.{◌≡◌, ℕ, List, [], Ok, Some, IfErr, IfOk, IfSome, false, true};
ghost use Rattle.circuit_check.specs.Claims.{IsSameFormula};
ghost use Rattle.circuit_check.specs.declared.line.Claim.TheVariants as claims;
ghost use Rattle.circuit_check_main.specs.Asked.{pairing_of, writes_formula};
ghost use Rattle.circuit_check_main.specs.Meaning.{Answers, DifferentMeans, MeansSame, Proves, SameMeans, shown_status, shown_text};
ghost use Rattle.circuit_check_main.specs.Shown.{NamesFormula};
ghost use Rattle.command.specs.Calls.{choices_of};
ghost use Rattle.verdicts.specs.Statuses.{Ends};

use crate::about::ABOUT;
use crate::files::open;
use crate::formulas::{create_formula, name_formula};
use crate::names::read_texts;
use crate::options::{Files, ONE_FILE, files_of};
use circuit_check::{PairTexts, Pairing, ProofFormat, run_different, run_same, write_same};
use command::{Call, OutputSystem, ReadFile, Refusal, System, WrittenFiles, misused, say_cause};
use log::sink::Discard;
use std::io::Write;
use verdicts::ended;

/// The files of two circuits, and how their inputs and outputs are paired.
#[derive(Clone, Copy)]
pub(crate) struct Pair<'a> {
    pub(crate) circuit: &'a str,
    pub(crate) other: &'a str,
    pub(crate) pairing: Pairing,
}

/// Runs a call with two circuits, and returns the exit status.
///
/// # Errors
///
/// `NotRun` if the options are wrong or a file can't be opened; `Failed` if there is no verdict, or
/// what is to be written can't be. Standard error says why.
pub(crate) fn run_of_same<S: OutputSystem, W: Write>(
    system: &S,
    call: &Call<'_>,
    pair: Pair<'_>,
    given: &mut S::Names,
    out: &mut W,
) -> Result<u8, Refusal>
    requires { pair.pairing ≡ pairing_of (choices_of call.now) }
    ensures ends { Ends shown_text shown_status
        (MeansSame (S.file_bytes system.now) (S.unwritten system.now) (S.place system.now)
        (S.renamed given.old) (S.renamed given.new) (choices_of call.now)
        pair.entry.circuit.now pair.entry.other.now)
        (Unit {0}) (W.contents out.old) (W.contents out.new) result }
    ensures silent { writes_formula (choices_of call.now) ≡ true → out.new ≡ out.old }
    ensures kept { writes_formula (choices_of call.now) ≡ false
        → S.renamed given.new ≡ S.renamed given.old }
    ensures unnamed { IfErr result (λ status. S.renamed given.new ≡ S.renamed given.old) }
{
    match files_of(call) {
        Files::Proof(proof) => prove_same(system, pair, proof, out),
        Files::Answer(answer) => answer_same(system, pair, answer, out),
        Files::Formula(formula) => formula_of_same(system, pair, formula, given),
        _ => Err(misused(system, &ABOUT, ONE_FILE)),
    }
}

/// Checks a proof, and returns the exit status. An Err is as of `run_of_same`.
fn prove_same<S: System, W: Write>(
    system: &S,
    pair: Pair<'_>,
    proof: &str,
    out: &mut W,
) -> Result<u8, Refusal>
    ensures ends { Ends shown_text shown_status
        (Proves claims.Same (SameMeans pair.entry.pairing
        (S.file_bytes system.now pair.entry.circuit.now)
        (S.file_bytes system.now pair.entry.other.now)))
        (Unit {0}) (W.contents out.old) (W.contents out.new) result }
{
    let proof = open(system, proof)?;
    let (circuit, other) = read_pair(system, pair)?;
    let texts = PairTexts {
        text: circuit.as_slice(),
        other: other.as_slice(),
        pairing: pair.pairing,
    };
    let outcome = run_same(
        &Discard,
        system.alloc(),
        texts,
        proof.file,
        ProofFormat::Told,
        out,
    );
    say_cause(system, &outcome);
    ended(&outcome)
}

/// Checks an answer, and returns the exit status. An Err is as of `run_of_same`.
fn answer_same<S: System, W: Write>(
    system: &S,
    pair: Pair<'_>,
    answer: &str,
    out: &mut W,
) -> Result<u8, Refusal>
    ensures ends { Ends shown_text shown_status
        (Answers (DifferentMeans pair.entry.pairing (S.file_bytes system.now pair.entry.circuit.now)
        (S.file_bytes system.now pair.entry.other.now) (S.file_bytes system.now answer.now)))
        (Unit {0}) (W.contents out.old) (W.contents out.new) result }
{
    let answer = open(system, answer)?;
    let (circuit, other) = read_pair(system, pair)?;
    let texts = PairTexts {
        text: circuit.as_slice(),
        other: other.as_slice(),
        pairing: pair.pairing,
    };
    let outcome = run_different(system.alloc(), texts, answer.file, out);
    say_cause(system, &outcome);
    ended(&outcome)
}

/// Opens two circuits, and reads their texts as [`read_texts`] does. An Err is `NotRun`, if one
/// can't be opened, or as of [`read_texts`].
fn read_pair<S: System>(system: &S, pair: Pair<'_>) -> Result<(Vec<u8>, Vec<u8>), Refusal>
    ensures first { IfOk result (λ texts. IfSome
        (S.file_bytes system.now pair.entry.circuit.now) (λ bytes. texts.0.items ≡ bytes)) }
    ensures second { IfOk result (λ texts. IfSome
        (S.file_bytes system.now pair.entry.other.now) (λ bytes. texts.1.items ≡ bytes)) }
{
    let circuit = open(system, pair.circuit)?;
    let other = open(system, pair.other)?;
    read_texts(system, circuit, other, pair.pairing)
}

/// Writes the formula, and returns the exit status. The file has its name once it is whole, and is
/// none of the circuits. An Err is as of `run_of_same`.
fn formula_of_same<S: OutputSystem>(
    system: &S,
    pair: Pair<'_>,
    formula: &str,
    given: &mut S::Names,
) -> Result<u8, Refusal>
    ensures named { (text other_text : List ℕ)
        → S.file_bytes system.now pair.entry.circuit.now ≡ Some text
        → S.file_bytes system.now pair.entry.other.now ≡ Some other_text
        → S.unwritten system.now ≡ Some [] → result ≡ Ok 0
        → NamesFormula (IsSameFormula pair.entry.pairing text other_text)
        (S.place system.now formula.now) (S.renamed given.old) (S.renamed given.new) }
    ensures zero { IfOk result (λ status. status ≡ 0) }
    ensures unnamed { IfErr result (λ status. S.renamed given.new ≡ S.renamed given.old) }
{
    let circuit = open(system, pair.circuit)?;
    let other = open(system, pair.other)?;
    let mut files = WrittenFiles::new(system);
    let inputs = [ReadFile::of(system, &circuit), ReadFile::of(system, &other)];
    let mut out = create_formula(&mut files, formula, &inputs)?;
    let (circuit, other) = read_texts(system, circuit, other, pair.pairing)?;
    let texts = PairTexts {
        text: circuit.as_slice(),
        other: other.as_slice(),
        pairing: pair.pairing,
    };
    let written = write_same(system.alloc(), texts, &mut out);
    name_formula(system, &files, formula, &written, out, given)
}
