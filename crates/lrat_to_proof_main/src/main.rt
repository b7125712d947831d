//! The command `lrat_to_proof CNF LRAT PROOF [--ids WAY] [--width N]`: writes an LRAT proof of a
//! formula as proof bytes, which `varisat_check` takes.
//!
//! The name `-` of an input is standard input.
#![tactic(auto)]

ghost use Rattle.std.specs.Prelude.{◌≡◌, None, IfSome, codes};
ghost use Rattle.command.specs.Calls.{choices_of, value_given};
ghost use Rattle.lrat_to_proof.specs.Widths.{bits_of};
ghost use Rattle.lrat_to_proof_main.specs.Named.{EndsConversion, Names};

mod about;
mod files;

use crate::about::ABOUT;
use crate::files::{Form, convert_files};
use command::{
    Call, Host, HostNames, InputNames, OutputSystem, Refusal, ids_of, misused, run_program, unnamed,
};
use lrat_to_proof::{HashWidth, Ids};
use std::process::ExitCode;

fn main(rt: HostRuntime) -> ExitCode {
    let host = Host::new(&rt);
    run_program(
        &rt,
        &ABOUT,
        |call| run(&host, call, &mut HostNames::new(&host)),
    )
}

/// Runs a call in a system.
///
/// # Errors
///
/// `NotRun` if the words of the call are wrong or a file can't be opened; `Failed` if an input is
/// malformed or can't be read, a line can't be converted, or the bytes can't be written. Standard
/// error has the reason.
fn run<S: OutputSystem>(system: &S, call: &Call<'_>, given: &mut S::Names) -> Result<u8, Refusal>
    ensures ends { EndsConversion
        (Names (S.file_bytes system.now) (S.input_bytes system.now) (S.unwritten system.now)
        (S.place system.now) call.now (S.renamed given.old) (S.renamed given.new))
        (S.renamed given.new ≡ S.renamed given.old) result }
{
    let Some(width) = width_of(call) else {
        return Err(misused(system, &ABOUT, "--width takes a number from 1 to 64"));
    };
    let ids = ids_of(system, &ABOUT, call, Ids::Plain, Ids::Doubled)?;
    match call.operands.as_slice() {
        [cnf, lrat, proof] => {
            let (cnf, other) = (cnf.as_str(), lrat.as_str());
            let (names, form) = (InputNames { cnf, other }, Form { ids, width });
            convert_files(system, names, proof.as_str(), form, given)
        }
        operands => Err(unnamed(system, &ABOUT, operands.len())),
    }
}

/// Returns the width that `--width N` sets, or `None` if no hash can have it.
fn width_of(call: &Call<'_>) -> Option<HashWidth>
    ensures { value_given (choices_of call.now) (codes "--width") ≡ None
        → IfSome result (λ width. bits_of width ≡ 64) }
{
    match call.value("--width") {
        None => Some(HashWidth::full()),
        Some(bits) => HashWidth::from_bits(bits.parse::<u32>().ok()?),
    }
}
