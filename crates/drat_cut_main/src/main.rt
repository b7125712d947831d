//! The command `drat_cut CNF PROOF PREFIX [--drat] [--lemmas N] [--live N]`: cuts a DRAT or DPR
//! proof into pieces while it is read.
//!
//! Of piece N the file `PREFIXN.cnf` has the clauses that live before it, and `PREFIXN.drat` its
//! steps; those that live behind it are in the file of the next piece. A file has its name once it
//! is whole, and then a line on standard output says so. What `RUST_LOG` asks for, as
//! `RUST_LOG=info`, is logged to standard error.
#![tactic(auto)]

mod about;
mod cutting;
mod fault;
mod files;
mod formula;
mod piece;

use crate::about::ABOUT;
use crate::cutting::cut;
use crate::fault::CutFailure;
use crate::files::PieceFiles;
use crate::piece::Limits;
use command::{
    Call, Host, InputNames, Refusal, misused, open_inputs, progress_of, run_program, say_fault,
    unnamed,
};
use drat_cut::Additions;
use std::process::ExitCode;

fn main(rt: HostRuntime) -> ExitCode {
    let host = Host::new(&rt);
    run_program(&rt, &ABOUT, |call| run(&host, call))
}

fn run(host: &Host<'_>, call: &Call<'_>) -> Result<u8, Refusal> {
    let Some(limits) = Limits::of_call(call) else {
        return Err(misused(host, &ABOUT, "--lemmas and --live take a number from 1 on"));
    };
    match call.operands.as_slice() {
        [cnf, proof, prefix] => {
            let (cnf, other) = (cnf.as_str(), proof.as_str());
            cut_files(
                host,
                InputNames { cnf, other },
                prefix.as_str(),
                limits,
                call,
            )
        }
        operands => Err(unnamed(host, &ABOUT, operands.len())),
    }
}

/// Cuts the proof of these files. Returns the exit status.
fn cut_files(
    host: &Host<'_>,
    names: InputNames<'_>,
    prefix: &str,
    limits: Limits,
    call: &Call<'_>,
) -> Result<u8, Refusal> {
    let (cnf, proof) = open_inputs(host, names.cnf, names.other).ok_or(Refusal::NotRun)?;
    let additions = if call.has("--drat") {
        Additions::Drat
    } else {
        Additions::Dpr
    };
    let files = PieceFiles::new(host, prefix, names.cnf, names.other);
    let told = &progress_of(host, &ABOUT, call);
    let proof = proof.told(host, told);
    match cut(
        told,
        host.alloc(),
        cnf.file,
        proof,
        additions,
        limits,
        &files,
    ) {
        Ok(true) => Ok(0),
        Ok(false) => Ok(3),
        Err(CutFailure::Unopened) => Err(Refusal::NotRun),
        Err(fault) => {
            say_fault(host, names, &fault, fault.place());
            Err(Refusal::Failed)
        }
    }
}
