//! The files of the pieces. Each has its name once it is whole.
use crate::fault::CutFailure;
use command::{Host, HostNames, Input, ReadFile, Source, System, WrittenFiles};
use drat_cut::Cutter;
use log::Log;
use std::alloc::AllocError;
use std::fs::File;
use std::io;
use std::io::BufWriter;

/// Where the pieces go.
#[derive(Drop)]
pub struct PieceFiles<'a> {
    pub host: &'a Host<'a>,
    prefix: &'a str,
    cnf: Input<'a>,
    proof: Input<'a>,
}

impl<'a> PieceFiles<'a> {
    /// No file yet. None of them is one of these that are read.
    pub fn new(
        host: &'a Host<'a>,
        prefix: &'a str,
        cnf_name: &'a str,
        proof_name: &'a str,
    ) -> PieceFiles<'a> {
        PieceFiles {
            host,
            prefix,
            cnf: as_known(host, cnf_name),
            proof: as_known(host, proof_name),
        }
    }

    /// The name of a file of a piece; `ending` says which one it is.
    pub fn name(&self, piece: u64, ending: &str) -> Result<String, AllocError> {
        let prefix = self.prefix;
        format!(in self.host.alloc(); "{prefix}{piece}.{ending}")
    }

    /// Makes a file for a piece.
    pub fn create<'b>(
        &self,
        files: &mut WrittenFiles<'b, Host<'b>>,
        name: &'b str,
    ) -> Result<BufWriter<File>, CutFailure> {
        let (cnf, proof) = (
            ReadFile::of(self.host, &self.cnf),
            ReadFile::of(self.host, &self.proof),
        );
        match files.create(name, &[cnf, proof]) {
            Some(file) => Ok(BufWriter::new(self.host.alloc(), file)?),
            None => Err(CutFailure::Unopened),
        }
    }

    /// Writes the clauses that live before a piece.
    pub fn write_live(&self, piece: u64, cutter: &Cutter) -> Result<(), CutFailure> {
        let name = self.name(piece, "cnf")?;
        let mut files = WrittenFiles::new(self.host);
        let mut out = self.create(&mut files, name.as_str())?;
        cutter.write_live(&mut out)?;
        self.finish(name.as_str(), out, &files)
    }

    /// What was written is whole, and its file gets its name.
    pub fn finish(
        &self,
        name: &str,
        out: BufWriter<File>,
        files: &WrittenFiles<'_, Host<'_>>,
    ) -> Result<(), CutFailure> {
        files.name_buffered(&mut HostNames::new(self.host), name, out)?;
        Ok(())
    }

    /// Says that a piece is whole. What is told of the run is taken back before.
    pub fn say<L: Log>(&self, told: &L, piece: u64, lemmas: u64, live: usize) -> io::Result<()> {
        told.flush();
        println!(self.host.runtime();
            "piece {piece}: {lemmas} lemmas, {live} clauses live behind it"
        )
    }
}

/// A file that is read, as it is known by its name alone: its reader is elsewhere. Where its bytes
/// come only once it is no regular file, and nothing can be written over it.
fn as_known<'a>(host: &Host<'_>, name: &'a str) -> Input<'a> {
    let file = match host.open_again(name) {
        Some(file) => Source::File(file),
        None => Source::StandardInput(host.runtime().stdin()),
    };
    Input { name, file }
}
