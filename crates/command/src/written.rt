//! Files that are written: each under another name, until it is whole.
ghost use Rattle.std.specs.Prelude.{◌≡◌, ◌∷◌, ◌++◌, [], true, ◌⊎◌, IfErr, IfOk, IfSome, IsErr, IsNone, Ok, OnErr, OnOk, Some, codes, is_some, option_map, option_to_list, string_bytes};
ghost use Rattle.std.specs.Io.Buffered.{writer_contents};
ghost use Rattle.command.specs.Outputs.{Gives, begun, place_of, written_in};
ghost use Rattle.command.specs.Written.{is_among, is_read, names_of};
ghost use Rattle.verdicts.specs.declared.status.Refusal.TheVariants.{NotRun};

use crate::files::refuse;
use crate::outputs::{FileId, OutputSystem};
use crate::refusals::{ReadFile, is_one_file, refusal_of};
use std::io;
use std::io::{BufWriter, ErrorKind};
use verdicts::Refusal;

/// What is appended, after a number, to the name of a file that is not whole.
const UNFINISHED: &str = ".new";

/// How many numbers are tried for a name that no file has.
const TRIES: u32 = 1000;

const ONE_FILE: &str = "both outputs are one file";

/// The files that a call writes.
///
/// A regular file, or one that does not exist, is written as a new file, under a name that no
/// other file has, and is renamed once all are whole. The old content stays until then. If it is
/// not renamed, the new file is removed. A pipe or a device is written in place.
pub struct WrittenFiles<'a, S: OutputSystem> {
    system: &'a S,
    /// The names of all, as the call has them.
    names: Vec<&'a str>,
    /// Those that were created under another name.
    unfinished: Vec<Unfinished<'a>>,
}

/// A file that was created under another name.
#[derive(Drop)]
struct Unfinished<'a> {
    name: String,
    /// The name that it is to get.
    own_name: String,
    /// That name, as the call has it.
    asked: &'a str,
    id: FileId,
}

impl<'a, S: OutputSystem> WrittenFiles<'a, S> {
    /// Returns an empty set of files.
    pub fn new(system: &'a S) -> WrittenFiles<'a, S>
        ensures empty { names_of result ≡ [] }
        ensures system { result.system.now ≡ system.now }
    {
        WrittenFiles {
            system,
            names: Vec::new(system.alloc()),
            unfinished: Vec::new(system.alloc()),
        }
    }

    /// Creates one more file for writing, and returns it.
    ///
    /// Returns `None` if it can't be opened, if `refusal_of` gives a reason, or if it is another
    /// one of these files. Then standard error has a line that names it, and a second one with the
    /// reason.
    pub fn create(&mut self, name: &'a str, inputs: &[ReadFile<'_>]) -> Option<S::Output>
        ensures same { is_among name.now self.old ≡ true → IsNone result }
        ensures dash { name.now ≡ codes "-" → IsNone result }
        ensures empty { name.now ≡ [] → IsNone result }
        ensures named { is_read name.now inputs.now ≡ true → IsNone result }
        ensures names { IfSome result (λ file. names_of self.new
            ≡ names_of self.old ++ name.now ∷ []) }
        ensures kept { IsNone result → (names_of self.new ≡ names_of self.old)
            ⊎ (names_of self.new ≡ names_of self.old ++ name.now ∷ []) }
        ensures system { self.new.system.now ≡ self.old.system.now }
        ensures unwritten { IfSome result (λ file.
            S.Output.contents file ≡ S.unwritten self.old.system.now) }
    {
        if self.has(name) || self.is_written(name) {
            return refuse(self.system, name, ONE_FILE);
        }
        if let Some(why) = refusal_of(self.system, name, inputs) {
            return refuse(self.system, name, why);
        }
        if self.names.push(name).is_err() {
            return refuse(self.system, name, "out of memory");
        }
        match self.system.place_of(name) {
            Ok(Some(own_name)) => self.create_new(name, own_name),
            Ok(None) => opened(self.system, name, self.system.open_in_place(name)),
            Err(fault) => refuse(self.system, name, fault),
        }
    }

    /// Creates one more file, with a buffer, if there is a name, and returns it.
    ///
    /// # Errors
    ///
    /// `NotRun` if it is not created; standard error has the reason.
    pub fn create_wanted(
        &mut self,
        name: Option<&'a str>,
        inputs: &[ReadFile<'_>],
    ) -> Result<Option<BufWriter<S::Output>>, Refusal>
        ensures err { IfErr result (λ refusal. refusal ≡ NotRun) }
        ensures same { IfSome name.entry (λ name. is_among name.now self.old ≡ true
            → IsErr result) }
        ensures dash { IfSome name.entry (λ name. name.now ≡ codes "-" → IsErr result) }
        ensures empty { IfSome name.entry (λ name. name.now ≡ [] → IsErr result) }
        ensures named { IfSome name.entry (λ name. is_read name.now inputs.now ≡ true
            → IsErr result) }
        ensures wanted { IfOk result (λ file. is_some file ≡ is_some name.entry) }
        ensures names { IfOk result (λ file. names_of self.new
            ≡ names_of self.old ++ option_to_list (option_map (λ name. name.now) name.entry)) }
        ensures kept { IsErr result → (names_of self.new ≡ names_of self.old)
            ⊎ (names_of self.new
            ≡ names_of self.old ++ option_to_list (option_map (λ name. name.now) name.entry)) }
        ensures system { self.new.system.now ≡ self.old.system.now }
        ensures unwritten { S.unwritten self.old.system.now ≡ Some [] → IfOk result (λ file.
            written_in S.Output.contents file ≡ begun (option_map (λ name. name.now) name.entry)) }
    {
        let Some(name) = name else {
            return Ok(None);
        };
        let file = self.create(name, inputs).ok_or(Refusal::NotRun)?;
        match BufWriter::new(self.system.alloc(), file) {
            Ok(writer) => Ok(Some(writer)),
            Err(fault) => {
                let _ = eprintln!(self.system; "{fault}");
                Err(Refusal::NotRun)
            }
        }
    }

    /// Creates the new file that is renamed to this name.
    fn create_new(&mut self, asked: &'a str, own_name: String) -> Option<S::Output>
        ensures names { names_of self.new ≡ names_of self.old }
        ensures system { self.new.system.now ≡ self.old.system.now }
        ensures unwritten { IfSome result (λ file.
            S.Output.contents file ≡ S.unwritten self.old.system.now) }
    {
        let (file, name) = self.fresh_file(own_name.as_str())?;
        self.add(file, name, asked, own_name)
    }

    /// Creates a file whose name ends in the first number, from the process id on, for which there
    /// is none. So no file is overwritten, also none of another run.
    fn fresh_file(&self, own_name: &str) -> Option<(S::Output, String)>
        ensures { IfSome result (λ made.
            S.Output.contents made.0 ≡ S.unwritten self.now.system.now) }
    {
        let system = self.system;
        let first = system.process_number();
        for number in first..first.saturating_add(TRIES) {
            let name = match format!(in system.alloc(); "{own_name}.{number}{UNFINISHED}") {
                Ok(name) => name,
                Err(fault) => return refuse(system, own_name, fault),
            };
            // If one of these has the name, it is for the same output, by another path.
            if self.is_written(name.as_str()) {
                return refuse(system, own_name, ONE_FILE);
            }
            match system.open_new(name.as_str()) {
                Ok(file) => return Some((file, name)),
                Err(fault) if fault.kind() == ErrorKind::AlreadyExists => {}
                Err(fault) => return refuse(system, own_name, fault),
            }
        }
        refuse(system, own_name, "no name is left for the new file")
    }

    /// Adds a file that was just created and that is still to be renamed.
    fn add(
        &mut self,
        file: S::Output,
        name: String,
        asked: &'a str,
        own_name: String,
    ) -> Option<S::Output>
        ensures names { names_of self.new ≡ names_of self.old }
        ensures system { self.new.system.now ≡ self.old.system.now }
        ensures same { IfSome result (λ added. added ≡ file) }
    {
        let system = self.system;
        let id = match system.id_of_output(&file) {
            Ok(id) => id,
            Err(fault) => return refuse(system, own_name.as_str(), fault),
        };
        if let Err(fault) = system.take_permissions(&file, own_name.as_str()) {
            system.remove(name.as_str(), id);
            return refuse(system, own_name.as_str(), fault);
        }
        let added = self.unfinished.push(Unfinished {
            name,
            own_name,
            asked,
            id,
        });
        match added {
            Ok(()) => Some(file),
            Err(failed) => {
                failed.value.take_away(system);
                refuse(system, failed.value.own_name.as_str(), "out of memory")
            }
        }
    }

    /// Returns whether one of these has this name, as the call has it.
    fn has(&self, name: &str) -> bool
        ensures { result ≡ is_among name.now self.now }
    {
        for taken in &self.names {
            if *taken == name {
                return true;
            }
        }
        false
    }

    /// Returns whether one of these will have this name, or is, or will replace, the regular file
    /// that the name leads to.
    fn is_written(&self, name: &str) -> bool {
        let there = self.system.id_of_name(name);
        self.unfinished.iter().any(|file| {
            file.own_name.as_str() == name
                || is_one_file(there, Some(file.id))
                || is_one_file(there, self.system.id_of_name(file.own_name.as_str()))
        })
    }

    /// Gives one of these files, if it is wanted, the name with which it was created. What a buffer
    /// still holds is written before. The other outputs of the call must be whole.
    ///
    /// # Errors
    ///
    /// That of the write or of the rename that failed; no name is given then.
    pub fn name_wanted(
        &self,
        names: &mut S::Names,
        name: Option<&str>,
        file: Option<BufWriter<S::Output>>,
    ) -> io::Result<()>
        ensures named { OnOk result (Gives (S.renamed names.old) (S.renamed names.new)
            (place_of (S.place self.now.system.now) (option_map (λ name. name.now) name.entry))
            (written_in S.Output.contents file)) }
        ensures kept { OnErr result (S.renamed names.new ≡ S.renamed names.old) }
    {
        match (name, file) {
            (None, _) => Ok(()),
            (Some(name), Some(file)) => self.name_buffered(names, name, file),
            (Some(_), None) => Err(io::Error::from(ErrorKind::NotFound)),
        }
    }

    /// Gives one of these files the name with which it was created.
    ///
    /// # Errors
    ///
    /// That of the rename, or `NotFound` if the name leads elsewhere by now; no name is given then.
    pub fn name_file(&self, names: &mut S::Names, name: &str, file: S::Output) -> io::Result<()>
        ensures named { OnOk result (Gives (S.renamed names.old) (S.renamed names.new)
            (S.place self.now.system.now name.now) (S.Output.contents file)) }
        ensures kept { OnErr result (S.renamed names.new ≡ S.renamed names.old) }
    {
        let own_name = self.system.place_of(name)?;
        match (self.unfinished_for(name), own_name) {
            (None, None) => Ok(()),
            (Some(new), Some(own_name)) if new.own_name == own_name => {
                self.rename(names, file, new.name.as_str(), own_name.as_str())
            }
            _ => Err(io::Error::from(ErrorKind::NotFound)),
        }
    }

    /// Gives one of these files the name with which it was created. What the buffer still holds is
    /// written before.
    ///
    /// # Errors
    ///
    /// That of the write, or as of `name_file`.
    #[tactic(auto, using(crate::proofs::Giving::gives_kept))]
    pub fn name_buffered(
        &self,
        names: &mut S::Names,
        name: &str,
        file: BufWriter<S::Output>,
    ) -> io::Result<()>
        ensures named { OnOk result (Gives (S.renamed names.old) (S.renamed names.new)
            (S.place self.now.system.now name.now) (writer_contents S.Output.contents file)) }
        ensures kept { OnErr result (S.renamed names.new ≡ S.renamed names.old) }
    {
        self.name_file(names, name, file.into_inner()?)
    }

    /// Renames a file. If that fails, a line on standard error names it.
    fn rename(
        &self,
        names: &mut S::Names,
        file: S::Output,
        name: &str,
        own_name: &str,
    ) -> io::Result<()>
        ensures named { OnOk result (Gives (S.renamed names.old) (S.renamed names.new)
            (S.place self.now.system.now own_name.now) (S.Output.contents file)) }
        ensures kept { OnErr result (S.renamed names.new ≡ S.renamed names.old) }
    {
        let renamed = self.system.rename(names, file, name, own_name);
        if renamed.is_err() {
            let _ = eprintln!(self.system; "cannot rename {name} as {own_name}");
        }
        renamed
    }

    /// Returns the file that was created under another name for this one of the call.
    fn unfinished_for(&self, name: &str) -> Option<&Unfinished<'a>> {
        self.unfinished.iter().find(|file| file.asked == name)
    }
}

impl<S: OutputSystem> Drop for WrittenFiles<'_, S> {
    fn drop(self) {
        let WrittenFiles {
            system,
            names: _,
            unfinished,
        } = self;
        for file in &unfinished {
            file.take_away(system);
        }
    }
}

impl Unfinished<'_> {
    /// Removes the file, if it still has the name that it was created with.
    fn take_away<S: OutputSystem>(&self, system: &S) {
        system.remove(self.name.as_str(), self.id);
    }
}

/// Returns the file, or prints why it can't be opened.
fn opened<S: OutputSystem>(system: &S, name: &str, file: io::Result<S::Output>) -> Option<S::Output>
    ensures { IfSome result (λ opened. file ≡ Ok opened) }
{
    match file {
        Ok(file) => Some(file),
        Err(fault) => refuse(system, name, fault),
    }
}
