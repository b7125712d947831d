//! Files that are written, and the names that they get.
ghost use Rattle.std.specs.Prelude.{◌≡◌, [], OnOk, OnErr};
ghost use Rattle.test_files.specs.Listed.{named_in};

use crate::listed::{ListedFiles, Target};
use command::{FileId, OutputSystem};
use std::alloc::Global;
use std::io;
use std::io::{ErrorKind, Write};

/// The device of the files that are made.
const MADE: u64 = 2;

/// The number of the process.
const PROCESS: u32 = 7;

/// A file that is open for writing, with all that was written to it.
#[derive(Drop)]
pub struct ListedOutput {
    id: FileId,
    bytes: Vec<u8>,
}

impl Write for ListedOutput {
    ghost use Rattle.std.specs.Prelude.{Some};

    ghost contents = { λ file. Some file.bytes.items };

    fn write(&mut self, buf: &[u8]) -> io::Result<usize> {
        self.bytes.write(buf)
    }

    fn flush(&mut self) -> io::Result<()> {
        Ok(())
    }
}

/// A file that was made, under the name that it has so far.
#[derive(Drop)]
pub(crate) struct Unnamed {
    name: String,
    id: FileId,
}

impl Unnamed {
    fn is(&self, name: &str, id: FileId) -> bool {
        self.name.as_str() == name && self.id == id
    }
}

/// A file that was renamed, by the place where it is.
#[derive(Drop)]
pub struct NamedFile {
    pub place: String,
    pub bytes: Vec<u8>,
}

/// The files that were renamed, in their order.
#[derive(Drop)]
pub struct ListedNames {
    files: Vec<NamedFile>,
}

impl ListedNames {
    /// Returns none.
    pub fn new(alloc: Global) -> ListedNames
        ensures { named_in result ≡ [] }
    {
        ListedNames {
            files: Vec::new(alloc),
        }
    }

    /// Returns the files.
    pub fn files(&self) -> &[NamedFile] {
        self.files.as_slice()
    }
}

impl ListedFiles<'_> {
    /// Returns which file was made under this name.
    fn made_id(&self, name: &str) -> Option<FileId> {
        let unnamed = self.unnamed.try_borrow().ok()?;
        for file in unnamed.iter() {
            if file.name.as_str() == name {
                return Some(file.id);
            }
        }
        None
    }

    /// Returns a file without bytes, which is none of those before.
    fn new_output(&self) -> ListedOutput
        ensures { result.bytes.items ≡ [] }
    {
        let number = self.made.get();
        self.made.set(number.saturating_add(1));
        ListedOutput {
            id: FileId {
                device: MADE,
                number,
            },
            bytes: Vec::new(self.alloc()),
        }
    }

    /// Forgets a file that was made, if it has this name.
    fn forget(&self, name: &str, id: FileId) {
        if let Ok(mut unnamed) = self.unnamed.try_borrow_mut() {
            unnamed.retain(|file| !file.is(name, id));
        }
    }
}

impl OutputSystem for ListedFiles<'_> {
    ghost use Rattle.std.specs.Prelude.{Some, []};
    ghost use Rattle.test_files.specs.Listed.{named_in, place_in};

    type Output = ListedOutput;

    type Names = ListedNames;

    ghost renamed = { λ names. Some (named_in names) };

    ghost place = { λ system name. place_in system.targets.now name };

    ghost unwritten = { λ _. Some [] };

    fn open_new(&self, name: &str) -> io::Result<ListedOutput> {
        if self.found(name).is_some() || self.made_id(name).is_some() {
            return Err(io::Error::from(ErrorKind::AlreadyExists));
        }
        let file = self.new_output();
        let name = String::from_str(self.alloc(), name)?;
        self.unnamed
            .try_borrow_mut()?
            .push(Unnamed { name, id: file.id })?;
        Ok(file)
    }

    fn open_in_place(&self, name: &str) -> io::Result<ListedOutput> {
        match self.found(name) {
            Some(Target::Pipe) => Ok(self.new_output()),
            _ => Err(io::Error::from(ErrorKind::NotFound)),
        }
    }

    fn place_of(&self, name: &str) -> io::Result<Option<String>> {
        let Some(place) = self.place(name)? else {
            return Ok(None);
        };
        match self.place(place.as_str())? {
            Some(again) if again == place => Ok(Some(place)),
            _ => Err(io::Error::from(ErrorKind::NotFound)),
        }
    }

    fn rename(
        &self,
        names: &mut ListedNames,
        file: ListedOutput,
        from: &str,
        to: &str,
    ) -> io::Result<()> {
        let Some(place) = self.place(to)? else {
            return Err(io::Error::from(ErrorKind::NotFound));
        };
        if self.made_id(from) != Some(file.id) {
            return Err(io::Error::from(ErrorKind::NotFound));
        }
        let ListedOutput { id, bytes } = file;
        names.files.push(NamedFile { place, bytes })?;
        self.forget(from, id);
        Ok(())
    }

    fn remove(&self, name: &str, id: FileId) {
        self.forget(name, id);
    }

    fn id_of_name(&self, name: &str) -> Option<FileId> {
        match self.made_id(name) {
            Some(id) => Some(id),
            None => self.id(name),
        }
    }

    fn id_of_file(&self, file: &Self::File) -> Option<FileId> {
        file.id
    }

    fn id_of_output(&self, file: &ListedOutput) -> io::Result<FileId> {
        Ok(file.id)
    }

    fn leads_nowhere(&self, name: &str) -> bool {
        match self.found(name) {
            Some(Target::Link(_)) => self.bytes(name).is_none(),
            _ => false,
        }
    }

    fn take_permissions(&self, _file: &ListedOutput, _of: &str) -> io::Result<()> {
        Ok(())
    }

    fn process_number(&self) -> u32 {
        PROCESS
    }
}
