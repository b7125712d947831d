//! The host as a system on which files are written. No contract can state what its calls do, so
//! this file is trusted by reading.
use crate::host_once::Host;
use crate::outputs::{FileId, OutputSystem};
use std::fs::{File, Metadata};
use std::io::ErrorKind;
use std::os::unix::fs::MetadataExt;
use std::{fs, io, process};

/// The names that a program gives to files of the host.
#[derive(Drop)]
pub struct HostNames {
    seal: (),
}

impl HostNames {
    /// Returns the names, none of which was given so far.
    pub fn new(_host: &Host<'_>) -> HostNames {
        HostNames { seal: () }
    }
}

impl OutputSystem for Host<'_> {
    ghost use Rattle.std.specs.Prelude.{None};

    type Output = File;

    type Names = HostNames;

    ghost renamed = { λ _. None };

    ghost place = { λ _ _. None };

    ghost unwritten = { λ _. None };

    fn open_new(&self, name: &str) -> io::Result<File> {
        File::create_new(self.rt, name)
    }

    fn open_in_place(&self, name: &str) -> io::Result<File> {
        File::create(self.rt, name)
    }

    fn place_of(&self, name: &str) -> io::Result<Option<String>> {
        if let Ok(there) = fs::metadata(self.rt, name) {
            if !there.is_file() {
                return Ok(None);
            }
            if fs::symlink_metadata(self.rt, name)?.is_symlink() {
                return Ok(Some(fs::canonicalize(self.rt, name)?.into_string()));
            }
        }
        Ok(Some(String::from_str(self.alloc(), name)?))
    }

    fn rename(&self, _names: &mut HostNames, file: File, from: &str, to: &str) -> io::Result<()> {
        let id = self.id_of_output(&file)?;
        if !is_there(self.rt, from, id) {
            return Err(io::Error::from(ErrorKind::NotFound));
        }
        fs::rename(self.rt, from, to)
    }

    fn remove(&self, name: &str, id: FileId) {
        if is_there(self.rt, name, id) {
            let _ = fs::remove_file(self.rt, name);
        }
    }

    fn id_of_name(&self, name: &str) -> Option<FileId> {
        regular_id(fs::metadata(self.rt, name))
    }

    fn id_of_file(&self, file: &File) -> Option<FileId> {
        regular_id(file.metadata())
    }

    fn id_of_output(&self, file: &File) -> io::Result<FileId> {
        Ok(id_of(&file.metadata()?))
    }

    fn leads_nowhere(&self, name: &str) -> bool {
        match fs::symlink_metadata(self.rt, name) {
            Ok(there) => there.is_symlink() && fs::metadata(self.rt, name).is_err(),
            Err(_) => false,
        }
    }

    fn take_permissions(&self, file: &File, of: &str) -> io::Result<()> {
        match fs::metadata(self.rt, of) {
            Ok(there) => file.set_permissions(there.permissions()),
            Err(_) => Ok(()),
        }
    }

    fn process_number(&self) -> u32 {
        process::id(self.rt.process())
    }
}

pub(crate) fn regular_length(data: io::Result<Metadata>) -> Option<u64> {
    match data {
        Ok(data) if data.is_file() => Some(data.len()),
        _ => None,
    }
}

fn regular_id(data: io::Result<Metadata>) -> Option<FileId> {
    match data {
        Ok(data) if data.is_file() => Some(id_of(&data)),
        _ => None,
    }
}

pub(crate) fn id_of(data: &Metadata) -> FileId {
    FileId {
        device: data.dev(),
        number: data.ino(),
    }
}

/// Returns whether a file still has the name that it was created with.
fn is_there(rt: &HostRuntime, name: &str, id: FileId) -> bool {
    match fs::symlink_metadata(rt, name) {
        Ok(there) => id_of(&there) == id,
        Err(_) => false,
    }
}
