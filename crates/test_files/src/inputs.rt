//! Listed files that are read.
ghost use Rattle.std.specs.Prelude.{◌≡◌, Some, IfOk, IsNone, codes};
ghost use Rattle.std.specs.Io.{ReadsAtMost};
ghost use Rattle.std.specs.Io.KnownBytes.{ReadConsumes};

use crate::listed::ListedFiles;
use command::{FileId, System};
use log::filter::{Builder, Filter};
use std::io;
use std::io::{ErrorKind, Read};

/// A listed file that is open for reading.
#[derive(Drop)]
pub struct ListedFile<'a> {
    pub(crate) id: Option<FileId>,
    rest: &'a [u8],
}

impl Read for ListedFile<'_> {
    ghost use Rattle.std.specs.Prelude.{Some};

    ghost remaining = { λ file. Some file.rest.now };

    fn read(&mut self, buf: &mut [u8]) -> io::Result<usize> {
        self.rest.read(buf)
    }
}

impl<'a> System for ListedFiles<'a> {
    ghost use Rattle.std.specs.Prelude.{option_map};
    ghost use Rattle.test_files.specs.Listed.{bytes_in};

    type File = ListedFile<'a>;

    type Input = &'a [u8];

    ghost file_bytes = { λ system name. bytes_in system.targets.now name };

    ghost input_bytes = { λ system. option_map (λ bytes. bytes.now) system.input };

    fn open_file(&self, name: &str) -> io::Result<ListedFile<'a>> {
        match self.bytes(name) {
            Some(rest) => Ok(ListedFile {
                id: self.id(name),
                rest,
            }),
            None => Err(io::Error::from(ErrorKind::NotFound)),
        }
    }

    fn standard_input(&self) -> io::Result<&'a [u8]> {
        match self.input {
            Some(bytes) => Ok(bytes),
            None => Err(io::Error::from(ErrorKind::NotConnected)),
        }
    }

    fn file_length(&self, file: &ListedFile<'a>) -> Option<u64> {
        Some(file.rest.len() as u64)
    }

    fn input_length(&self) -> Option<u64> {
        None
    }

    fn free_kilobytes(&self) -> Option<u64> {
        None
    }

    fn peak_kilobytes(&self) -> Option<u64> {
        None
    }

    fn asked_log(&self) -> Filter {
        Builder::new(self.alloc()).build()
    }

    fn has_terminal(&self) -> bool {
        false
    }

    fn open_again(&self, name: &str) -> Option<ListedFile<'a>> {
        if name == "-" {
            return None;
        }
        self.open_file(name).ok()
    }
}
