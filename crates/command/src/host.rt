//! The host as a system that is read. No contract states what its calls do: trusted by reading.
use crate::cost::kilobytes;
use crate::host_files::regular_length;
use crate::host_once::Host;
use crate::system::System;
use std::io::{IsTerminal, Stdin};
use std::{fs, io};

impl System for Host<'_> {
    ghost use Rattle.std.specs.Prelude.{None};

    type File = fs::File;

    type Input = Stdin;

    ghost file_bytes = { λ _ _. None };

    ghost input_bytes = { λ _. None };

    fn open_file(&self, name: &str) -> io::Result<fs::File> {
        let file = fs::File::open(self.rt, name)?;
        self.take_once(&file.metadata()?)?;
        Ok(file)
    }

    fn standard_input(&self) -> io::Result<Stdin> {
        self.open_input()
    }

    fn file_length(&self, file: &fs::File) -> Option<u64> {
        regular_length(file.metadata())
    }

    fn input_length(&self) -> Option<u64> {
        regular_length(fs::metadata(self.rt, "/proc/self/fd/0"))
    }

    fn free_kilobytes(&self) -> Option<u64> {
        kilobytes(self.rt, "/proc/meminfo", "MemAvailable:")
    }

    fn peak_kilobytes(&self) -> Option<u64> {
        kilobytes(self.rt, "/proc/self/status", "VmHWM:")
    }

    fn asked_log(&self) -> log::filter::Filter {
        progress::asked_for(self.rt)
    }

    fn has_terminal(&self) -> bool {
        self.rt.stderr().is_terminal()
    }

    fn open_again(&self, name: &str) -> Option<fs::File> {
        if name == "-" || !fs::metadata(self.rt, name).ok()?.is_file() {
            return None;
        }
        fs::File::open(self.rt, name).ok()
    }
}
