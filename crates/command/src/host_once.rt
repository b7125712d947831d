//! What of the host gives its bytes once, and is opened once: standard input and pipes.
use crate::host_files::id_of;
use crate::outputs::FileId;
use std::alloc::Global;
use std::cell::{Cell, RefCell};
use std::fmt::Display;
use std::fs::Metadata;
use std::io::{Eprint, Stdin};
use std::os::fd::AsFd;
use std::os::unix::fs::FileTypeExt;
use std::rt::Clock;
use std::time::Duration;
use std::{fs, io};

/// The host of a program, as the system that it runs on. A second opening of standard input, or of
/// a pipe under whatever name, would give other bytes than the first one, and is refused.
#[derive(Drop)]
pub struct Host<'a> {
    pub(crate) rt: &'a HostRuntime,
    is_input_taken: Cell<bool>,
    /// The pipes that were opened.
    pipes: RefCell<Vec<FileId>>,
}

impl<'a> Host<'a> {
    /// Returns the host, of which nothing was opened so far. A program makes one.
    pub fn new(rt: &'a HostRuntime) -> Host<'a> {
        Host {
            rt,
            is_input_taken: Cell::new(false),
            pipes: RefCell::new(Vec::new(rt.alloc())),
        }
    }

    /// Returns the runtime, for what is printed.
    pub fn runtime(&self) -> &'a HostRuntime {
        self.rt
    }

    /// Returns standard input.
    ///
    /// # Errors
    ///
    /// `Other` if it was opened before, also by the name of a pipe; else that of a descriptor that
    /// is closed.
    pub(crate) fn open_input(&self) -> io::Result<Stdin> {
        let stdin = self.rt.stdin();
        let _open = stdin.as_fd().try_clone_to_owned()?;
        if self.is_input_taken.replace(true) {
            return Err(io::Error::other("standard input gives its bytes once"));
        }
        if let Ok(data) = fs::metadata(self.rt, "/proc/self/fd/0") {
            self.take_once(&data)?;
        }
        Ok(stdin)
    }

    /// Takes note that this file is opened, if it is a pipe.
    ///
    /// # Errors
    ///
    /// `Other` if it is a pipe that was opened before; `OutOfMemory`.
    pub(crate) fn take_once(&self, data: &Metadata) -> io::Result<()> {
        if !data.file_type().is_fifo() {
            return Ok(());
        }
        let id = id_of(data);
        let mut pipes = self.pipes.try_borrow_mut()?;
        if pipes.contains(&id) {
            return Err(io::Error::other("a pipe gives its bytes once"));
        }
        pipes.push(id)?;
        Ok(())
    }
}

impl Alloc for Host<'_> {
    type A = Global;

    fn alloc(&self) -> Global {
        self.rt.alloc()
    }
}

impl Clock for Host<'_> {
    fn monotonic(&self) -> io::Result<Duration> {
        self.rt.monotonic()
    }

    fn since_1970(&self) -> io::Result<Duration> {
        self.rt.since_1970()
    }
}

impl Eprint for Host<'_> {
    fn eprint<D: Display + Drop>(&self, value: D) -> io::Result<()> {
        self.rt.eprint(value)
    }

    fn eprintln<D: Display + Drop>(&self, value: D) -> io::Result<()> {
        self.rt.eprintln(value)
    }
}
