//! Files in memory, by their names.
ghost use Rattle.std.specs.Prelude.{◌≡◌, IfOk, option_and_then, option_map, string_bytes};
ghost use Rattle.test_files.specs.Listed.{bytes_in, bytes_of, found_in, place_in};

use crate::outputs::Unnamed;
use command::FileId;
use std::alloc::Global;
use std::cell::{Cell, RefCell};
use std::fmt::Display;
use std::io;
use std::io::Eprint;
use std::rt::Clock;
use std::time::Duration;

/// The device of the listed files.
const LISTED: u64 = 1;

/// What a name leads to.
#[derive(Clone, Copy)]
pub enum Target<'a> {
    /// A regular file of these bytes.
    File(&'a [u8]),
    /// A link to another name, which is to be none of a link.
    Link(&'a str),
    /// A pipe that takes what is written to it. Nothing is read of it.
    Pipe,
}

/// A system of the files in a list. No other names exist, except of files that it made.
#[derive(Drop)]
pub struct ListedFiles<'a> {
    alloc: Global,
    /// Each name, and what it leads to.
    pub(crate) targets: &'a [(&'a str, Target<'a>)],
    /// The bytes of standard input, unless it is closed.
    pub(crate) input: Option<&'a [u8]>,
    /// The files that were made and have no name that a call asked for.
    pub(crate) unnamed: RefCell<Vec<Unnamed>>,
    /// How many files were made.
    pub(crate) made: Cell<u64>,
    /// What was written to standard error.
    said: RefCell<String>,
}

impl<'a> ListedFiles<'a> {
    /// Returns a system of these files, with this standard input, or with none.
    pub fn new(
        alloc: Global,
        targets: &'a [(&'a str, Target<'a>)],
        input: Option<&'a [u8]>,
    ) -> ListedFiles<'a>
        ensures targets { result.targets.now ≡ targets.now }
        ensures input { option_map (λ bytes. bytes.now) result.input
            ≡ option_map (λ bytes. bytes.now) input.entry }
    {
        ListedFiles {
            alloc,
            targets,
            input,
            unnamed: RefCell::new(Vec::new(alloc)),
            made: Cell::new(0),
            said: RefCell::new(String::new(alloc)),
        }
    }

    /// Returns whether this is all that was written to standard error.
    pub fn has_said(&self, text: &str) -> bool {
        match self.said.try_borrow() {
            Ok(said) => said.as_str() == text,
            Err(_) => false,
        }
    }

    /// Returns how many files were made that have neither got their names nor were removed.
    pub fn count_unnamed(&self) -> usize {
        match self.unnamed.try_borrow() {
            Ok(unnamed) => unnamed.len(),
            Err(_) => 0,
        }
    }

    /// Returns what a name of the list leads to.
    pub(crate) fn found(&self, name: &str) -> Option<Target<'a>>
        ensures { result ≡ found_in self.now.targets.now name.now }
    {
        for (listed, target) in self.targets {
            if *listed == name {
                return Some(*target);
            }
        }
        None
    }

    /// Returns the place of a file of this name: where a link leads, none for a pipe, and else the
    /// name.
    pub(crate) fn place(&self, name: &str) -> io::Result<Option<String>>
        ensures { IfOk result (λ place. option_map string_bytes place
            ≡ place_in self.now.targets.now name.now) }
    {
        match self.found(name) {
            None | Some(Target::File(_)) => Ok(Some(String::from_str(self.alloc, name)?)),
            Some(Target::Link(to)) => Ok(Some(String::from_str(self.alloc, to)?)),
            Some(Target::Pipe) => Ok(None),
        }
    }

    /// Returns the bytes of the file to which a name leads.
    pub(crate) fn bytes(&self, name: &str) -> Option<&'a [u8]>
        ensures { option_map (λ bytes. bytes.now) result
            ≡ bytes_in self.now.targets.now name.now }
    {
        match self.found(name)? {
            Target::File(bytes) => Some(bytes),
            Target::Link(to) => self.bytes_at(to),
            Target::Pipe => None,
        }
    }

    /// Returns the bytes of the file of this very name.
    fn bytes_at(&self, name: &str) -> Option<&'a [u8]>
        ensures { option_map (λ bytes. bytes.now) result
            ≡ option_and_then bytes_of (found_in self.now.targets.now name.now) }
    {
        match self.found(name)? {
            Target::File(bytes) => Some(bytes),
            Target::Link(_) | Target::Pipe => None,
        }
    }

    /// Returns to which listed file a name leads.
    pub(crate) fn id(&self, name: &str) -> Option<FileId> {
        match self.found(name) {
            Some(Target::Link(to)) => self.listed_id(to),
            _ => self.listed_id(name),
        }
    }

    /// Returns which listed file has this name.
    fn listed_id(&self, name: &str) -> Option<FileId> {
        for (number, (listed, target)) in self.targets.iter().enumerate() {
            if *listed == name && matches!(target, Target::File(_)) {
                return Some(FileId {
                    device: LISTED,
                    number: number as u64,
                });
            }
        }
        None
    }
}

impl Alloc for ListedFiles<'_> {
    type A = Global;

    fn alloc(&self) -> Global {
        self.alloc
    }
}

/// A clock that stands still.
impl Clock for ListedFiles<'_> {
    fn monotonic(&self) -> io::Result<Duration> {
        Ok(Duration::from_millis(0))
    }

    fn since_1970(&self) -> io::Result<Duration> {
        self.monotonic()
    }
}

impl Eprint for ListedFiles<'_> {
    fn eprint<D: Display + Drop>(&self, value: D) -> io::Result<()> {
        let mut said = self.said.try_borrow_mut()?;
        write!(said, "{value}")?;
        Ok(())
    }

    fn eprintln<D: Display + Drop>(&self, value: D) -> io::Result<()> {
        self.eprint(value)?;
        self.eprint("\n")
    }
}
