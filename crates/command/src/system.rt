//! The system that a program runs on: files by their names, and standard input.
ghost use Rattle.std.specs.Prelude.{◌≡◌, IfOk, IsNone, codes};

use log::filter::Filter;
use std::io;
use std::io::{Eprint, Read};
use std::rt::Clock;

/// What a program asks of the system that it runs on. Nothing of it writes to standard output.
///
/// If it is known which bytes a file has, as in a model of a file system, the contract of a program
/// says what its exit status means for these bytes. Nothing is known of the host's.
pub trait System: Eprint + Clock + AllocGlobal {
    ghost use Rattle.std.specs.Prelude.{◌≡◌, ℕ, List, Option, IfOk, IsNone, codes};

    /// A file that is open for reading.
    type File: Read + Drop;

    /// Standard input.
    type Input: Read + Drop;

    /// The bytes of the file of a name, if they are known.
    ghost file_bytes: { Self → List ℕ → Option (List ℕ) };

    /// The bytes of standard input, if they are known.
    ghost input_bytes: { Self → Option (List ℕ) };

    /// Opens the file of a name for reading.
    fn open_file(&self, name: &str) -> io::Result<Self::File>
        ensures { IfOk result (λ file. Self.File.remaining file ≡ file_bytes self.now name.now) };

    /// Returns standard input, or an Err if it is closed.
    fn standard_input(&self) -> io::Result<Self::Input>
        ensures { IfOk result (λ input. Self.Input.remaining input ≡ input_bytes self.now) };

    /// Returns the length of a file in bytes, if it is a regular one.
    fn file_length(&self, file: &Self::File) -> Option<u64>;

    /// Returns the same of standard input.
    fn input_length(&self) -> Option<u64>;

    /// Returns how many kilobytes of memory are free, if the system reports it.
    fn free_kilobytes(&self) -> Option<u64>;

    /// Returns how many kilobytes of memory the process had at most, if the system reports it.
    fn peak_kilobytes(&self) -> Option<u64>;

    /// Returns what the environment asks to be logged.
    fn asked_log(&self) -> Filter;

    /// Returns whether standard error is a terminal.
    fn has_terminal(&self) -> bool;

    /// Opens a regular file once more that was read, if it can be opened. The name `-` stands for
    /// standard input, whose bytes come only once.
    fn open_again(&self, name: &str) -> Option<Self::File>
        ensures { name.now ≡ codes "-" → IsNone result };
}
