//! Files that a program writes on a system, and the names that they get.
ghost use Rattle.std.specs.Prelude.{◌≡◌, IfOk, IfSome, IsNone, OnErr, OnOk, string_bytes};
ghost use Rattle.command.specs.Outputs.{Gives};

use crate::system::System;
use std::io;
use std::io::Write;

/// Which file one is, under whatever name.
#[derive(Clone, Copy, Debug, PartialEq, Eq)]
pub struct FileId {
    pub device: u64,
    pub number: u64,
}

/// A system on which a program writes files. One that has only `System` writes none.
///
/// A file is written under a new name, and renamed once it is whole. A name leads to a place, over
/// links: the file that is renamed to one name of a place has all names of it.
pub trait OutputSystem: System {
    ghost use Rattle.std.specs.Prelude.{◌≡◌, ℕ, List, Option, IfOk, IfSome, IsNone, OnErr, OnOk, string_bytes};
    ghost use Rattle.command.specs.Outputs.{Gives};

    /// A file that is open for writing.
    type Output: Write + Drop;

    /// The places to which files were renamed. Who has none can rename no file.
    type Names;

    /// These places in their order, each with the bytes of its file, if that is known. Each other
    /// place has the file that it had.
    ghost renamed: { Self.Names → Option (List (List ℕ × List ℕ)) };

    /// The place to which a name leads, unless nothing is known of it, or what is written there
    /// is written in place, as to a pipe.
    ghost place: { Self → List ℕ → Option (List ℕ) };

    /// What was written to a file that was just opened, if that is known.
    ghost unwritten: { Self → Option (List ℕ) };

    /// Creates a file of a name that no file has.
    fn open_new(&self, name: &str) -> io::Result<Self::Output>
        ensures { IfOk result (λ file. Self.Output.contents file ≡ unwritten self.now) };

    /// Opens what has this name, to be written in place: a pipe or a device, never a file that
    /// could be replaced.
    fn open_in_place(&self, name: &str) -> io::Result<Self::Output>
        requires { IsNone (place self.now name.now) }
        ensures { IfOk result (λ file. Self.Output.contents file ≡ unwritten self.now) };

    /// Returns the place of a name, as another name that leads there, or `None` if what has the
    /// name is written in place.
    fn place_of(&self, name: &str) -> io::Result<Option<String>>
        ensures same { IfOk result (λ other. IfSome other (λ other.
            place self.now (string_bytes other) ≡ place self.now name.now)) }
        ensures none { IfOk result (λ other. IsNone other → IsNone (place self.now name.now)) };

    /// Renames the file that was written here, and that has the name `from`, as `to`.
    fn rename(
        &self,
        names: &mut Self::Names,
        file: Self::Output,
        from: &str,
        to: &str,
    ) -> io::Result<()>
        ensures named { OnOk result (Gives (renamed names.old) (renamed names.new)
            (place self.now to.now) (Self.Output.contents file)) }
        ensures kept { OnErr result (renamed names.new ≡ renamed names.old) };

    /// Removes a file, if this one still has the name.
    fn remove(&self, name: &str, id: FileId);

    /// Returns which regular file a name leads to.
    fn id_of_name(&self, name: &str) -> Option<FileId>;

    /// Returns which regular file is read.
    fn id_of_file(&self, file: &Self::File) -> Option<FileId>;

    /// Returns which file is written.
    fn id_of_output(&self, file: &Self::Output) -> io::Result<FileId>;

    /// Returns whether a name is that of a link to nothing.
    fn leads_nowhere(&self, name: &str) -> bool;

    /// Gives a file the permissions of the one that a name leads to, if there is one.
    fn take_permissions(&self, file: &Self::Output, of: &str) -> io::Result<()>;

    /// Returns the number of this process.
    fn process_number(&self) -> u32;
}
