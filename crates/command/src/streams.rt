//! Standard output and standard error of a program that is started without them.
ghost use Rattle.std.specs.Prelude.{◌≡◌, ◌⊎◌, IfSome, pos};
ghost use Rattle.std.specs.Fd.{file_raw_fd};

use std::fs::File;
use std::os::fd::AsRawFd;

/// The root folder: it always exists, and can't be written by its name or by its descriptor.
const FOLDER: &str = "/";

/// Opens the descriptors 1 and 2 if they are closed, and returns what holds them. Otherwise the
/// next file that is opened would get one, and the messages of standard error. A write still fails.
///
/// Descriptor 0 stays closed if it was, so that the name `-` is rejected.
pub(crate) fn take_closed(rt: &HostRuntime) -> [Option<File>; 3] {
    // Each gets the lowest free descriptor, so after three none below 3 is left.
    let (first, second, third) = (open_folder(rt), open_folder(rt), open_folder(rt));
    [output(first), output(second), output(third)]
}

/// Returns the root folder, opened.
fn open_folder(rt: &HostRuntime) -> Option<File> {
    File::open(rt, FOLDER).ok()
}

/// Returns the file, if it has the descriptor of standard output or standard error.
fn output(file: Option<File>) -> Option<File>
    ensures { IfSome result (λ file. (file_raw_fd file ≡ pos 1) ⊎ (file_raw_fd file ≡ pos 2)) }
{
    let file = file?;
    match file.as_raw_fd() {
        1 | 2 => Some(file),
        _ => None,
    }
}
