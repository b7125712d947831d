//! Names that no output may have.
ghost use Rattle.std.specs.Prelude.{◌≡◌, [], true, IsSome, codes};
ghost use Rattle.command.specs.Written.{is_read};

use crate::files::{InputOf, STANDARD_INPUT, Source};
use crate::outputs::{FileId, OutputSystem};

/// The names by which the files of standard input, output and error are found.
const INPUT_FILE: &str = "/proc/self/fd/0";

const OUTPUT_FILE: &str = "/proc/self/fd/1";

const ERROR_FILE: &str = "/proc/self/fd/2";

/// A file that is read, so that no output may be the same.
#[derive(Clone, Copy)]
pub struct ReadFile<'a> {
    name: &'a str,
    id: Option<FileId>,
}

impl<'a> ReadFile<'a> {
    /// Returns the file of an input.
    pub fn of<S: OutputSystem>(system: &S, input: &InputOf<'a, S>) -> ReadFile<'a>
        ensures { result.name.now ≡ input.now.name.now }
    {
        ReadFile {
            name: input.name,
            id: id_of_input(system, input),
        }
    }
}

/// Returns why a name may not be written: it is empty, it is `-`, one of the inputs has it, or by
/// the system it is a link to nothing, or leads to the regular file of an input, of standard output
/// or of standard error.
pub(crate) fn refusal_of<S: OutputSystem>(
    system: &S,
    name: &str,
    inputs: &[ReadFile<'_>],
) -> Option<&'static str>
    ensures dash { name.now ≡ codes "-" → IsSome result }
    ensures empty { name.now ≡ [] → IsSome result }
    ensures named { is_read name.now inputs.now ≡ true → IsSome result }
{
    let there = system.id_of_name(name);
    if name == STANDARD_INPUT {
        Some("- is standard input, and no output")
    } else if name.is_empty() {
        Some("the name of an output is empty")
    } else if is_read(name, there, inputs) {
        Some("the output is a file that is read")
    } else if is_one_file(there, system.id_of_name(OUTPUT_FILE)) {
        Some("the output is the file of standard output")
    } else if is_one_file(there, system.id_of_name(ERROR_FILE)) {
        Some("the output is the file of standard error")
    } else if system.leads_nowhere(name) {
        Some("the output is a link that leads to nothing")
    } else {
        None
    }
}

/// Returns whether one of the inputs has this name, or is the regular file that it leads to.
fn is_read(name: &str, there: Option<FileId>, inputs: &[ReadFile<'_>]) -> bool
    ensures { is_read name.now inputs.now ≡ true → result ≡ true }
{
    for input in inputs {
        if input.name == name || is_one_file(there, input.id) {
            return true;
        }
    }
    false
}

/// Returns which regular file an input is.
fn id_of_input<S: OutputSystem>(system: &S, input: &InputOf<'_, S>) -> Option<FileId> {
    match &input.file {
        Source::File(file) => system.id_of_file(file),
        Source::StandardInput(_) => system.id_of_name(INPUT_FILE),
    }
}

/// Returns whether both are one file.
pub(crate) fn is_one_file(one: Option<FileId>, other: Option<FileId>) -> bool {
    one.is_some() && one == other
}
