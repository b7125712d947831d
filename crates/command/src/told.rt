//! Progress reports of a program.
ghost use Rattle.std.specs.Prelude.{◌≡◌};
ghost use Rattle.command.specs.Inputs.{input_bytes_left, source_bytes_left};
ghost use Rattle.progress.specs.Bytes.{unread_of};

use crate::about::{About, Entry};
use crate::call::Call;
use crate::files::{Input, Source};
use crate::system::System;
use progress::{Manner, Progress, ToldBytes};
use std::io::Read;

/// The option that turns progress reports off.
pub const QUIET: Entry<'static> = Entry {
    name: "--quiet",
    text: "no progress output, not even on a terminal",
};

/// The option that prints progress in lines, wherever standard error goes.
pub const VERBOSE: Entry<'static> = Entry {
    name: "--verbose",
    text: "print progress to standard error twice a second",
};

/// The environment variable for the level of the log.
pub const RUST_LOG: Entry<'static> = Entry {
    name: "RUST_LOG",
    text: "level of the log on standard error, as info (default: no log)",
};

/// Returns the progress of a run that begins now, as `--quiet` and `--verbose` ask.
pub fn progress_of<'a, S: System>(
    system: &'a S,
    about: &About<'static>,
    call: &Call<'_>,
) -> Progress<&'a S> {
    let (is_quiet, is_verbose) = (call.has("--quiet"), call.has("--verbose"));
    let manner = Manner::asked(is_quiet, is_verbose, system.has_terminal());
    Progress::new(system, about.program(), system.asked_log(), manner)
}

impl<F: Read, I: Read> Input<'_, F, I> {
    /// Returns its bytes, each read of which reports how many were read, and of how many.
    pub fn told<'a, 'b, S: System<File = F, Input = I>>(
        self,
        system: &S,
        progress: &'a Progress<&'b S>,
    ) -> ToldBytes<'a, Source<F, I>, &'b S>
        ensures { unread_of (source_bytes_left F.remaining I.remaining) result
            ≡ input_bytes_left F.remaining I.remaining self.entry }
    {
        let length = self.length(system);
        ToldBytes::new(progress, self.file, length)
    }
}
