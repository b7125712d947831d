//! What a program does around its one library call: the command line, files, messages, statuses.
#![tactic(auto)]

mod about;
mod begin;
mod call;
mod cost;
mod example;
mod files;
mod guilty;
mod held;
mod host;
mod host_files;
mod host_once;
mod kind;
mod operands;
mod outputs;
mod places;
mod refusals;
mod status;
mod streams;
mod system;
mod told;
mod written;

pub use about::{About, CNF, Entry};
pub use begin::run_program;
pub use call::{Call, Misuse, Setting, read_words};
pub use cost::{Cost, JSON, STATS, StatsForm};
pub use example::{EXAMPLE, EXAMPLE_FORMULA, EXAMPLE_LRAT};
pub use files::{Input, InputOf, Source, open_file, open_inputs, warn_of_header};
pub use guilty::FaultLine;
pub use held::HeldBytes;
pub use host_files::HostNames;
pub use host_once::Host;
pub use kind::{Kind, kind_of};
pub use operands::{IDS, ids_of, input_names, misused, unnamed};
pub use outputs::{FileId, OutputSystem};
pub use places::{
    FaultPlace, InputNames, hold_file, open_and_hold, say_cause, say_end, say_fault, say_missing,
};
pub use refusals::ReadFile;
pub use system::System;
pub use told::{QUIET, RUST_LOG, VERBOSE, progress_of};
pub use verdicts::Refusal;
pub use written::WrittenFiles;
