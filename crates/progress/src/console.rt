//! The log that the environment asks for.
use crate::told::Progress;
use log::filter::{Builder, Filter};
use log::kv::Source;
use log::sink::Console;
use log::span::Spans;
use log::{Log, Metadata, Record};
use std::env::{Env, FillError};
use std::fmt::Display;
use std::io::Eprint;
use std::rt::Clock;

/// The variable of the environment that says what is logged.
const SETTING: &str = "RUST_LOG";

/// A log to standard error of what the variable `RUST_LOG` of the environment asks for, as the
/// progress of the run has read it. A line of progress that was to be written anew is taken back
/// before.
#[derive(Clone, Copy)]
pub struct AskedLog<'a, R> {
    pub(crate) progress: &'a Progress<R>,
}

impl<R: Eprint + Clock> Log for AskedLog<'_, R> {
    fn enabled(&self, metadata: &Metadata<'_>) -> bool {
        self.progress.filter.enabled(metadata)
    }

    fn log<D: Display, K: Source, S: Spans>(&self, record: &Record<'_, D, K, S>) {
        if self.progress.filter.matches(record) {
            self.progress.flush();
            Console(&self.progress.rt).log(record);
        }
    }

    fn flush(&self) {}

    fn target(&self) -> &str {
        ""
    }
}

/// Returns what `RUST_LOG` asks for: without it nothing, and nothing is allocated then. If there is
/// no memory to read what it is, it asks for nothing.
pub fn asked_for(rt: &HostRuntime) -> Filter {
    if let Err(FillError::NotPresent) = rt.var(SETTING, &mut [0]) {
        return Builder::new(rt.alloc()).build();
    }
    match Builder::from_env(rt, SETTING) {
        Ok(builder) => builder.build(),
        Err(_) => Builder::new(rt.alloc()).build(),
    }
}
