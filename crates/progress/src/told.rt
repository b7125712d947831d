//! Progress of a run, reported at intervals.
use crate::console::AskedLog;
use crate::manner::Manner;
use log::filter::Filter;
use log::kv::Source;
use log::sink::Console;
use log::span::Spans;
use log::{Level, Log, Metadata, Record};
use std::cell::Cell;
use std::fmt::Display;
use std::io::Eprint;
use std::rt::Clock;
use std::time::Duration;

/// At least this many milliseconds are between two reports.
const INTERVAL: u64 = 500;

/// What takes back all that is in the line of a terminal.
const LINE_TAKEN_BACK: &str = "\r\x1b[K";

/// A log of the progress of a run. It writes at most two records a second to standard error, and
/// drops the others.
///
/// It writes as its manner says, or, if the environment variable `RUST_LOG` asks for it, as lines
/// of a log.
#[derive(Drop)]
pub struct Progress<R> {
    pub(crate) rt: R,
    /// The target of the records, by which `RUST_LOG` names them.
    program: &'static str,
    /// What `RUST_LOG` asks for.
    pub(crate) filter: Filter,
    manner: Manner,
    /// When progress was reported last, or the run began.
    told: Cell<Duration>,
    /// Something is in the one line.
    is_shown: Cell<bool>,
}

impl<R: Eprint + Clock> Progress<R> {
    /// Returns the progress of a run that begins now.
    pub fn new(rt: R, program: &'static str, filter: Filter, manner: Manner) -> Progress<R> {
        let began = rt.monotonic().unwrap_or(Duration::ZERO);
        Progress {
            rt,
            program,
            filter,
            manner,
            told: Cell::new(began),
            is_shown: Cell::new(false),
        }
    }

    /// Returns a log of all that the variable `RUST_LOG` asks for, without intervals.
    pub fn asked_log(&self) -> AskedLog<'_, R> {
        AskedLog { progress: self }
    }

    /// Returns whether anything is reported at all.
    pub fn is_heard(&self) -> bool {
        self.is_heard_of(&Metadata::new(Level::Info, self.program))
    }

    /// Returns whether a record with this metadata is reported.
    fn is_heard_of(&self, metadata: &Metadata<'_>) -> bool {
        self.manner != Manner::Silent || self.filter.enabled(metadata)
    }

    /// Returns whether a report is due. With a clock that can't be read none is.
    fn is_due(&self) -> bool {
        match self.rt.monotonic() {
            Ok(now) => now.saturating_sub(self.told.get()) >= Duration::from_millis(INTERVAL),
            Err(_) => false,
        }
    }

    /// Prints a report, by the manner.
    fn tell<D: Display + Drop>(&self, text: D) {
        let _ = match self.manner {
            Manner::Silent => Ok(()),
            Manner::Lines => eprintln!(self.rt; "{text}"),
            Manner::OneLine => {
                self.is_shown.set(true);
                eprint!(self.rt; "{LINE_TAKEN_BACK}{text}")
            }
        };
    }
}

impl<R: Eprint + Clock> Log for Progress<R> {
    fn enabled(&self, metadata: &Metadata<'_>) -> bool {
        self.is_heard_of(metadata) && self.is_due()
    }

    fn log<D: Display, K: Source, S: Spans>(&self, record: &Record<'_, D, K, S>) {
        if let Ok(now) = self.rt.monotonic() {
            self.told.set(now);
        }
        if self.filter.matches(record) {
            Console(&self.rt).log(record);
        } else {
            self.tell(record.args());
        }
    }

    /// Takes back what is in the one line, so that others can write there.
    fn flush(&self) {
        if self.is_shown.get() {
            self.is_shown.set(false);
            let _ = eprint!(self.rt; "{LINE_TAKEN_BACK}");
        }
    }

    fn target(&self) -> &str {
        self.program
    }
}
