//! What is reported, and when, by a clock that is set.
use log::filter::{Builder, Filter};
use log::{Log, debug, info};
use progress::{Manner, Progress, ToldBytes};
use std::alloc::Global;
use std::cell::{Cell, RefCell};
use std::fmt::Display;
use std::io;
use std::io::{Eprint, Read};
use std::rt::Clock;
use std::test::Fail;
use std::time::Duration;

/// A clock that is set, and what was written to standard error.
#[derive(Drop)]
struct Desk {
    millis: Cell<u64>,
    said: RefCell<String>,
}

impl Desk {
    fn new(alloc: Global) -> Desk {
        Desk {
            millis: Cell::new(0),
            said: RefCell::new(String::new(alloc)),
        }
    }

    fn has_said(&self, text: &str) -> bool {
        match self.said.try_borrow() {
            Ok(said) => said.as_str() == text,
            Err(_) => false,
        }
    }
}

impl Clock for Desk {
    fn monotonic(&self) -> io::Result<Duration> {
        Ok(Duration::from_millis(self.millis.get()))
    }

    fn since_1970(&self) -> io::Result<Duration> {
        self.monotonic()
    }
}

impl Eprint for Desk {
    fn eprint<D: Display + Drop>(&self, value: D) -> io::Result<()> {
        let Ok(mut said) = self.said.try_borrow_mut() else {
            return Ok(());
        };
        match write!(said, "{value}") {
            Ok(()) => Ok(()),
            Err(_) => Err(io::Error::from(io::ErrorKind::OutOfMemory)),
        }
    }

    fn eprintln<D: Display + Drop>(&self, value: D) -> io::Result<()> {
        self.eprint(value)?;
        self.eprint("\n")
    }
}

/// How a run reports, what the environment asks for, at which milliseconds a record comes, and what
/// is written of those, which are numbered from 0.
type Row = (Manner, &'static str, &'static [u64], &'static str);

static TOLD: [Row; 8] = [
    (Manner::Silent, "", &[0, 500, 5000], ""),
    (Manner::Lines, "", &[0, 499], ""),
    (Manner::Lines, "", &[0, 499, 500, 999, 1000], "2\n4\n"),
    (Manner::Lines, "", &[7000, 7400, 7500, 400], "0\n2\n"),
    (
        Manner::OneLine,
        "",
        &[500, 1000],
        "\r\x1b[K0\r\x1b[K1\r\x1b[K",
    ),
    (Manner::OneLine, "", &[499], ""),
    (Manner::Silent, "run=info", &[0, 500], "[INFO  run] 1\n"),
    (Manner::Silent, "another=info", &[0, 500], ""),
];

/// What is logged where the environment asks for this.
fn filter(alloc: Global, asked: &str) -> Result<Filter, Fail> {
    Ok(Builder::new(alloc).parse(asked)?.build())
}

/// Logs a record at each of these milliseconds, and lets none stand in the line.
fn tell(desk: &Desk, progress: &Progress<&Desk>, times: &[u64]) {
    for (number, millis) in times.iter().enumerate() {
        desk.millis.set(*millis);
        info!(*progress; "{number}");
    }
    progress.flush();
    progress.flush();
}

fn tells(alloc: Global, desk: &Desk, (manner, asked, times, said): Row) -> Result<bool, Fail> {
    let progress = Progress::new(desk, "run", filter(alloc, asked)?, manner);
    tell(desk, &progress, times);
    Ok(desk.has_said(said))
}

#[test]
fn it_is_told_twice_a_second(rt: HostRuntime) -> Result<(), Fail> {
    for row in &TOLD {
        let desk = Desk::new(rt.alloc());
        assert!(rt; tells(rt.alloc(), &desk, *row)?, "{}", row.3);
    }
    Ok(())
}

/// What is asked for is logged whenever it comes, and a line that stands is taken back before.
#[test]
fn all_that_is_asked_for_is_logged(rt: HostRuntime) -> Result<(), Fail> {
    let desk = Desk::new(rt.alloc());
    let filter = filter(rt.alloc(), "command_tests=info")?;
    let progress = Progress::new(&desk, "run", filter, Manner::OneLine);
    log_both(&desk, &progress);
    let said = "[INFO  command_tests::reports] begun\n\r\x1b[Ktold\r\x1b[K\
        [INFO  command_tests::reports] logged\n";
    assert!(rt; desk.has_said(said));
    Ok(())
}

fn log_both(desk: &Desk, progress: &Progress<&Desk>) {
    let log = progress.asked_log();
    info!(log; "begun");
    desk.millis.set(500);
    info!(*progress; "told");
    info!(log; "logged");
    debug!(log; "unasked");
}

/// How a run reports, and what is written as a proof of 10,000 bytes is read.
static READ: [(Manner, &str); 2] = [
    (Manner::Silent, ""),
    (
        Manner::OneLine,
        "\r\x1b[Kproof: 0.0 of 0.0 MB read, 40 %\r\x1b[K",
    ),
];

/// Whether the reader gives these bytes, some to a first read and then the rest.
fn gives(alloc: Global, reader: &mut impl Read, proof: &[u8]) -> Result<bool, Fail> {
    let mut front = [0; 8192];
    let count = reader.read(&mut front)?;
    let mut text = Vec::from_slice(alloc, &front[..count])?;
    reader.read_to_end(&mut text)?;
    Ok(text.as_slice() == proof)
}

fn gives_on(alloc: Global, desk: &Desk, proof: &[u8], manner: Manner) -> Result<bool, Fail> {
    let progress = Progress::new(desk, "run", Builder::new(alloc).build(), manner);
    desk.millis.set(500);
    let mut reader = ToldBytes::new(&progress, proof, Some(10_000));
    gives(alloc, &mut reader, proof)
}

/// With a listener and without one the bytes are those of the reader within, and the line is taken
/// back with the reader.
#[test]
fn bytes_are_given_on(rt: HostRuntime) -> Result<(), Fail> {
    let proof = Vec::from_elem(rt.alloc(), b'x', 10_000)?;
    for (manner, said) in &READ {
        let desk = Desk::new(rt.alloc());
        assert!(rt; gives_on(rt.alloc(), &desk, &proof, *manner)?);
        assert!(rt; desk.has_said(said), "{said}");
    }
    Ok(())
}
