//! Writers that take bytes in parts, fail, are interrupted, or hold bytes back.
use std::alloc::Global;
use std::io;
use std::io::{BufWriter, ErrorKind, Write};
use std::process::Abort;
use whole_writes::{append_whole, write_whole};

/// Takes up to this many bytes a write, every other time after it was interrupted, and none past
/// its end. Its flush succeeds or fails, and is counted.
#[derive(Drop)]
struct Disk {
    bytes: Vec<u8>,
    room: usize,
    most: usize,
    interrupted: bool,
    flush_fails: bool,
    flushes: usize,
}

impl Disk {
    fn new(alloc: Global, room: usize, most: usize, flush_fails: bool) -> Disk {
        Disk {
            bytes: Vec::new(alloc),
            room,
            most,
            interrupted: false,
            flush_fails,
            flushes: 0,
        }
    }
}

impl Write for Disk {
    fn write(&mut self, buf: &[u8]) -> io::Result<usize> {
        self.interrupted = !self.interrupted;
        if self.interrupted {
            return Err(io::Error::from(ErrorKind::Interrupted));
        }
        let left = self.room.saturating_sub(self.bytes.len());
        let count = buf.len().min(self.most).min(left);
        if count == 0 && self.most > 0 {
            return Err(io::Error::from(ErrorKind::StorageFull));
        }
        self.bytes.extend_from_slice(&buf[..count])?;
        Ok(count)
    }

    fn flush(&mut self) -> io::Result<()> {
        self.flushes = self.flushes.saturating_add(1);
        if self.flush_fails {
            return Err(io::Error::from(ErrorKind::BrokenPipe));
        }
        Ok(())
    }
}

/// The kind of an answer's error.
fn kind_of(answer: io::Result<()>) -> Option<ErrorKind> {
    match answer {
        Ok(()) => None,
        Err(fault) => Some(fault.kind()),
    }
}

#[derive(Clone, Copy)]
enum Call {
    Append,
    Write,
}

/// Calls with their faults, and what was written and flushed in the end.
type Row = (
    &'static [(Call, &'static [u8], Option<ErrorKind>)],
    &'static [u8],
    usize,
);

const JOINED: [Row; 2] = [
    (&[(Call::Append, b"one two ", None)], b"one two ", 0),
    (
        &[
            (Call::Append, b"one two ", None),
            (Call::Write, b"three", None),
            (Call::Write, b"", None),
        ],
        b"one two three",
        2,
    ),
];

const LINE: &[u8] = b"s VERIFIED UNSAT\n";

const FULL: &[(Call, &[u8], Option<ErrorKind>)] = &[(
    Call::Write,
    LINE,
    Some(ErrorKind::StorageFull),
)];

/// Of a writer that takes nothing.
const UNTAKEN: Row = (
    &[
        (Call::Write, b"x", Some(ErrorKind::WriteZero)),
        (Call::Write, b"", None),
    ],
    b"",
    1,
);

const UNFLUSHED: Row = (
    &[(Call::Write, b"line", Some(ErrorKind::BrokenPipe))],
    b"line",
    1,
);

fn call_disk(disk: &mut Disk, call: Call, bytes: &[u8]) -> Option<ErrorKind> {
    match call {
        Call::Append => kind_of(append_whole(disk, bytes)),
        Call::Write => kind_of(write_whole(disk, bytes)),
    }
}

fn holds(rt: &impl Abort, mut disk: Disk, (calls, bytes, flushes): Row) {
    for (call, bytes, fault) in calls {
        assert_eq!(rt; call_disk(&mut disk, *call, bytes), *fault, "{bytes:?}");
    }
    let room = disk.room;
    let most = disk.most;
    assert_eq!(rt;
        (disk.bytes.as_slice(), disk.flushes),
        (bytes, flushes),
        "{room} bytes, {most} a write"
    );
}

#[test]
fn writes(rt: HostRuntime) {
    for most in [1, 2, 3, 7, 8, 100] {
        for row in JOINED {
            holds(&rt, Disk::new(rt.alloc(), 1000, most, false), row);
        }
    }
    for room in 0..LINE.len() {
        let disk = Disk::new(rt.alloc(), room, 5, false);
        holds(&rt, disk, (FULL, &LINE[..room], 0));
    }
    holds(&rt, Disk::new(rt.alloc(), 1000, 0, false), UNTAKEN);
    holds(&rt, Disk::new(rt.alloc(), 1000, 2, true), UNFLUSHED);
}

#[test]
fn buffers_are_emptied(rt: HostRuntime) {
    let buffered = BufWriter::new(rt.alloc(), Vec::new(rt.alloc()));
    let mut out = buffered.expect(&rt, "a buffer");
    empties_its_buffer(&rt, &mut out);
}

fn empties_its_buffer(rt: &impl Abort, out: &mut BufWriter<Vec<u8>>) {
    assert_eq!(rt; kind_of(append_whole(out, b"held")), None);
    assert_eq!(rt; out.get_ref().len(), 0);
    assert_eq!(rt; kind_of(write_whole(out, b" back")), None);
    assert_eq!(rt; out.get_ref().as_slice(), b"held back".as_slice());
}
