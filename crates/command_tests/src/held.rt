//! Bytes that are read whole, up to a bound.
use crate::pieces::Pieces;
use command::HeldBytes;
use std::alloc::Global;
use std::io::{ErrorKind, Read};
use std::process::Abort;

/// Bytes, at most how many may come, and whether they are held.
const ROWS: [(&[u8], u64, bool); 8] = [
    (b"", 0, true),
    (b"", 1, true),
    (b"a", 0, false),
    (b"a", 1, true),
    (b"1 2 0\n", 5, false),
    (b"1 2 0\n", 6, true),
    (b"1 2 0\n", 7, true),
    (b"1 2 0\n", u64::MAX, true),
];

/// Reads the bytes again that were held. None: they were too many.
fn held(rt: &impl Abort, alloc: Global, from: Pieces<'_>, most: u64) -> Option<Vec<u8>> {
    let mut again = Vec::new(alloc);
    match HeldBytes::of_reader(alloc, from, 0, most) {
        Ok(mut held) => {
            held.read_to_end(&mut again).expect(rt, "all bytes");
            Some(again)
        }
        Err(fault) => {
            assert_eq!(rt; fault.kind(), ErrorKind::FileTooLarge);
            None
        }
    }
}

fn are_held(rt: &impl Abort, alloc: Global, size: usize, rows: &[(&[u8], u64, bool)]) {
    for (bytes, most, fits) in rows {
        let again = held(rt, alloc, Pieces::of_size(bytes, size), *most);
        assert_eq!(rt; again.is_some(), *fits, "{bytes:?}, at most {most}");
        if let Some(again) = again {
            assert_eq!(rt; again.as_slice(), *bytes);
        }
    }
}

#[test]
fn held_up_to_a_bound(rt: HostRuntime) {
    for size in [1, 2, 100] {
        are_held(&rt, rt.alloc(), size, &ROWS);
    }
}
