//! Texts that are put into the rooms of a caller.
ghost use Rattle.std.specs.Prelude.{◌≡◌, ℕ, true, false, IfOk, IfSome, List, []};
ghost use Rattle.c_library.specs.Rooms.{IsNothing, IsPlaced};

use std::alloc::Global;
use std::fmt::Display;

/// How much of a text was copied to the start of a buffer.
#[repr(C)]
#[derive(Clone, Copy)]
pub struct Placed {
    /// The bytes that were copied: those of the text, or as many as fit.
    pub len: usize,
    /// The bytes of the text.
    pub whole: usize,
}

/// Copies the beginning of a text to the start of a buffer, and returns how much was copied.
pub(crate) fn place(text: &[u8], room: &mut [u8]) -> Placed
    ensures { IsPlaced text.now room.old room.new result }
{
    let len = text.len().min(room.len());
    room[..len].copy_from_slice(&text[..len]);
    Placed {
        len,
        whole: text.len(),
    }
}

/// Returns the result of an empty text.
pub(crate) fn place_nothing(room: &mut [u8]) -> Placed
    ensures nothing { IsNothing room.old room.new result }
    ensures empty { IsPlaced [] room.old room.new result }
{
    place(b"", room)
}

/// Copies the text of a run's fault, and nothing for a verdict. Returns how much was copied.
pub(crate) fn place_text<V, F: Display>(
    alloc: Global,
    outcome: &Result<V, F>,
    room: &mut [u8],
) -> Placed
    ensures silent { IfOk outcome.now (λ verdict. IsNothing room.old room.new result) }
    ensures text { (said : List ℕ) × IsPlaced said room.old room.new result }
{
    match outcome {
        Ok(_) => place_nothing(room),
        Err(fault) => place_fault(alloc, fault, room),
    }
}

/// Copies the text of a fault, or that there was no memory for it. Returns how much was copied.
pub(crate) fn place_fault<F: Display>(alloc: Global, fault: &F, room: &mut [u8]) -> Placed
    ensures { (text : List ℕ) × IsPlaced text room.old room.new result }
{
    match format!(in alloc; "{fault}") {
        Ok(text) => place(text.as_bytes(), room),
        Err(_) => place(b"out of memory", room),
    }
}

/// Copies a text if `wanted` and there is one. Returns how much was copied.
pub(crate) fn place_wanted(wanted: bool, text: &Option<Vec<u8>>, room: &mut [u8]) -> Placed
    ensures wanted { wanted ≡ true
        → IfSome text.now (λ bytes. IsPlaced bytes.items room.old room.new result) }
    ensures unwanted { wanted ≡ false → IsNothing room.old room.new result }
{
    match text {
        Some(bytes) if wanted => place(bytes, room),
        _ => place_nothing(room),
    }
}
