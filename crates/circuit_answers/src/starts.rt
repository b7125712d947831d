//! The first values of latches, and their places.
ghost use Rattle.std.specs.Prelude.{◌≡◌, map, false, slice_index_or};
ghost use Rattle.circuit_text.specs.Circuits.{latch_of};
ghost use Rattle.circuit_answers.specs.Reached.{are_placed, is_reset, other_start};

use circuit_text::Latch;

/// Returns whether the latches have the variables from this one on, in their order.
pub(crate) fn are_placed(first: usize, latches: &[Latch]) -> bool
    ensures { result ≡ are_placed first (map latch_of latches.now) }
{
    let mut next = first;
    for latch in latches {
        if latch.output.index() != next {
            return false;
        }
        next = latch.output.index() + 1;
    }
    true
}

/// Returns the first latch whose value is not its reset.
pub(crate) fn other_start(latches: &[Latch], values: &[bool]) -> Option<usize>
    ensures { result ≡ other_start 0 (map latch_of latches.now) values.now }
{
    let mut index = 0;
    for latch in latches {
        if !is_reset(latch.reset, value_at(values, index)) {
            return Some(index);
        }
        index += 1;
    }
    None
}

/// Returns whether a latch with this reset may have this first value.
fn is_reset(reset: Option<bool>, value: bool) -> bool
    ensures { result ≡ is_reset reset value }
{
    match reset {
        None => true,
        Some(true) => value,
        Some(false) => !value,
    }
}

/// Returns a value of a list; a value behind the last one is false.
pub(crate) fn value_at(values: &[bool], index: usize) -> bool
    ensures { result ≡ slice_index_or values.now index false }
{
    index < values.len() && values[index]
}
