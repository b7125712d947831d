//! How vectors grow.
ghost use Rattle.std.specs.Prelude.{◌≡◌, ◌+◌, ◌≤◌, vec_capacity, vec_len, OnOk};

use std::alloc::AllocError;

/// Reserves capacity for more items. A vector that has too little grows by at least an eighth of
/// its length, so that it is seldom moved and little of it stays empty.
///
/// # Errors
///
/// `AllocError` if memory runs out; the items are unchanged.
pub fn grow<T>(items: &mut Vec<T>, more: usize) -> Result<(), AllocError>
    ensures items { items.new.items ≡ items.old.items }
    ensures room { OnOk result (vec_len items.new + more ≤ vec_capacity items.new) }
{
    let len = items.len();
    if items.capacity() - len < more {
        items.reserve_exact(more.max(len / 8))?;
    }
    Ok(())
}
