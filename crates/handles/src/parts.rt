//! A box, or none, as a pointer and an allocator.
ghost use Rattle.std.specs.Prelude.{◌≡◌, true, None, Some, Option, is_some};
ghost use Rattle.std.specs.Coded.{coded_option};
ghost use Rattle.handles.specs.Places.{holds};

use std::alloc::Allocator;
use std::marker::Model;
use std::ptr::null_mut;

/// The pointer of a box to its block, and the allocator of the block. Where there is no box, the
/// pointer means nothing. Parts that are dropped do not free the block.
#[derive(Drop)]
pub struct Parts<T, A: Allocator> {
    pub ptr: *mut T,
    pub alloc: A,
    pub ghost state: { Option T } by { coded_option T.code },
}

impl<T, A: Allocator> Model for Parts<T, A> {
    ghost also_owns = { λ p. holds (A.dealloc_token p.alloc) T.row p.ptr p.state };
}

impl<T, A: Allocator> Parts<T, A> {
    /// Returns the parts of no box.
    pub fn none(alloc: A) -> Parts<T, A>
        ensures { result.state ≡ None }
    {
        Parts {
            ptr: null_mut(),
            alloc,
        }
    }

    /// Returns the parts of a box.
    pub fn of(boxed: Box<T, A>) -> Parts<T, A>
    where
        T: Drop,
        ensures { result.state ≡ Some boxed.value }
    {
        let (ptr, alloc) = Box::into_raw_with_allocator(boxed);
        Parts { ptr, alloc }
    }

    /// Returns the box of these parts.
    pub fn into_box(self) -> Box<T, A>
        requires { is_some self.state ≡ true }
        ensures { self.state ≡ Some result.value }
    {
        let Parts { ptr, alloc } = self;
        unsafe { Box::from_raw(alloc, ptr) }
    }
}
