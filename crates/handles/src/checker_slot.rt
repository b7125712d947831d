//! A place for a checker.
ghost use Rattle.std.specs.Prelude.{◌≡◌, true, None, Some, Option, is_some};
ghost use Rattle.handles.specs.declared.checker_ported.Ported.{Ported};
ghost use Rattle.handles.specs.contracts.checker_ported.Ported.{the_row as checker_row};
ghost use Rattle.std.specs.Coded.{coded_option};
ghost use Rattle.handles.specs.Places.{holds};

use crate::checker_ported::Ported;
use crate::parts::Parts;
use std::alloc::{Allocator, Global};
use std::marker::Model;

/// A place for a checker, which is there or not. Where it is, `at` points to its block; a slot that
/// is dropped does not free it.
#[repr(C)]
#[derive(Drop)]
pub struct Slot {
    at: *mut u8,
    alloc: Global,
    pub ghost state: { Option Ported } by { coded_option checker_row.coded },
}

impl Model for Slot {
    ghost also_owns = { λ s. holds (⟦<Global as Allocator>⟧.dealloc_token s.alloc) checker_row s.at s.state };
}

impl Slot {
    /// Puts the parts into the slot, and returns those that it had.
    fn exchange(&mut self, parts: Parts<Ported, Global>) -> Parts<Ported, Global>
        ensures { (self.new.state ≡ parts.state) × (result.state ≡ self.old.state) }
    {
        // (the slot keeps its allocator, since all values of `Global` are equal)
        let Parts { ptr, alloc } = parts;
        let old = Parts {
            ptr: self.at as *mut Ported,
            alloc,
        };
        self.at = ptr as *mut u8;
        old
    }

    /// Takes the checker out of the slot.
    pub(crate) fn take(&mut self, alloc: Global) -> Box<Ported>
        requires { is_some self.old.state ≡ true }
        ensures taken { self.old.state ≡ Some result.value }
        ensures left { self.new.state ≡ None }
    {
        self.exchange(Parts::none(alloc)).into_box()
    }

    /// Puts a checker into the slot, which has none.
    pub(crate) fn put(&mut self, checker: Box<Ported>)
        requires { self.old.state ≡ None }
        ensures { self.new.state ≡ Some checker.value }
    {
        drop(self.exchange(Parts::of(checker)));
    }
}
