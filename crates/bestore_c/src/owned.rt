//! The content of a handle: a boxed value that is kept as a pointer, or nothing.
//!
//! An exported function takes no struct with a type parameter. So a handle holds one of the structs
//! of `handle`, which have the same fields, and lends it as an `Owned`.
ghost use Rattle.std.specs.Prelude.{◌≡◌, Option, None, Some, is_some, true};
ghost use Rattle.bestore_c.specs.Owned.{may_own};

use std::alloc::Allocator;
use std::marker::Model;
use std::mem;

/// A box that is kept as a pointer, or nothing.
#[repr(C)]
#[derive(Drop)]
pub struct Owned<T, A: Allocator> {
    at: *mut T,
    alloc: A,
    pub ghost value: { Option T },
}

impl<T, A: Allocator> Model for Owned<T, A> {
    ghost also_owns = { λ p. may_own (A.dealloc_token p.alloc) T.row p.at p.value };
}

impl<T: Drop, A: Allocator> Owned<T, A> {
    ghost use Rattle.bestore_c.specs.Imports.{sem};
    ghost use Rattle.bestore_c.specs.Lent.{LendsContent};

    /// Lends the content. When the borrow ends, the handle owns the content as it is then.
    pub fn lent(&mut self) -> &mut T
        requires { is_some self.old.value ≡ true }
        ensures* writes_back { sem 𝓛 (LendsContent T.row A.row A.dealloc_token self.entry result) }
        ensures value { self.old.value ≡ Some result.now }
    {
        unsafe { &mut *self.at }
    }

    /// Returns an owner of nothing, which is a null pointer.
    fn none(alloc: A) -> Owned<T, A>
        ensures { result.value ≡ None }
    {
        Owned {
            at: std::ptr::null_mut(),
            alloc,
        }
    }

    /// Takes ownership of a value, whose box becomes a pointer.
    pub fn of(value: Box<T, A>) -> Owned<T, A>
        ensures { result.value ≡ Some value.value }
    {
        let (at, alloc) = Box::into_raw_with_allocator(value);
        Owned { at, alloc }
    }

    /// Turns the owned value back into a box.
    fn into_box(self) -> Box<T, A>
        requires { is_some self.value ≡ true }
        ensures { self.value ≡ Some result.value }
    {
        let Owned { at, alloc } = self;
        unsafe { Box::from_raw(alloc, at) }
    }

    /// Takes the owned value out, and leaves nothing.
    pub fn take(&mut self, alloc: A) -> Box<T, A>
        requires { is_some self.old.value ≡ true }
        ensures taken { self.old.value ≡ Some result.value }
        ensures left { self.new.value ≡ None }
    {
        mem::replace(self, Owned::none(alloc)).into_box()
    }
}
