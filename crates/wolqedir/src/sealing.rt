//! A box taken apart: its pointer, and the right to what is there.

ghost use Rattle.std.specs.Prelude.{◌≡◌};
ghost use Rattle.std.specs.Box.Ownership.{box_owns};

use std::alloc::Allocator;
use std::marker::Model;

/// The fields of a `Box`, in sight. They own what the box owned: the value, and its block of memory.
pub struct SealedParts<T, A: Allocator> {
    /// Where the value lies.
    pub ptr: *mut T,
    /// By which its block is given back.
    pub alloc: A,
    /// The value.
    pub ghost value: { T },
}

impl<T, A: Allocator> Model for SealedParts<T, A> {
    ghost also_owns = { λ p. box_owns (A.dealloc_token p.alloc) T.row p.ptr p.value };
}

impl<T, A: Allocator> SealedParts<T, A> {
    /// Takes a box apart.
    pub fn of(b: Box<T, A>) -> SealedParts<T, A>
    where
        T: Drop,
        ensures { result.value ≡ b.value }
    {
        let (ptr, alloc) = Box::into_raw_with_allocator(b);
        SealedParts { ptr, alloc }
    }

    /// Makes the box again.
    pub fn into_box(self) -> Box<T, A>
        ensures { result.value ≡ self.value }
    {
        let SealedParts { ptr, alloc } = self;
        unsafe { Box::from_raw(alloc, ptr) }
    }
}
