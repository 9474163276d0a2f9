//! Where a host lies, or none, in a form that C can hold: its type names no other type.

ghost use Rattle.std.specs.Prelude.{◌≡◌, Option, Some, None, IsSome};
ghost use Rattle.wh_hand.specs.HandStates.{HandState};
ghost use Rattle.wolqedir.specs.Held.{held_coded, slot_owns};

use crate::sealing::SealedParts;
use std::alloc::Global;
use std::marker::Model;
use std::ptr;
use wh_hand::Hand;

/// What C sees of what lies at a pointer: nothing.
#[repr(C)]
pub struct Opaque {
    private: u8,
}

/// A host, or none. Letting one go that is full would lose the host: `Handle` never does.
#[repr(C)]
#[derive(Drop)]
pub struct HandleSlot {
    at: *mut Opaque,
    alloc: Global,
    /// The host.
    pub ghost held: { Option HandState } by { held_coded },
}

impl Model for HandleSlot {
    ghost also_owns = { λ s. slot_owns s.alloc s.at s.held };
}

// It may go to another thread, as a box of a host may, which is all that it owns.
unsafe impl Send for HandleSlot {}

impl HandleSlot {
    /// Creates a slot without a host.
    pub fn empty(alloc: Global) -> HandleSlot
        ensures { result.held ≡ None }
    {
        HandleSlot {
            at: ptr::null_mut(),
            alloc,
        }
    }

    /// Creates a slot with the host of these parts.
    pub fn of_parts(parts: SealedParts<Hand, Global>) -> HandleSlot
        ensures { result.held ≡ Some parts.value }
    {
        let SealedParts { ptr, alloc } = parts;
        HandleSlot {
            at: ptr as *mut Opaque,
            alloc,
        }
    }

    /// Returns the parts of the host, which the slot has to hold.
    pub fn into_parts(self) -> SealedParts<Hand, Global>
        requires { IsSome self.held }
        ensures { self.held ≡ Some result.value }
    {
        let HandleSlot { at, alloc } = self;
        SealedParts {
            ptr: at as *mut Hand,
            alloc,
        }
    }
}
