//! The handle that C keeps.

ghost use Rattle.std.specs.Prelude.{◌≡◌, ◌≢◌, true, false, Some, None, IfSome, IfNone, IsNone, IsSome};
ghost use Rattle.wh_hand.specs.HandStates.{IsSoundByEvents};

use crate::sealing::SealedParts;
use crate::slot::HandleSlot;
use std::alloc::Global;
use std::mem;
use wh_hand::Hand;

/// A host, or none. All bytes 0 is none.
#[repr(C)]
#[derive(Drop)]
pub struct Handle {
    full: u32,
    /// Where the host lies.
    pub slot: HandleSlot,
    ghost filled: { full ≢ 0 → IsSome slot.held },
    ghost empty: { full ≡ 0 → IsNone slot.held },
}

// Takes what may go to another thread.
fn may_cross<T: Send>(_what: &T) {}

impl Handle {
    /// Shows that a handle may go to another thread: that this is accepted is the proof. It does nothing.
    pub fn crosses(&self) {
        may_cross(self);
    }

    // One without a host.
    fn empty(alloc: Global) -> Handle
        ensures { result.slot.held ≡ None }
    {
        Handle {
            full: 0,
            slot: HandleSlot::empty(alloc),
        }
    }

    // One with this host.
    fn of(hand: Box<Hand>) -> Handle
        ensures { result.slot.held ≡ Some hand.value }
    {
        Handle {
            full: 1,
            slot: HandleSlot::of_parts(SealedParts::of(hand)),
        }
    }

    /// Tells whether it holds a host.
    pub fn is_full(&self) -> bool
        ensures full { result ≡ true → IsSome self.now.slot.held }
        ensures empty { result ≡ false → self.now.slot.held ≡ None }
    {
        self.full != 0
    }

    /// Takes the host out; `None` where there is none.
    pub fn take(&mut self, alloc: Global) -> Option<Box<Hand>>
        ensures some { IfSome result (λ hand. self.old.slot.held ≡ Some hand.value) }
        ensures emptied { self.new.slot.held ≡ None }
        ensures none { IfNone result (self.old.slot.held ≡ None) }
    {
        if self.full == 0 {
            return None;
        }
        let Handle { full: _, slot } = mem::replace(self, Handle::empty(alloc));
        Some(slot.into_parts().into_box())
    }

    /// Puts a host in. It was reached by events alone, as each is.
    pub fn put(&mut self, hand: Box<Hand>)
        requires { self.old.slot.held ≡ None }
        ensures held { self.new.slot.held ≡ Some hand.value }
        ensures sound { IsSoundByEvents hand.value.host }
    {
        hand.invariant();
        *self = Handle::of(hand);
    }
}
