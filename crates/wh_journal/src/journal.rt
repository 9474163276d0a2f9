// The journal.

ghost use Rattle.std.specs.Prelude.{◌≡◌, ◌+◌, List, [], ◌∷◌, ◌++◌, length, map, slice_get, option_copied, IfOk, OnOk, OnErr};
ghost use Rattle.std.specs.Bool.{MatchBool};
ghost use Rattle.wh_journal.specs.Calls.{JournalCallState, HasPresent, CanGoFurther, with_progress, with_more_fuel, with_end};
ghost use Rattle.wh_journal.specs.declared.calls.CallEnd.TheVariants.{Dead};

use crate::calls::{CallEnd, JournalCall};
use std::alloc::{AllocError, Global};
use std::marker::Model;

// These calls once more.
fn copies_of(alloc: Global, calls: &[JournalCall]) -> Result<Vec<JournalCall>, AllocError>
    ensures { IfOk result (λ copies. copies.items ≡ calls.now) }
{
    let mut copies = Vec::with_capacity(alloc, calls.len())?;
    for call in calls {
        copies.push(call.copy(alloc)?)?;
    }
    Ok(copies)
}

/// The calls of one instance in the order of their coming: those that have ended, and after them the others, the first
/// of which is the present call.
///
/// Each method but `end_all` and those that copy takes constant time; `push` does so but where the room has to grow.
/// Only `push` and those that copy take memory.
#[derive(Drop)]
pub struct Journal {
    calls: Vec<JournalCall>,
    first_open: usize,
}

impl Model for Journal {
    ghost use Rattle.std.specs.Prelude.{◌≤◌, length, take, drop};
    ghost use Rattle.wh_journal.specs.Calls.{JournalState, stored_journal};

    ghost Value = { JournalState };

    ghost coded = { stored_journal };

    ghost view = { λ j. record {
      ended = take j.first_open j.calls.items;
      open_calls = drop j.first_open j.calls.items;
    } };

    ghost invariant = { λ j. j.first_open ≤ length j.calls.items };
}

impl Journal {
    /// Creates a journal without calls. Allocates nothing.
    pub fn new(alloc: Global) -> Journal
        ensures { result ≡ record { ended = []; open_calls = [] } }
    {
        Journal {
            calls: Vec::new(alloc),
            first_open: 0,
        }
    }

    /// Adds a call after the others.
    ///
    /// # Errors
    /// `AllocError` where room is refused. Nothing has changed then.
    pub fn push(&mut self, call: JournalCall) -> Result<(), AllocError>
        ensures ok { OnOk result (self.new
            ≡ record self.old { open_calls = self.old.open_calls ++ call ∷ [] }) }
        ensures err { OnErr result (self.new ≡ self.old) }
    {
        self.calls.reserve(1)?;
        self.calls.push_reserved(call);
        Ok(())
    }

    /// Tells whether no call is open.
    pub fn is_idle(&self) -> bool
        ensures { MatchBool result
            (self.now.open_calls ≡ []) (HasPresent self.now.open_calls) }
    {
        self.first_open == self.calls.len()
    }

    /// Returns the number of calls.
    pub fn len(&self) -> usize
        ensures { result ≡ length self.now.ended + length self.now.open_calls }
    {
        self.calls.len()
    }

    /// Returns the number of calls that have ended.
    pub fn ended_len(&self) -> usize
        ensures { result ≡ length self.now.ended }
    {
        self.first_open
    }

    /// Returns the number of open calls.
    pub fn open_len(&self) -> usize
        ensures { result ≡ length self.now.open_calls }
    {
        self.calls.len() - self.first_open
    }

    /// Returns the present call, which is the first open one, if any is.
    pub fn present(&self) -> Option<&JournalCall>
        ensures { option_copied result ≡ slice_get self.now.open_calls 0 }
    {
        self.calls.get(self.first_open)
    }

    /// Returns the call at this place, from 0 on, if there is one.
    pub fn call(&self, at: usize) -> Option<&JournalCall>
        ensures { option_copied result ≡ slice_get (self.now.ended ++ self.now.open_calls) at }
    {
        self.calls.get(at)
    }

    /// Copies all calls, in order.
    ///
    /// # Errors
    /// `AllocError` if an allocation fails.
    pub fn copies(&self, alloc: Global) -> Result<Vec<JournalCall>, AllocError>
        ensures { IfOk result (λ copies.
            copies.items ≡ self.now.ended ++ self.now.open_calls) }
    {
        copies_of(alloc, &self.calls)
    }

    /// Makes a journal of copies of the calls that have ended, in order. It has no other call.
    ///
    /// # Errors
    /// `AllocError` if an allocation fails. Nothing is left then.
    pub fn copy_ended(&self, alloc: Global) -> Result<Journal, AllocError>
        ensures { IfOk result (λ copy. copy ≡ record { ended = self.now.ended; open_calls = [] }) }
    {
        let calls = copies_of(alloc, &self.calls[..self.first_open])?;
        let first_open = calls.len();
        Ok(Journal { calls, first_open })
    }

    /// Adds to the pieces that the present call has written and to the charges that it has taken.
    pub fn go_further(&mut self, pieces: u64, charges: u64)
        requires { CanGoFurther self.old.open_calls pieces charges }
        ensures { (c : JournalCallState) (cs : List JournalCallState)
            → self.old.open_calls ≡ c ∷ cs
            → self.new ≡ record self.old { open_calls = with_progress c pieces charges ∷ cs } }
    {
        self.calls[self.first_open].go_further(pieces, charges);
    }

    /// Adds fuel, in charges, to what the present call was given, up to 2^64 - 1.
    pub fn refuel(&mut self, fuel: u64)
        requires { HasPresent self.old.open_calls }
        ensures { (c : JournalCallState) (cs : List JournalCallState)
            → self.old.open_calls ≡ c ∷ cs
            → self.new ≡ record self.old { open_calls = with_more_fuel c fuel ∷ cs } }
    {
        self.calls[self.first_open].refuel(fuel);
    }

    /// Ends the present call. The next open one, if any, is the present call then.
    pub fn end_present(&mut self, end: CallEnd)
        requires { HasPresent self.old.open_calls }
        ensures { (c : JournalCallState) (cs : List JournalCallState)
            → self.old.open_calls ≡ c ∷ cs
            → self.new ≡ record {
              ended = self.old.ended ++ with_end c end ∷ [];
              open_calls = cs;
            } }
    {
        self.calls[self.first_open].end_as(end);
        self.first_open += 1;
    }

    /// Ends the present call, and all open ones after it as `Dead`. Goes over the open calls.
    pub fn end_all(&mut self, end: CallEnd)
        requires { HasPresent self.old.open_calls }
        ensures { (c : JournalCallState) (cs : List JournalCallState)
            → self.old.open_calls ≡ c ∷ cs
            → self.new ≡ record {
              ended = self.old.ended ++ with_end c end ∷ map (λ w. with_end w Dead) cs;
              open_calls = [];
            } }
    {
        self.end_present(end);
        while !self.is_idle() {
            self.end_present(CallEnd::Dead);
        }
    }
}
